// One neighbour into its rows. What it has not is stored as zeros.
ghost use Rattle.std.specs.Prelude.{◌≡◌, ◌<◌, ◌+◌, ◌*◌, set};
ghost use Rattle.peer_table.specs.Places.{wide};
ghost use Rattle.peer.specs.Held.{peer};
ghost use Rattle.peer_table.specs.Rows.{peer_at};
ghost use Rattle.peer_table.specs.Inner.Changed.{Changed};
ghost use Rattle.peer_table.specs.Inner.Stored.{flag, fill, values_of, flags_of, numbers_of};

use super::{
    BEAT, HAS_LINE, HAS_SESSION, HAS_START, ID, IP, MEASURING, MOST, NUMBERS, Numbers, ORIGIN,
    PING, PLAYING, PORT, SEEN, SESSION, START_BEAT, START_TIME, TEMPO, TIMEOUTS, WORDS, Words,
};
use peer::PeerState;
use time::{HostTime, MicroBeats, TempoWire};
use timeline::{StartStopState, Timeline};
use wire::NodeId;

// What stands in a row that has no line, and in one that has no start-stop state.
const NO_LINE: Timeline = Timeline {
    tempo: TempoWire(0),
    beat_origin: MicroBeats(0),
    time_origin: HostTime(0),
};

const NO_START: StartStopState = StartStopState {
    is_playing: false,
    beat: MicroBeats(0),
    time: HostTime(0),
};

pub(crate) fn put_word(words: &mut Words, i: usize, k: usize, v: u64)
    requires { k < wide.words }
    ensures { words.new ≡ set words.old (i * wide.words + k) v }
{
    if i < MOST {
        words[i * WORDS + k] = v;
    }
}

pub(crate) fn put_number(numbers: &mut Numbers, i: usize, k: usize, v: i64)
    requires { k < wide.numbers }
    ensures { numbers.new ≡ set numbers.old (i * wide.numbers + k) v }
{
    if i < MOST {
        numbers[i * NUMBERS + k] = v;
    }
}

fn put_flag(words: &mut Words, i: usize, k: usize, b: bool)
    requires { k < wide.words }
    ensures { words.new ≡ set words.old (i * wide.words + k) (flag b) }
{
    put_word(words, i, k, u64::from(b));
}

#[tactic(auto, unfolding(crate::specs::Inner::Stored::fill, crate::specs::Inner::Stored::values_of))]
fn put_values(words: &mut Words, i: usize, p: PeerState)
    ensures { words.new ≡ fill words.old (i * wide.words) 0 (values_of p) }
{
    put_word(words, i, ID, p.id.0);
    put_word(words, i, SESSION, p.session_id.unwrap_or(NodeId(0)).0);
    put_word(words, i, IP, p.addr.ip as u64);
    put_word(words, i, PORT, p.addr.port as u64);
    put_word(words, i, TIMEOUTS, p.ping_timeouts as u64);
}

#[tactic(auto, unfolding(crate::specs::Inner::Stored::fill, crate::specs::Inner::Stored::flags_of))]
fn put_flags(words: &mut Words, i: usize, p: PeerState)
    ensures { words.new ≡ fill words.old (i * wide.words) 5 (flags_of p) }
{
    put_flag(words, i, HAS_SESSION, p.session_id.is_some());
    put_flag(words, i, HAS_LINE, p.timeline_ghost.is_some());
    put_flag(words, i, HAS_START, p.start_stop_ghost.is_some());
    put_flag(
        words,
        i,
        PLAYING,
        p.start_stop_ghost.unwrap_or(NO_START).is_playing,
    );
    put_flag(words, i, MEASURING, p.measuring);
}

#[tactic(auto, unfolding(crate::specs::Inner::Stored::fill, crate::specs::Inner::Stored::numbers_of))]
fn put_numbers(numbers: &mut Numbers, i: usize, p: PeerState)
    ensures { numbers.new ≡ fill numbers.old (i * wide.numbers) 0 (numbers_of p) }
{
    let line = p.timeline_ghost.unwrap_or(NO_LINE);
    let start = p.start_stop_ghost.unwrap_or(NO_START);
    put_number(numbers, i, SEEN, p.last_seen.0);
    put_number(numbers, i, PING, p.next_ping_time.0);
    put_number(numbers, i, TEMPO, line.tempo.0);
    put_number(numbers, i, BEAT, line.beat_origin.0);
    put_number(numbers, i, ORIGIN, line.time_origin.0);
    put_number(numbers, i, START_BEAT, start.beat.0);
    put_number(numbers, i, START_TIME, start.time.0);
}

// The row's samples stay.
pub fn put_peer(words: &mut Words, numbers: &mut Numbers, i: usize, p: PeerState)
    ensures { Changed words.old words.new numbers.old numbers.new i (peer p (peer_at words.old numbers.old i).samples) }
{
    put_values(words, i, p);
    put_flags(words, i, p);
    put_numbers(numbers, i, p);
}
