// One neighbour out of its rows.
ghost use Rattle.std.specs.Prelude.{◌≡◌, List, ℕ, ◌<◌, ◌%◌, ℤ};
ghost use Rattle.peer_table.specs.Places.{wide};
ghost use Rattle.peer.specs.Held.{peer};
ghost use Rattle.peer_table.specs.Rows.{word, number, is_set, peer_at};

use super::{
    BEAT, HAS_LINE, HAS_SESSION, HAS_START, ID, IP, MEASURING, MOST, NUMBERS, Numbers, ORIGIN,
    PING, PLAYING, PORT, SEEN, SESSION, START_BEAT, START_TIME, TEMPO, TIMEOUTS, WORDS, Words,
};
use peer::PeerState;
use time::{HostTime, MicroBeats, TempoWire};
use timeline::{StartStopState, Timeline};
use wire::{NodeId, SocketAddrPlain};

// A reader takes the one table that it reads, and the row's number: a struct of both tables would lend it more than it reads.
// Each table has its own reader and writer: a generic one would be given the width, the zero and the type at each of some thirty calls, and be no plainer.
pub(crate) fn word_at(words: &Words, i: usize, k: usize) -> u64
    requires { k < wide.words }
    ensures { result ≡ word words.now i k }
{
    if i < MOST { words[i * WORDS + k] } else { 0 }
}

fn flag_at(words: &Words, i: usize, k: usize) -> bool
    requires { k < wide.words }
    ensures { result ≡ is_set (word words.now i k) }
{
    word_at(words, i, k) != 0
}

// The low 32 bits of a word.
fn short_at(words: &Words, i: usize, k: usize) -> u32
    requires { k < wide.words }
    ensures { result ≡ word words.now i k % 4_294_967_296 }
{
    (word_at(words, i, k) % 4_294_967_296) as u32
}

pub(crate) fn number_at(numbers: &Numbers, i: usize, k: usize) -> i64
    requires { k < wide.numbers }
    ensures { result ≡ number numbers.now i k }
{
    if i < MOST {
        numbers[i * NUMBERS + k]
    } else {
        0
    }
}

#[tactic(auto, unfolding(crate::specs::Rows::peer_at, peer::specs::Held::peer, crate::specs::Rows::neighbour_in))]
pub fn id_at(words: &Words, i: usize) -> NodeId
    ensures { (numbers : List ℤ) → result ≡ (peer_at words.now numbers i).id }
{
    NodeId(word_at(words, i, ID))
}

#[tactic(auto, unfolding(crate::specs::Rows::peer_at, peer::specs::Held::peer, crate::specs::Rows::neighbour_in))]
pub fn addr_at(words: &Words, i: usize) -> SocketAddrPlain
    ensures { (numbers : List ℤ) → result ≡ (peer_at words.now numbers i).addr }
{
    SocketAddrPlain {
        ip: short_at(words, i, IP),
        port: (word_at(words, i, PORT) % 65_536) as u16,
    }
}

#[tactic(auto, unfolding(crate::specs::Rows::peer_at, peer::specs::Held::peer, crate::specs::Rows::neighbour_in))]
pub fn session_at(words: &Words, i: usize) -> Option<NodeId>
    ensures { (numbers : List ℤ) → result ≡ (peer_at words.now numbers i).session_id }
{
    if flag_at(words, i, HAS_SESSION) {
        Some(NodeId(word_at(words, i, SESSION)))
    } else {
        None
    }
}

#[tactic(auto, unfolding(crate::specs::Rows::peer_at, peer::specs::Held::peer, crate::specs::Rows::neighbour_in))]
pub fn is_measuring(words: &Words, i: usize) -> bool
    ensures { (numbers : List ℤ) → result ≡ (peer_at words.now numbers i).measuring }
{
    flag_at(words, i, MEASURING)
}

#[tactic(auto, unfolding(crate::specs::Rows::peer_at, peer::specs::Held::peer, crate::specs::Rows::neighbour_in))]
pub fn seen_at(numbers: &Numbers, i: usize) -> HostTime
    ensures { (words : List ℕ) → result ≡ (peer_at words numbers.now i).last_seen }
{
    HostTime(number_at(numbers, i, SEEN))
}

#[tactic(auto, unfolding(crate::specs::Rows::peer_at, peer::specs::Held::peer, crate::specs::Rows::neighbour_in))]
pub fn next_ping_at(numbers: &Numbers, i: usize) -> HostTime
    ensures { (words : List ℕ) → result ≡ (peer_at words numbers.now i).next_ping_time }
{
    HostTime(number_at(numbers, i, PING))
}

#[tactic(auto, unfolding(crate::specs::Rows::peer_at, peer::specs::Held::peer, crate::specs::Rows::neighbour_in))]
pub fn line_at<'a>(words: &'a Words, numbers: &'a Numbers, i: usize) -> Option<Timeline>
    ensures { result ≡ (peer_at words.now numbers.now i).timeline_ghost }
{
    if flag_at(words, i, HAS_LINE) {
        Some(Timeline {
            tempo: TempoWire(number_at(numbers, i, TEMPO)),
            beat_origin: MicroBeats(number_at(numbers, i, BEAT)),
            time_origin: HostTime(number_at(numbers, i, ORIGIN)),
        })
    } else {
        None
    }
}

#[tactic(auto, unfolding(crate::specs::Rows::peer_at, peer::specs::Held::peer, crate::specs::Rows::neighbour_in))]
pub fn start_stop_at<'a>(words: &'a Words, numbers: &'a Numbers, i: usize) -> Option<StartStopState>
    ensures { result ≡ (peer_at words.now numbers.now i).start_stop_ghost }
{
    if flag_at(words, i, HAS_START) {
        Some(StartStopState {
            is_playing: flag_at(words, i, PLAYING),
            beat: MicroBeats(number_at(numbers, i, START_BEAT)),
            time: HostTime(number_at(numbers, i, START_TIME)),
        })
    } else {
        None
    }
}

// All but its samples.
#[tactic(auto, unfolding(crate::specs::Rows::peer_at, peer::specs::Held::peer, crate::specs::Rows::neighbour_in))]
pub fn peer_at<'a>(words: &'a Words, numbers: &'a Numbers, i: usize) -> PeerState
    ensures { peer result (peer_at words.now numbers.now i).samples ≡ peer_at words.now numbers.now i }
{
    PeerState {
        id: id_at(words, i),
        session_id: session_at(words, i),
        timeline_ghost: line_at(words, numbers, i),
        start_stop_ghost: start_stop_at(words, numbers, i),
        last_seen: seen_at(numbers, i),
        addr: addr_at(words, i),
        next_ping_time: next_ping_at(numbers, i),
        ping_timeouts: short_at(words, i, TIMEOUTS),
        measuring: is_measuring(words, i),
    }
}
