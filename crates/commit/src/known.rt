// The largest beat origin and the latest start-stop time that are known in a session. A preview is asked often, so no line is carried along.
ghost use Rattle.std.specs.Prelude.{◌≡◌};
ghost use Rattle.engine_state.specs.Inner.Lent.{peers_held};
ghost use Rattle.commit.specs.Inner.Known.{own_largest, largest_known, known_with};

use engine_state::Neighbours;
use lists::held;
use peer_table::{MOST, line_at, session_at, start_stop_at};
use time::{Duration, HostTime, MicroBeats};
use timeline::{SessionState, StartStopState, Timeline};
use wire::{NodeId, is_node};

// The time is shared time.
#[derive(Clone, Copy)]
pub(crate) struct Largest {
    pub beat_origin: MicroBeats,
    pub time: HostTime,
}

// What our own state, in host time, begins with.
#[tactic(auto, unfolding(crate::specs::Inner::Known::own_largest))]
pub(crate) fn own_largest(state: SessionState, offset: Duration) -> Largest
    ensures { result ≡ own_largest state offset.0 }
{
    Largest {
        beat_origin: state.timeline.beat_origin,
        time: state.start_stop.time.wrapping_add(offset),
    }
}

// After a neighbour, of which only one held under the session counts.
#[tactic(auto, unfolding(crate::specs::Inner::Known::known_with, crate::specs::Inner::Known::greatest))]
fn with_known(
    held: Largest,
    session: NodeId,
    theirs: Option<NodeId>,
    line: Option<Timeline>,
    start_stop: Option<StartStopState>,
) -> Largest
    ensures { result ≡ known_with session theirs line start_stop held }
{
    if !is_node(theirs, session) {
        return held;
    }
    Largest {
        beat_origin: line.map_or(held.beat_origin, |l| held.beat_origin.max(l.beat_origin)),
        time: start_stop.map_or(held.time, |s| held.time.max(s.time)),
    }
}

pub(crate) fn largest_known<'a>(ours: Largest, session: NodeId, among: Neighbours<'a>) -> Largest
    ensures { result ≡ largest_known session ours (peers_held among.entry) }
{
    let Neighbours {
        words,
        numbers,
        count,
    } = among;
    let mut known = ours;
    for i in 0..held(count, MOST) {
        known = with_known(
            known,
            session,
            session_at(words, i),
            line_at(words, numbers, i),
            start_stop_at(words, numbers, i),
        );
    }
    known
}
