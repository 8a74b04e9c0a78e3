// The best line and the best start-stop state that are known in a session, in shared time.
ghost use Rattle.std.specs.Prelude.{◌≡◌, ℤ};
ghost use Rattle.lists.specs.Lists.{best};
ghost use Rattle.peer_table.specs.Rows.{peers_of};
ghost use Rattle.peer_walks.specs.Inner.Known.{KeyIs, option_list, shared, best_known, known_with};

use lists::held;
use peer_table::{MOST, Numbers, Words, line_at, session_at, start_stop_at};
use timeline::{StartStopState, Timeline};
use wire::{NodeId, is_node};

// What is known of a session's state, in shared time.
#[derive(Clone, Copy)]
pub struct SharedState {
    pub timeline: Option<Timeline>,
    pub start_stop: Option<StartStopState>,
}

// The one with the larger key; of equal ones the first stays.
fn better<T: Copy, K: Fn(T) -> i64>(held: Option<T>, other: Option<T>, key: K) -> Option<T>
    requires { K.IsAlwaysCallable key }
    ensures { (value : T → ℤ) → KeyIs (K.post key) value → result ≡ best value held (option_list other) }
{
    match (held, other) {
        (Some(x), Some(y)) => Some(if key(y) <= key(x) { x } else { y }),
        (Some(x), None) => Some(x),
        (None, y) => y,
    }
}

// After a neighbour, of which only one held under the session counts.
fn with_known(
    held: SharedState,
    session: NodeId,
    theirs: Option<NodeId>,
    line: Option<Timeline>,
    start_stop: Option<StartStopState>,
) -> SharedState
    ensures { shared result ≡ known_with session theirs line start_stop (shared held) }
{
    if !is_node(theirs, session) {
        return held;
    }
    SharedState {
        timeline: better(held.timeline, line, |l| l.beat_origin.0),
        start_stop: better(held.start_stop, start_stop, |s| s.time.0),
    }
}

// The best of our own and of those of the neighbours that are held under the session.
pub fn best_known<'a>(
    own: SharedState,
    session: NodeId,
    words: &'a Words,
    numbers: &'a Numbers,
    count: usize,
) -> SharedState
    ensures { shared result ≡ best_known session (shared own) (peers_of count words.now numbers.now) }
{
    let n = held(count, MOST);
    let mut known = own;
    for i in 0..n {
        let theirs = session_at(words, i);
        let line = line_at(words, numbers, i);
        let start_stop = start_stop_at(words, numbers, i);
        known = with_known(known, session, theirs, line, start_stop);
    }
    known
}
