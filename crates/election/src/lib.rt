// The election of a session, its offset, its line and its start-stop state (resolve_session of engine.rs).
// What is elected goes in here; when there is an election is of `messages` and `upkeep`.
#![tactic(auto)]

mod session;
mod state;

ghost use Rattle.std.specs.Prelude.{◌≡◌};
ghost use Rattle.peer_table.specs.Rows.{peers_of};
ghost use Rattle.election.specs.Inner.Resolution.{unresolved, resolution};

use engine_state::{Neighbours, OwnState};
use peer_table::{Numbers, Words};
use session::best_session;
use state::{changes, resolved_state};
use time::HostTime;
use timeline::SessionState;

// What the engine says of itself from now on, when it next broadcasts that, and what is reported.
#[derive(Clone, Copy)]
pub struct Resolved {
    pub own: OwnState,
    pub next_broadcast: HostTime,
    pub report: Option<SessionState>,
}

// Where there is no election.
pub fn unresolved(own: OwnState, next_broadcast: HostTime) -> Resolved
    ensures { result ≡ unresolved own next_broadcast }
{
    Resolved {
        own,
        next_broadcast,
        report: None,
    }
}

// Anything new is reported, and broadcast at once.
pub fn resolve_session<'a>(
    own: OwnState,
    words: &'a Words,
    numbers: &'a Numbers,
    count: usize,
    next_broadcast: HostTime,
    at: HostTime,
) -> Resolved
    ensures { result ≡ resolution at own next_broadcast (peers_of count words.now numbers.now) }
{
    let among = Neighbours {
        words,
        numbers,
        count,
    };
    let best = best_session(own, among, at);
    let state = resolved_state(best, own, among);
    let after = OwnState {
        session_id: best.session,
        session_offset: best.offset,
        state,
        ..own
    };
    if changes(best, own, state) {
        Resolved {
            own: after,
            next_broadcast: at,
            report: Some(state),
        }
    } else {
        unresolved(after, next_broadcast)
    }
}
