// What becomes of a committed state's line and start-stop state (commit_app_state of engine.rs).
// What is taken for a state goes in here; the call itself is of `call_host`.
#![tactic(auto)]

mod known;
mod moved;

ghost use Rattle.std.specs.Prelude.{◌≡◌};
ghost use Rattle.model.specs.Commit.{taken};
ghost use Rattle.peer_table.specs.Rows.{peers_of};
ghost use Rattle.engine_state.specs.Inner.OwnBox.{own_box};

use engine_state::{Neighbours, OwnState};
use known::{largest_known, own_largest};
use moved::{taken_start_stop, taken_timeline};
use peer_table::{Numbers, Words};
use timeline::SessionState;

// What the engine takes for a committed state.
pub fn taken<'a>(
    own: OwnState,
    words: &'a Words,
    numbers: &'a Numbers,
    count: usize,
    state: SessionState,
) -> SessionState
    ensures { result ≡ taken (own_box own (peers_of count words.now numbers.now)) state }
{
    let ours = own_largest(own.state, own.session_offset);
    let among = Neighbours {
        words,
        numbers,
        count,
    };
    let known = largest_known(ours, own.session_id, among);
    SessionState {
        timeline: taken_timeline(known.beat_origin, own.state.timeline, state.timeline),
        start_stop: taken_start_stop(
            own.session_offset,
            known.time,
            own.state.start_stop,
            state.start_stop,
        ),
    }
}
