// The state that an election decides, and whether it decides anything new.
ghost use Rattle.std.specs.Prelude.{◌≡◌, ◌||◌, not};
ghost use Rattle.signed.specs.Equal.{eq_z};
ghost use Rattle.timeline.specs.Same.{same_state};
ghost use Rattle.wire.specs.Same.{same_node};
ghost use Rattle.model.specs.Election.{resolved_state};
ghost use Rattle.peer_walks.specs.Inner.Known.{shared};
ghost use Rattle.engine_state.specs.Inner.Lent.{peers_held};
ghost use Rattle.engine_state.specs.Inner.OwnBox.{own_box};
ghost use Rattle.election.specs.Inner.Known.{best_of, own_known};

use super::session::Best;
use engine_state::{
    Neighbours, OwnState, start_stop_to_ghost, start_stop_to_host, timeline_to_ghost,
    timeline_to_host,
};
use peer_walks::{SharedState, best_known};
use timeline::SessionState;

// Our own state counts only where we stay in our session.
#[tactic(auto, unfolding(peer_walks::specs::Inner::Known::shared, crate::specs::Inner::Known::own_known, crate::specs::Inner::Known::best_of))]
fn own_shared(best: Best, own: OwnState) -> SharedState
    ensures { shared result ≡ own_known (best_of best) own }
{
    let stays = best.session == own.session_id;
    SharedState {
        timeline: stays.then_some(timeline_to_ghost(best.offset, own.state.timeline)),
        start_stop: stays.then_some(start_stop_to_ghost(best.offset, own.state.start_stop)),
    }
}

// In host time, or the old one where none is known.
pub(crate) fn resolved_state<'a>(best: Best, own: OwnState, among: Neighbours<'a>) -> SessionState
    ensures { result ≡ resolved_state (best_of best) (own_box own (peers_held among.entry)) }
{
    let Neighbours {
        words,
        numbers,
        count,
    } = among;
    let known = best_known(own_shared(best, own), best.session, words, numbers, count);
    SessionState {
        timeline: known
            .timeline
            .map_or(own.state.timeline, |l| timeline_to_host(best.offset, l)),
        start_stop: known.start_stop.map_or(
            own.state.start_stop,
            |s| start_stop_to_host(best.offset, s),
        ),
    }
}

// Whether the session, the offset or the state is another one. A derived `==` on OwnState would compare the id too, and left its goal open.
pub(crate) fn changes(best: Best, own: OwnState, state: SessionState) -> bool
    ensures { result ≡ (not (same_node best.session own.session_id) || not (eq_z best.offset.0 own.session_offset.0) || not (same_state state own.state)) }
{
    best.session != own.session_id || best.offset != own.session_offset || state != own.state
}
