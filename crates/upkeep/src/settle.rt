// What becomes of the neighbours in their rows, and what follows from that. Where nothing is due the rows are walked once.
ghost use Rattle.peer_table.specs.Rows.{peers_of};
ghost use Rattle.peer_walks.specs.Inner.Asked.{addrs_of};
ghost use Rattle.upkeep.specs.Inner.Settling.{AllStay, Settling};

use super::due::timer_at;
use election::{Resolved, resolve_session, unresolved};
use engine_state::OwnState;
use peer_table::{Asked, Numbers, Words};
use peer_walks::{Overview, oldest_kept, poll, retain_since, survey};
use time::HostTime;

// How many neighbours are left, how many addresses are asked (they stand in `asked`), what was decided, the timer, and how many are held under the session.
#[derive(Clone, Copy)]
pub(crate) struct Settled {
    pub left: usize,
    pub asked: usize,
    pub resolved: Resolved,
    pub timer: Option<HostTime>,
    pub count: u32,
}

// Where no neighbour goes, there is no election.
fn all_stay(own: OwnState, found: Overview, count: usize, asked: usize, next: HostTime) -> Settled
    ensures { AllStay own found count asked next result }
{
    Settled {
        left: count,
        asked,
        resolved: unresolved(own, next),
        timer: timer_at(found.ping, found.seen),
        count: found.count,
    }
}

// One that goes still counts for the timer by its next ping.
pub(crate) fn settle(
    own: OwnState,
    words: &mut Words,
    numbers: &mut Numbers,
    asked: &mut Asked,
    count: usize,
    next: HostTime,
    at: HostTime,
) -> Settled
    ensures { Settling at own next (peers_of count words.old numbers.old) (peers_of result.left words.new numbers.new) (addrs_of result.asked asked.new) result }
{
    let before = survey(words, numbers, count, next, own.session_id, at);
    if before.is_calm {
        return all_stay(own, before, count, 0, next);
    }
    let asks = poll(words, numbers, asked, count, at);
    let polled = survey(words, numbers, count, next, own.session_id, at);
    let cutoff = oldest_kept(at);
    if cutoff <= polled.seen {
        return all_stay(own, polled, count, asks, next);
    }
    let left = retain_since(words, numbers, count, cutoff);
    let resolved = resolve_session(own, words, numbers, left, next, at);
    let rest = survey(words, numbers, left, next, resolved.own.session_id, at);
    Settled {
        left,
        asked: asks,
        resolved,
        timer: timer_at(polled.ping, rest.seen),
        count: rest.count,
    }
}
