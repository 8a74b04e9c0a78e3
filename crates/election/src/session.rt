// The session that an election chooses, and its offset.
ghost use Rattle.std.specs.Prelude.{◌≡◌, ltb, pos};
ghost use Rattle.std.specs.Int.Signed.{le_z};
ghost use Rattle.model.specs.Sums.{add64, sub64, abs64};
ghost use Rattle.model.specs.Election.{wins, readopts, meet, consider, best_session};
ghost use Rattle.peer_table.specs.Rows.{peer_at};
ghost use Rattle.engine_state.specs.Inner.Lent.{peers_held};
ghost use Rattle.engine_state.specs.Inner.OwnBox.{own_box};
ghost use Rattle.election.specs.Inner.Known.{best_of};

use engine_state::{Neighbours, OwnState};
use lists::held;
use peer_table::{MOST, median, sample_count, session_at};
use time::{Duration, HostTime};
use wire::NodeId;

// The best session so far, and its offset.
#[derive(Clone, Copy)]
pub(crate) struct Best {
    pub session: NodeId,
    pub offset: Duration,
}

// Within which two sessions' shared times count as equal, and the smaller id decides.
const EQUAL_WITHIN: Duration = Duration(500_000);

// By which an offset has to differ to be taken up in the same session.
const OFFSET_JITTER: Duration = Duration(500);

// The Rust's `compare_session_ids`.
fn smaller(a: NodeId, b: NodeId) -> bool
    ensures { result ≡ ltb a.0 b.0 }
{
    a.0 < b.0
}

// By how much the shared time at one offset is ahead of that at another.
fn ahead_by(at: HostTime, theirs: Duration, ours: Duration) -> Duration
    ensures { result.0 ≡ sub64 (add64 at.0 theirs.0) (add64 at.0 ours.0) }
{
    at.wrapping_add(theirs).wrapping_sub(at.wrapping_add(ours))
}

// Whether neither is ahead. The wrapped size of the smallest number is itself, so that lead counts too.
fn near(ahead: Duration) -> bool
    ensures { result ≡ le_z (abs64 ahead.0) (pos 500_000) }
{
    signed::wrapping_abs(ahead.0) <= EQUAL_WITHIN.0
}

#[tactic(auto, unfolding(model::specs::Election::wins))]
fn wins(ahead: Duration, smaller: bool) -> bool
    ensures { result ≡ wins ahead.0 smaller }
{
    EQUAL_WITHIN < ahead || near(ahead) && smaller
}

#[tactic(auto, unfolding(model::specs::Election::readopts))]
fn readopts(ours: Duration, theirs: Duration) -> bool
    ensures { result ≡ readopts ours.0 theirs.0 }
{
    OFFSET_JITTER.0 < signed::wrapping_abs(signed::wrapping_sub(ours.0, theirs.0))
}

// The best after a neighbour of this session and offset. Our own node's session keeps its offset.
#[tactic(auto, unfolding(model::specs::Election::meet, crate::specs::Inner::Known::best_of))]
fn meet(node_id: NodeId, at: HostTime, best: Best, session: NodeId, offset: Duration) -> Best
    ensures { best_of result ≡ meet node_id at (best_of best) session offset.0 }
{
    let taken_up = if session == best.session {
        best.session != node_id && readopts(best.offset, offset)
    } else {
        wins(
            ahead_by(at, offset, best.offset),
            smaller(session, best.session),
        )
    };
    if taken_up {
        Best { session, offset }
    } else {
        best
    }
}

// A neighbour without a sample or without a session is passed over.
#[tactic(auto, unfolding(model::specs::Election::consider))]
fn consider<'a>(node_id: NodeId, at: HostTime, best: Best, among: Neighbours<'a>, i: usize) -> Best
    ensures { let p = peer_at among.entry.words.now among.entry.numbers.now i in best_of result ≡ consider node_id at (best_of best) p.session_id p.samples.offsets }
{
    let Neighbours { words, numbers, .. } = among;
    match session_at(words, i) {
        Some(session) if sample_count(words, i) > 0 => {
            meet(node_id, at, best, session, median(words, numbers, i))
        }
        _ => best,
    }
}

pub(crate) fn best_session<'a>(own: OwnState, among: Neighbours<'a>, at: HostTime) -> Best
    ensures { best_of result ≡ best_session at (own_box own (peers_held among.entry)) }
{
    let mut best = Best {
        session: own.session_id,
        offset: own.session_offset,
    };
    for i in 0..held(among.count, MOST) {
        best = consider(own.node_id, at, best, among, i);
    }
    best
}
