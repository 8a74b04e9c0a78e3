// What is due by now, and when the next of it is.
ghost use Rattle.std.specs.Prelude.{◌≡◌, cond, [], ◌∷◌, eqb};
ghost use Rattle.std.specs.Int.Signed.{le_z};
ghost use Rattle.model.specs.Engine.{num_peers_changed};
ghost use Rattle.model.specs.Produce.{or_timeout, timer_outputs};
ghost use Rattle.answer.specs.declared.Multicast.TheVariants as packets;
ghost use Rattle.answer.specs.Inner.Planned.{timer_output, count_output};
ghost use Rattle.upkeep.specs.Inner.Decided.{next_after};

use answer::Multicast;
use engine_state::OwnState;
use peer::PeerState;
use time::{Duration, HostTime};

// From a broadcast to the next.
const BROADCAST_INTERVAL: Duration = Duration(250_000);

pub(crate) fn broadcast(own: OwnState, due: HostTime, now: HostTime) -> Option<Multicast>
    ensures { result ≡ cond (le_z due.0 «now».0) (Some (packets.Alive own)) None }
{
    if due <= now {
        Some(Multicast::Alive(own))
    } else {
        None
    }
}

pub(crate) fn next_after(due: HostTime, now: HostTime) -> HostTime
    ensures { result ≡ next_after «now» due }
{
    if due <= now {
        now.wrapping_add(BROADCAST_INTERVAL)
    } else {
        due
    }
}

// The earlier of a time and of when the neighbour that was seen longest ago goes. NEVER stands for no time at all, as `never` does in `or_timeout`.
#[tactic(auto, unfolding(model::specs::Produce::or_timeout))]
fn or_timeout(t: HostTime, seen: HostTime) -> HostTime
    ensures { result ≡ or_timeout t seen }
{
    if seen == HostTime::NEVER {
        t
    } else {
        seen.wrapping_add(PeerState::TIMEOUT).min(t)
    }
}

#[tactic(auto, unfolding(answer::specs::Inner::Planned::timer_output, model::specs::Produce::timer_outputs))]
pub(crate) fn timer_at(t: HostTime, seen: HostTime) -> Option<HostTime>
    ensures { timer_output result ≡ timer_outputs (or_timeout t seen) }
{
    let first = or_timeout(t, seen);
    (first != HostTime::NEVER).then_some(first)
}

// A count is reported where it is another one.
#[tactic(auto, unfolding(answer::specs::Inner::Planned::count_output))]
pub(crate) fn changed_count(count: u32, reported: u32) -> Option<u32>
    ensures { count_output result ≡ cond (eqb count reported) [] (num_peers_changed count ∷ []) }
{
    (count != reported).then_some(count)
}
