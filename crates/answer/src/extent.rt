// How many outputs a plan has and how many bytes their contents take, worked out before anything is written.
ghost use Rattle.std.specs.Prelude.{◌≡◌, List, ◌++◌, min, ◌+◌, ◌*◌, ◌≤◌, length};
ghost use Rattle.time.specs.declared.HostTime.{HostTime};
ghost use Rattle.interface_map.specs.Held.{interfaces_of};
ghost use Rattle.wire.specs.declared.SocketAddrPlain.{SocketAddrPlain};
ghost use Rattle.answer.specs.Inner.Planned.{state_outputs, multicast_outputs, ping_outputs, timer_output, count_output, plan_of, call_of};
ghost use Rattle.answer.specs.Inner.Values.{maybe_outputs};
ghost use Rattle.answer.specs.Inner.Extents.{Extends};

use super::{CallPlan, Multicast, Plan, single};
use interface_map::Interfaces;
use lists::held;
use output::{ADDRESS_SIZE, Echo, Output};
use peer_table::MOST;
use time::HostTime;
use timeline::SessionState;
use wire_writer::{ALIVE_SIZE_WITH_MEP4, BYEBYE_SIZE, PING_SIZE};

#[derive(Clone, Copy)]
pub(crate) struct Extent {
    pub(crate) outputs: usize,
    pub(crate) bytes: usize,
}

impl Extent {
    fn none() -> Extent
        ensures { (result.outputs ≡ 0) × (result.bytes ≡ 0) }
    {
        Extent {
            outputs: 0,
            bytes: 0,
        }
    }

    fn one(bytes: usize) -> Extent
        ensures { (result.outputs ≡ 1) × (result.bytes ≡ bytes) }
    {
        Extent { outputs: 1, bytes }
    }

    // That of both, one after the other.
    fn and(self, other: Extent) -> Extent
        requires outputs_bound { (self.outputs ≤ 1000) × (other.outputs ≤ 1000) }
        requires bytes_bound { (self.bytes ≤ 10000) × (other.bytes ≤ 10000) }
        ensures { (result.outputs ≡ self.outputs + other.outputs) × (result.bytes ≡ self.bytes + other.bytes) }
    {
        Extent {
            outputs: self.outputs + other.outputs,
            bytes: self.bytes + other.bytes,
        }
    }
}

fn of_single(o: Option<Output>, echo: &Echo<'_>) -> Extent
    ensures { Extends (maybe_outputs echo.now o) 1 554 result }
{
    match o {
        Some(x) => Extent::one(x.size(echo.bytes())),
        None => Extent::none(),
    }
}

fn of_multicast(multicast: Option<Multicast>, interfaces: Interfaces) -> Extent
    ensures { Extends (multicast_outputs (interfaces_of interfaces) multicast) 4 468 result }
{
    let Some(packet) = multicast else {
        return Extent::none();
    };
    let outputs = interfaces.len();
    match packet {
        Multicast::Alive(_) => Extent {
            outputs,
            bytes: outputs * (ADDRESS_SIZE + ALIVE_SIZE_WITH_MEP4),
        },
        Multicast::ByeBye(_) => Extent {
            outputs,
            bytes: outputs * (ADDRESS_SIZE + BYEBYE_SIZE),
        },
    }
}

// Whoever they go out to.
fn of_pings(asked: usize, interfaces: Interfaces) -> Extent
    ensures extends { (t : HostTime) (to : List SocketAddrPlain) → length to ≡ min asked 16 → Extends (ping_outputs t (interfaces_of interfaces) to) 64 2240 result }
    ensures outputs_bound { (result.outputs ≤ 64) × (result.bytes ≤ 2240) }
{
    let outputs = held(asked, MOST) * interfaces.len();
    Extent {
        outputs,
        bytes: outputs * (ADDRESS_SIZE + PING_SIZE),
    }
}

fn of_reports(
    report: Option<SessionState>,
    timer: Option<HostTime>,
    count: Option<u32>,
    echo: &Echo<'_>,
) -> Extent
    ensures { Extends (state_outputs report ++ (timer_output timer ++ count_output count)) 3 1662 result }
{
    let state = of_single(single::of_state(report), echo);
    let time = of_single(single::of_timer(timer), echo);
    let number = of_single(single::of_count(count), echo);
    state.and(time.and(number))
}

fn of_upkeep(plan: Plan, interfaces: Interfaces, echo: &Echo<'_>) -> Extent
    ensures extends { (to : List SocketAddrPlain) → length to ≡ min plan.asked 16 → Extends (plan_of plan to (interfaces_of interfaces)) 71 4370 result }
    ensures outputs_bound { (result.outputs ≤ 71) × (result.bytes ≤ 4370) }
{
    let reports = of_reports(plan.report, plan.timer, plan.count, echo);
    let after_multicast = of_pings(plan.asked, interfaces).and(reports);
    of_multicast(plan.multicast, interfaces).and(after_multicast)
}

pub(crate) fn of_outputs(o: CallPlan, interfaces: Interfaces, echo: &Echo<'_>) -> Extent
    ensures extends { (to : List SocketAddrPlain) → length to ≡ min o.plan.asked 16 → Extends (call_of o to (interfaces_of interfaces) echo.now) 73 5478 result }
    ensures outputs_bound { (result.outputs ≤ 73) × (result.bytes ≤ 5478) }
{
    let first = of_single(single::of_reply(o.reply), echo);
    let second = of_single(single::of_state(o.report), echo);
    first.and(second.and(of_upkeep(o.plan, interfaces, echo)))
}
