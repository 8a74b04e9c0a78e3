// Writes a plan's outputs in their order.
ghost use Rattle.interface_map.specs.Held.{interfaces_of};
ghost use Rattle.peer_walks.specs.Inner.Asked.{addrs_of};
ghost use Rattle.answer.specs.Inner.Planned.{plan_of, call_of};
ghost use Rattle.answer.specs.Inner.Laid.{Room, Laid};

use super::cursor::Cursor;
use super::single::write_single;
use super::spread::{write_multicast, write_pings};
use super::{CallPlan, Plan, single};
use interface_map::Interfaces;
use output::Echo;
use peer_table::Asked;

fn write_upkeep(
    buf: &mut [u8],
    c: Cursor,
    interfaces: Interfaces,
    plan: Plan,
    asked: &Asked,
    echo: &Echo<'_>,
) -> Cursor
    requires { Room c (plan_of plan (addrs_of plan.asked asked.now) (interfaces_of interfaces)) buf.old }
    ensures { Laid c (plan_of plan (addrs_of plan.asked asked.now) (interfaces_of interfaces)) buf.old result buf.new }
{
    let c = write_multicast(buf, c, interfaces, plan.multicast);
    let c = write_pings(buf, c, interfaces, plan.now, asked, plan.asked);
    let c = write_single(buf, c, single::of_state(plan.report), echo);
    let c = write_single(buf, c, single::of_timer(plan.timer), echo);
    write_single(buf, c, single::of_count(plan.count), echo)
}

pub(crate) fn write_outputs(
    buf: &mut [u8],
    c: Cursor,
    o: CallPlan,
    interfaces: Interfaces,
    asked: &Asked,
    echo: &Echo<'_>,
) -> Cursor
    requires { Room c (call_of o (addrs_of o.plan.asked asked.now) (interfaces_of interfaces) echo.now) buf.old }
    ensures { Laid c (call_of o (addrs_of o.plan.asked asked.now) (interfaces_of interfaces) echo.now) buf.old result buf.new }
{
    let c = write_single(buf, c, single::of_reply(o.reply), echo);
    let c = write_single(buf, c, single::of_state(o.report), echo);
    write_upkeep(buf, c, interfaces, o.plan, asked, echo)
}
