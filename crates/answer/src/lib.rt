// What a call puts out: decided as a small plan, then written into the answer buffer, each packet straight into its part.
// Plans and their writing go in here; what is put into a plan is decided by the crates above.
#![tactic(auto)]

mod cursor;
mod extent;
mod in_order;
mod single;
mod spread;

ghost use Rattle.std.specs.Prelude.{◌≡◌, cond};
ghost use Rattle.interface_map.specs.Held.{interfaces_of};
ghost use Rattle.peer_walks.specs.Inner.Asked.{addrs_of};
ghost use Rattle.answer.specs.Inner.Planned.{call_of, fits, answered};

use cursor::Cursor;
use engine_state::OwnState;
use interface_map::{InterfaceId, Interfaces};
use output::Echo;
use peer_table::Asked;
use time::HostTime;
use timeline::SessionState;
use wire::{NodeId, SocketAddrPlain};

// The packet that answers a message at once. A pong's echo is what follows the ping's byte 8, and is lent to the writer.
#[derive(Clone, Copy)]
pub enum Reply {
    Response {
        iface: InterfaceId,
        to: SocketAddrPlain,
        own: OwnState,
        mep4: Option<SocketAddrPlain>,
    },
    Pong {
        iface: InterfaceId,
        to: SocketAddrPlain,
        session_id: NodeId,
        ghost_time: HostTime,
    },
    Ping {
        iface: InterfaceId,
        to: SocketAddrPlain,
        host_time: HostTime,
        prev_ghost_time: HostTime,
    },
}

// A packet that goes out on every interface.
#[derive(Clone, Copy)]
pub enum Multicast {
    Alive(OwnState),
    ByeBye(NodeId),
}

// What upkeep puts out: a packet on every interface, a ping on every interface to each address that is asked, and three reports.
// The addresses are lent beside it: the first `asked` of them, and all 16 where it is over 16.
#[derive(Clone, Copy)]
pub struct Plan {
    pub multicast: Option<Multicast>,
    pub now: HostTime,
    pub asked: usize,
    pub report: Option<SessionState>,
    pub timer: Option<HostTime>,
    pub count: Option<u32>,
}

// What a call puts out, with the addresses lent beside it.
#[derive(Clone, Copy)]
pub struct CallPlan {
    pub reply: Option<Reply>,
    pub report: Option<SessionState>,
    pub plan: Plan,
}

// Writes the answer where it fits; otherwise the buffer stays as it was.
pub fn write_answer(
    o: CallPlan,
    interfaces: Interfaces,
    asked: &Asked,
    echo: &[u8],
    buf: &mut [u8],
) -> bool
    ensures value { result ≡ fits echo.now (call_of o (addrs_of o.plan.asked asked.now) (interfaces_of interfaces) echo.now) buf.old }
    ensures buf_after { buf.new ≡ cond result (answered (call_of o (addrs_of o.plan.asked asked.now) (interfaces_of interfaces) echo.now) buf.old) buf.old }
{
    let Some(echo) = Echo::new(echo) else {
        return false;
    };
    let extent = extent::of_outputs(o, interfaces, &echo);
    let at = Cursor::HEAD + 3 * extent.outputs;
    let room = buf.len();
    let is_too_small = room < at + extent.bytes;
    if is_too_small {
        return false;
    }
    big_endian::write::<u16>(buf, 0, extent.outputs as u16);
    big_endian::write::<u16>(buf, 2, extent.bytes as u16);
    let first = Cursor {
        total: extent.outputs,
        index: 0,
        at,
    };
    in_order::write_outputs(buf, first, o, interfaces, asked, &echo);
    true
}
