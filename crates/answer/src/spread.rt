// What goes out on every interface: a multicast, and a ping to each address that is asked.
ghost use Rattle.std.specs.Prelude.{◌≡◌, [], map};
ghost use Rattle.output.specs.Inner.Outputs.{output_of};
ghost use Rattle.interface_map.specs.Held.{interface, interfaces_of};
ghost use Rattle.peer_walks.specs.Inner.Asked.{addrs_of};
ghost use Rattle.answer.specs.Inner.Planned.{multicast_outputs, ping_outputs};
ghost use Rattle.answer.specs.Inner.Laid.{Room, Laid};
ghost use Rattle.answer.specs.Inner.Values.{spread_output};

use super::Multicast;
use super::cursor::Cursor;
use super::single::alive;
use engine_state::OwnState;
use interface_map::{Interface, Interfaces};
use lists::held;
use output::{Echo, Output, Packet};
use peer_table::{Asked, MOST};
use time::HostTime;
use wire::{NodeId, SocketAddrPlain};

// A packet that goes out on every interface. An alive says the interface's own address.
// An enum and no closure: the definition `spread_output` says of each kind what it puts out.
#[derive(Clone, Copy)]
enum Spread {
    Alive(OwnState),
    ByeBye(NodeId),
    Ping {
        to: SocketAddrPlain,
        host_time: HostTime,
    },
}

impl Spread {
    #[tactic(auto, unfolding(output::specs::Inner::Outputs::output_of, output::specs::Inner::Outputs::packet_bytes, crate::specs::Inner::Values::spread_output, interface_map::specs::Held::interface))]
    fn output(self, x: Interface) -> Output
        ensures { output_of [] result ≡ spread_output self (interface x) }
    {
        let iface_id = x.id.0;
        let addr = x.addr;
        match self {
            Spread::Alive(own) => Output::Send {
                iface_id,
                to: SocketAddrPlain::MULTICAST,
                packet: alive(own, Some(addr), false),
            },
            Spread::ByeBye(node) => Output::Send {
                iface_id,
                to: SocketAddrPlain::MULTICAST,
                packet: Packet::ByeBye(node),
            },
            Spread::Ping { to, host_time } => Output::Send {
                iface_id,
                to,
                packet: Packet::Ping {
                    host_time,
                    prev_ghost_time: None,
                },
            },
        }
    }
}

// No pong is spread, so nothing is echoed.
fn write_everywhere(buf: &mut [u8], start: Cursor, interfaces: Interfaces, spread: Spread) -> Cursor
    requires { Room start (map (spread_output spread) (interfaces_of interfaces)) buf.old }
    ensures { Laid start (map (spread_output spread) (interfaces_of interfaces)) buf.old result buf.new }
{
    let echo = Echo::empty();
    let mut c = start;
    for x in interfaces.list() {
        c = c.write_output(buf, spread.output(*x), &echo);
    }
    c
}

pub(crate) fn write_multicast(
    buf: &mut [u8],
    c: Cursor,
    interfaces: Interfaces,
    multicast: Option<Multicast>,
) -> Cursor
    requires { Room c (multicast_outputs (interfaces_of interfaces) multicast) buf.old }
    ensures { Laid c (multicast_outputs (interfaces_of interfaces) multicast) buf.old result buf.new }
{
    let Some(packet) = multicast else {
        return c;
    };
    match packet {
        Multicast::Alive(own) => write_everywhere(buf, c, interfaces, Spread::Alive(own)),
        Multicast::ByeBye(node) => write_everywhere(buf, c, interfaces, Spread::ByeBye(node)),
    }
}

// To each of the first `count` addresses.
pub(crate) fn write_pings(
    buf: &mut [u8],
    start: Cursor,
    interfaces: Interfaces,
    host_time: HostTime,
    asked: &Asked,
    count: usize,
) -> Cursor
    requires { Room start (ping_outputs host_time (interfaces_of interfaces) (addrs_of count asked.now)) buf.old }
    ensures { Laid start (ping_outputs host_time (interfaces_of interfaces) (addrs_of count asked.now)) buf.old result buf.new }
{
    let n = held(count, MOST);
    let mut c = start;
    for to in &asked[..n] {
        let ping = Spread::Ping { to: *to, host_time };
        c = write_everywhere(buf, c, interfaces, ping);
    }
    c
}
