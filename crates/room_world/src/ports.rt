// The boxes' ids and ports, and which ports a packet is for.
ghost use Rattle.std.specs.Prelude.{◌≡◌};
ghost use Rattle.room_world.specs.Ports.{first_id, port_of, is_multicast, has_address, is_addressed, has_port, is_for, name_of};

use super::World;
use room_network::Head;
use wire::{NodeId, SocketAddrPlain};

// How many ids a box has of its own: its engine takes the next one each time it is switched off.
const IDS: u64 = 256;

const FIRST_PORT: u16 = 20808;

// 10.0.0.0
const NETWORK: u32 = 0x0a00_0000;

// The first of a box's ids.
pub fn node_id(number: usize) -> NodeId
    ensures { result ≡ first_id number }
{
    let i = number % 16;
    NodeId((i as u64 + 1) * IDS)
}

// The address of a port: 10.0.j.(i + 1), port 20808 + i, of interface j of box i.
pub fn port_addr(number: usize, interface: u32) -> SocketAddrPlain
    ensures { result ≡ port_of number interface }
{
    let i = number % 16;
    SocketAddrPlain {
        ip: NETWORK + interface % 0x100 * 0x100 + i as u32 + 1,
        port: FIRST_PORT + i as u16,
    }
}

fn is_multicast(head: Head) -> bool
    ensures { result ≡ is_multicast head }
{
    head.ip == SocketAddrPlain::MULTICAST.ip && head.port == SocketAddrPlain::MULTICAST.port
}

fn has_address(number: usize, interface: u32, head: Head) -> bool
    ensures { result ≡ has_address number interface head }
{
    let addr = port_addr(number, interface);
    head.ip == addr.ip && head.port == addr.port
}

fn is_addressed(number: usize, interface: u32, head: Head) -> bool
    ensures { result ≡ is_addressed number interface head }
{
    if is_multicast(head) {
        number != head.sender
    } else {
        has_address(number, interface, head)
    }
}

impl World {
    fn has_port(self, number: usize, interface: u32) -> bool
        ensures { result ≡ has_port self number interface }
    {
        number < self.count && 1 <= interface && interface as u64 <= self.box_of(number).ports
    }

    // Whether the box has this port, its cables are in, and the packet is for it.
    pub fn receives(self, number: usize, interface: u32, head: Head) -> bool
        ensures { result ≡ is_for self number interface head }
    {
        self.has_port(number, interface)
            && !self.is_silent(number)
            && is_addressed(number, interface, head)
    }

    // The name of the box that has this id among its own, and of none a question mark.
    pub fn session_name(self, session: u64) -> u8
        ensures { result ≡ name_of self session }
    {
        let nth = session / IDS;
        if nth == 0 || nth > self.count as u64 {
            b'?'
        } else {
            self.box_of((nth - 1) as usize).name
        }
    }
}
