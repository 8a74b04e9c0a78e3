// The answers of calls: an empty one, and one of outputs.
ghost use Rattle.std.specs.Prelude.{◌≡◌, drop};
ghost use Rattle.big_endian.specs.Bytes.{bytes, put};
ghost use Rattle.interface_map.specs.Held.{interfaces_of};
ghost use Rattle.peer_walks.specs.Inner.Asked.{addrs_of};
ghost use Rattle.answer.specs.Inner.Planned.{call_of};
ghost use Rattle.call.specs.Inner.Answered.{written_answer};

use answer::{CallPlan, write_answer};
use interface_map::Interfaces;
use peer_table::Asked;
use wire::SocketAddrPlain;

// A pong echoes what follows the ping's byte 8.
const ECHO: usize = 9;

// A list that nobody was written into.
pub const NOBODY: Asked = [SocketAddrPlain { ip: 0, port: 0 }; 16];

// An answer without outputs: no outputs, no bytes of contents.
pub fn write_empty(buf: &mut [u8])
    ensures { buf.new ≡ put 0 (bytes 4 0) buf.old }
{
    big_endian::write::<u32>(buf, 0, 0);
}

// What is echoed of a packet: nothing of one that is too short.
fn echo_of(packet: &[u8]) -> &[u8]
    ensures { result.now ≡ drop 9 packet.now }
{
    packet.get(ECHO..).unwrap_or(&[])
}

// Writes what a call puts out, of which a pong echoes a part of the packet.
pub fn write_call(o: CallPlan, interfaces: Interfaces, asked: &Asked, packet: &[u8], buf: &mut [u8])
    ensures { buf.new ≡ written_answer (drop 9 packet.now) (call_of o (addrs_of o.plan.asked asked.now) (interfaces_of interfaces) (drop 9 packet.now)) buf.old }
{
    write_answer(o, interfaces, asked, echo_of(packet), buf);
}
