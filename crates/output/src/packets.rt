// A packet behind its address, written straight into the part.
ghost use Rattle.std.specs.Prelude.{◌≡◌, ◌++◌, ◌+◌, ◌≤◌, length};
ghost use Rattle.big_endian.specs.Bytes.{bytes, put};
ghost use Rattle.big_endian.specs.Written.{written, as_written};
ghost use Rattle.wire.specs.Layout.{addr_bytes};
ghost use Rattle.wire_writer.specs.Answers.{number_of};
ghost use Rattle.model.specs.Engine.{send};
ghost use Rattle.model.specs.Answer.{content};
ghost use Rattle.output.specs.Inner.Outputs.{packet_bytes};

use super::{ADDRESS_SIZE, Echo, Packet};
use wire::SocketAddrPlain;
use wire_writer::WriteError;

impl Packet {
    #[tactic(auto, using(crate::specs::Laws::Sizes::packet_lengths), unfolding(crate::specs::Inner::Outputs::packet_bytes))]
    pub(crate) fn size(self, echo: &Echo<'_>) -> usize
        ensures value { result ≡ length (packet_bytes echo.now self) }
        ensures upper_bound { result ≤ 544 }
    {
        match self {
            Packet::Alive(alive) => wire_writer::alive_size(alive.mep4),
            Packet::ByeBye(_) => wire_writer::BYEBYE_SIZE,
            Packet::Ping {
                prev_ghost_time,
                ..
            } => wire_writer::ping_size(prev_ghost_time),
            Packet::Pong { .. } => wire_writer::PONG_SIZE + echo.bytes().len(),
        }
    }

    // At the front of the part, where it fits.
    #[tactic(auto, unfolding(crate::specs::Inner::Outputs::packet_bytes))]
    fn write(self, part: &mut [u8], echo: &Echo<'_>) -> Result<(), WriteError>
        ensures { as_written (number_of result) part.new ≡ written (packet_bytes echo.now self) part.old }
    {
        match self {
            Packet::Alive(alive) => wire_writer::serialize_discovery_alive(part, alive),
            Packet::ByeBye(node) => wire_writer::serialize_discovery_byebye(part, node),
            Packet::Ping {
                host_time,
                prev_ghost_time,
            } => wire_writer::serialize_measurement_ping(part, host_time, prev_ghost_time),
            Packet::Pong {
                session_id,
                ghost_time,
            } => wire_writer::serialize_measurement_pong(
                part,
                session_id,
                ghost_time,
                echo.bytes(),
            ),
        }
    }
}

// Where a packet goes: the interface, the address and the port.
fn write_address(part: &mut [u8], iface_id: u32, to: SocketAddrPlain)
    requires { 10 ≤ length part.old }
    ensures { part.new ≡ put 0 (bytes 4 iface_id ++ addr_bytes to) part.old }
{
    big_endian::write::<u32>(part, 0, iface_id);
    big_endian::write::<u32>(part, 4, to.ip);
    big_endian::write::<u16>(part, 8, to.port);
}

// In a part that is large enough, so that the packet is not refused.
pub(crate) fn write_send(
    part: &mut [u8],
    iface_id: u32,
    to: SocketAddrPlain,
    packet: Packet,
    echo: &Echo<'_>,
)
    requires { 10 + length (packet_bytes echo.now packet) ≤ length part.old }
    ensures { part.new ≡ put 0 (content (send iface_id to (packet_bytes echo.now packet))) part.old }
{
    write_address(part, iface_id, to);
    let _ = packet.write(&mut part[ADDRESS_SIZE..], echo);
}
