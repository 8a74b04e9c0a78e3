// First bytes 20 to 24: the crates wire_reader and wire_writer. Each function reads a record's fields, puts the answer
// at the front of `out` and tells how many bytes it has.
ghost use Rattle.std.specs.Prelude.{◌≡◌, ◌≤◌, length};
ghost use Rattle.replay.specs.Sizes.{most_answer};

use crate::{fields, packet_fields, rooms};
use time::HostTime;
use timeline::{StartStopState, Timeline};
use wire::{DiscoveryMsg, MeasurementMsg, Message, NodeId, SocketAddrPlain};
use wire_writer::{Alive, DONE, WriteError};

// Where the optional address, the optional time and the echo of the writers' records stand.
pub(crate) const MEP4: usize = 2 + 8 + 8 + 24 + 17;

pub(crate) const PGT: usize = 2 + 8;

pub(crate) const ECHO: usize = 2 + 8 + 8;

// The most bytes that it answers. It is lent a part of this length, so that the compiler sees that each field fits.
const MOST_READ: usize = 69;

pub(crate) fn answer(first: u8, s: &[u8], out: &mut [u8]) -> usize
    requires { most_answer ≤ length out.old }
    ensures { result ≤ most_answer }
{
    match first {
        0x20 => read(s, &mut out[0..MOST_READ]),
        _ => write(first, s, out),
    }
}

// 20: the packet's message, or that it has none.
fn read(s: &[u8], out: &mut [u8]) -> usize
    ensures { result ≤ 69 }
{
    let read = wire_reader::parse_message(fields::counted(s, 0));
    let end = fields::put_u8(out, 0, wire::number(read));
    match read {
        Some(message) => put_message(out, message),
        None => end,
    }
}

// The message stands behind the reader's number.
fn put_message(out: &mut [u8], message: Message) -> usize
    ensures { result ≤ 69 }
{
    match message {
        Message::Discovery(message) => put_discovery(out, message),
        Message::Measurement(message) => put_measurement(out, message),
    }
}

fn put_discovery(out: &mut [u8], message: DiscoveryMsg) -> usize
    ensures { result ≤ 69 }
{
    match message {
        DiscoveryMsg::Alive {
            node_id,
            timeline,
            start_stop,
            session_id,
            mep4,
        } => put_alive(out, node_id, timeline, start_stop, session_id, mep4),
        DiscoveryMsg::ByeBye { node_id } => put_byebye(out, node_id),
    }
}

fn put_alive(
    out: &mut [u8],
    node_id: NodeId,
    timeline: Option<Timeline>,
    start_stop: Option<StartStopState>,
    session_id: Option<NodeId>,
    mep4: Option<SocketAddrPlain>,
) -> usize
    ensures { result ≤ 69 }
{
    let at = fields::put_u8(out, 1, 1);
    let at = packet_fields::put_node(out, at, node_id);
    let at = packet_fields::put_optional(out, at, timeline);
    let at = packet_fields::put_optional(out, at, start_stop);
    let at = packet_fields::put_optional(out, at, session_id);
    packet_fields::put_optional(out, at, mep4)
}

fn put_byebye(out: &mut [u8], node_id: NodeId) -> usize
    ensures { result ≡ 10 }
{
    let at = fields::put_u8(out, 1, 2);
    packet_fields::put_node(out, at, node_id)
}

fn put_measurement(out: &mut [u8], message: MeasurementMsg) -> usize
    ensures { result ≤ 69 }
{
    match message {
        MeasurementMsg::Ping {
            host_time,
            prev_ghost_time,
        } => put_ping(out, host_time, prev_ghost_time),
        MeasurementMsg::Pong {
            session_id,
            ghost_time,
            ping_host_time,
            ping_prev_ghost_time,
        } => put_pong(
            out,
            session_id,
            ghost_time,
            ping_host_time,
            ping_prev_ghost_time,
        ),
    }
}

fn put_ping(out: &mut [u8], host_time: HostTime, prev_ghost_time: Option<HostTime>) -> usize
    ensures { result ≤ 19 }
{
    let at = fields::put_u8(out, 1, 3);
    let at = fields::put_i64(out, at, host_time.0);
    packet_fields::put_optional(out, at, prev_ghost_time)
}

fn put_pong(
    out: &mut [u8],
    session_id: Option<NodeId>,
    ghost_time: HostTime,
    ping_host_time: HostTime,
    ping_prev_ghost_time: Option<HostTime>,
) -> usize
    ensures { result ≤ 36 }
{
    let at = fields::put_u8(out, 1, 4);
    let at = packet_fields::put_optional(out, at, session_id);
    let at = fields::put_i64(out, at, ghost_time.0);
    let at = fields::put_i64(out, at, ping_host_time.0);
    packet_fields::put_optional(out, at, ping_prev_ghost_time)
}

// 21 to 24: the room stands in the answer, behind the writer's number.
fn write(first: u8, s: &[u8], out: &mut [u8]) -> usize
    requires { most_answer ≤ length out.old }
    ensures { result ≤ most_answer }
{
    let end = 1 + rooms::room(s, 0);
    rooms::fill(&mut out[1..end]);
    let number = match serialize(first, s, &mut out[1..end]) {
        Ok(()) => DONE,
        Err(refusal) => refusal.number(),
    };
    big_endian::write::<u8>(out, 0, number);
    end
}

fn serialize(first: u8, s: &[u8], part: &mut [u8]) -> Result<(), WriteError> {
    match first {
        0x21 => serialize_alive(s, part),
        0x22 => wire_writer::serialize_discovery_byebye(part, packet_fields::node(s, 2)),
        0x23 => wire_writer::serialize_measurement_ping(
            part,
            fields::time(s, 2),
            packet_fields::optional(s, PGT),
        ),
        _ => wire_writer::serialize_measurement_pong(
            part,
            packet_fields::node(s, 2),
            fields::time(s, 10),
            fields::counted(s, ECHO),
        ),
    }
}

fn serialize_alive(s: &[u8], part: &mut [u8]) -> Result<(), WriteError> {
    let alive = Alive {
        node_id: packet_fields::node(s, 2),
        session_id: packet_fields::node(s, 10),
        timeline: fields::line(s, 18),
        start_stop: fields::start_stop(s, 42),
        mep4: packet_fields::optional(s, MEP4),
        is_response: fields::flag(s, fields::past_optional(s, MEP4, 6)),
    };
    wire_writer::serialize_discovery_alive(part, alive)
}
