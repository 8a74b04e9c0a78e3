// The line that `showpacket` prints of the bytes of a packet. Each part is put behind the one before it.
// The words of that line go in here; how a packet is read is of `wire_reader`.
// The bytes and the place go on beside each other, as in `text`: so one fact, `Part`, is a part's whole contract.
#![tactic(auto)]

ghost use Rattle.std.specs.Prelude.{cond, ◌≡◌, ◌≤◌, length};
ghost use Rattle.big_endian.specs.Bytes.{put};
ghost use Rattle.text.specs.Ascii.{ascii};
ghost use Rattle.text.specs.Part.{Part};
ghost use Rattle.packet_line.specs.Line.{id_text, absent, timeline_text, start_stop_text, session_text, dotted, address_text, time_text, message_text, read_text, packet_text, line_of};

use time::HostTime;
use timeline::{StartStopState, Timeline};
use wire::{DiscoveryMsg, MeasurementMsg, Message, NodeId, SocketAddrPlain};

// The most bytes that a packet has.
const MAX_PACKET: usize = 512;

// The line of `packet`, at the front of `out` where it fits; otherwise `out` is left as it was. The result is its length.
pub fn put_line(out: &mut [u8], packet: &[u8]) -> usize
    ensures out_after { out.new ≡ put 0 (line_of packet.now) out.old }
    ensures value { result ≡ length (line_of packet.now) }
    ensures upper_bound { result ≤ 185 }
{
    let mut line = [0u8; 185];
    let at = put_packet(&mut line, packet);
    let end = text::put_bytes(&mut line, at, b"\n");
    text::put_bytes(out, 0, &line[..end]);
    end
}

#[tactic(auto, unfolding(crate::specs::Line::packet_text))]
fn put_packet(s: &mut [u8], packet: &[u8]) -> usize
    ensures { Part 0 (packet_text packet.now) 184 s.old result s.new }
{
    if packet.len() <= MAX_PACKET {
        put_read(s, wire_reader::parse_message(packet))
    } else {
        text::put_bytes(s, 0, b"refused 3")
    }
}

#[tactic(auto, unfolding(crate::specs::Line::read_text))]
fn put_read(s: &mut [u8], read: Option<Message>) -> usize
    ensures { Part 0 (read_text read) 184 s.old result s.new }
{
    match read {
        Some(message) => put_message(s, message),
        None => text::put_bytes(s, 0, b"refused 4"),
    }
}

fn put_message(s: &mut [u8], message: Message) -> usize
    ensures { Part 0 (message_text message) 184 s.old result s.new }
{
    match message {
        Message::Discovery(discovery) => put_discovery(s, discovery),
        Message::Measurement(measurement) => put_measurement(s, measurement),
    }
}

fn put_discovery(s: &mut [u8], message: DiscoveryMsg) -> usize
    ensures { Part 0 (message_text (Message.Discovery message)) 184 s.old result s.new }
{
    match message {
        DiscoveryMsg::Alive {
            node_id,
            timeline,
            start_stop,
            session_id,
            mep4,
        } => put_alive(s, node_id, timeline, start_stop, session_id, mep4),
        DiscoveryMsg::ByeBye { node_id } => {
            let at = text::put_bytes(s, 0, b"byebye ");
            put_id(s, at, node_id)
        }
    }
}

fn put_measurement(s: &mut [u8], message: MeasurementMsg) -> usize
    ensures { Part 0 (message_text (Message.Measurement message)) 184 s.old result s.new }
{
    match message {
        MeasurementMsg::Ping {
            host_time,
            prev_ghost_time,
        } => put_ping(s, host_time, prev_ghost_time),
        MeasurementMsg::Pong {
            session_id,
            ghost_time,
            ping_host_time,
            ping_prev_ghost_time,
        } => put_pong(
            s,
            session_id,
            ghost_time,
            ping_host_time,
            ping_prev_ghost_time,
        ),
    }
}

fn put_alive(
    s: &mut [u8],
    node_id: NodeId,
    timeline: Option<Timeline>,
    start_stop: Option<StartStopState>,
    session_id: Option<NodeId>,
    mep4: Option<SocketAddrPlain>,
) -> usize
    ensures { Part 0 (message_text (Message.Discovery (DiscoveryMsg.Alive node_id timeline start_stop session_id mep4))) 184 s.old result s.new }
{
    let at = text::put_bytes(s, 0, b"alive ");
    let at = put_id(s, at, node_id);
    let at = text::put_bytes(s, at, b" tl=");
    let at = put_timeline(s, at, timeline);
    let at = text::put_bytes(s, at, b" ss=");
    let at = put_start_stop(s, at, start_stop);
    let at = text::put_bytes(s, at, b" sess=");
    let at = put_session(s, at, session_id);
    let at = text::put_bytes(s, at, b" mep4=");
    put_address(s, at, mep4)
}

fn put_ping(s: &mut [u8], host_time: HostTime, prev_ghost_time: Option<HostTime>) -> usize
    ensures { Part 0 (message_text (Message.Measurement (MeasurementMsg.Ping host_time prev_ghost_time))) 53 s.old result s.new }
{
    let at = text::put_bytes(s, 0, b"ping ht=");
    let at = text::put_integer(s, at, host_time.0);
    let at = text::put_bytes(s, at, b" pgt=");
    put_time(s, at, prev_ghost_time)
}

fn put_pong(
    s: &mut [u8],
    session_id: Option<NodeId>,
    ghost_time: HostTime,
    ping_host_time: HostTime,
    ping_prev_ghost_time: Option<HostTime>,
) -> usize
    ensures { Part 0 (message_text (Message.Measurement (MeasurementMsg.Pong session_id ghost_time ping_host_time ping_prev_ghost_time))) 99 s.old result s.new }
{
    let at = text::put_bytes(s, 0, b"pong sess=");
    let at = put_session(s, at, session_id);
    let at = text::put_bytes(s, at, b" gt=");
    let at = text::put_integer(s, at, ghost_time.0);
    let at = text::put_bytes(s, at, b" ht=");
    let at = text::put_integer(s, at, ping_host_time.0);
    let at = text::put_bytes(s, at, b" pgt=");
    put_time(s, at, ping_prev_ghost_time)
}

fn put_timeline(s: &mut [u8], at: usize, timeline: Option<Timeline>) -> usize
    ensures { Part at (timeline_text timeline) 62 s.old result s.new }
{
    match timeline {
        Some(line) => {
            let at = text::put_integer(s, at, line.tempo.0);
            let at = text::put_bytes(s, at, b",");
            let at = text::put_integer(s, at, line.beat_origin.0);
            let at = text::put_bytes(s, at, b",");
            text::put_integer(s, at, line.time_origin.0)
        }
        None => put_absent(s, at),
    }
}

fn put_start_stop(s: &mut [u8], at: usize, start_stop: Option<StartStopState>) -> usize
    ensures { Part at (start_stop_text start_stop) 43 s.old result s.new }
{
    match start_stop {
        Some(state) => {
            let at = put_playing(s, at, state.is_playing);
            let at = text::put_bytes(s, at, b",");
            let at = text::put_integer(s, at, state.beat.0);
            let at = text::put_bytes(s, at, b",");
            text::put_integer(s, at, state.time.0)
        }
        None => put_absent(s, at),
    }
}

fn put_playing(s: &mut [u8], at: usize, is_playing: bool) -> usize
    ensures { Part at (cond is_playing (ascii "1") (ascii "0")) 1 s.old result s.new }
{
    if is_playing {
        text::put_bytes(s, at, b"1")
    } else {
        text::put_bytes(s, at, b"0")
    }
}

#[tactic(auto, unfolding(crate::specs::Line::session_text))]
fn put_session(s: &mut [u8], at: usize, session_id: Option<NodeId>) -> usize
    ensures { Part at (session_text session_id) 16 s.old result s.new }
{
    match session_id {
        Some(node_id) => put_id(s, at, node_id),
        None => put_absent(s, at),
    }
}

fn put_address(s: &mut [u8], at: usize, mep4: Option<SocketAddrPlain>) -> usize
    ensures { Part at (address_text mep4) 21 s.old result s.new }
{
    match mep4 {
        Some(address) => {
            let at = put_dotted(s, at, address.ip as u64);
            let at = text::put_bytes(s, at, b":");
            text::put_decimal(s, at, address.port as u64)
        }
        None => put_absent(s, at),
    }
}

fn put_dotted(s: &mut [u8], at: usize, ip: u64) -> usize
    ensures { Part at (dotted ip) 15 s.old result s.new }
{
    let at = text::put_decimal(s, at, ip / 0x100_0000 % 0x100);
    let at = text::put_bytes(s, at, b".");
    let at = text::put_decimal(s, at, ip / 0x1_0000 % 0x100);
    let at = text::put_bytes(s, at, b".");
    let at = text::put_decimal(s, at, ip / 0x100 % 0x100);
    let at = text::put_bytes(s, at, b".");
    text::put_decimal(s, at, ip % 0x100)
}

#[tactic(auto, unfolding(crate::specs::Line::time_text))]
fn put_time(s: &mut [u8], at: usize, time: Option<HostTime>) -> usize
    ensures { Part at (time_text time) 20 s.old result s.new }
{
    match time {
        Some(time) => text::put_integer(s, at, time.0),
        None => put_absent(s, at),
    }
}

fn put_id(s: &mut [u8], at: usize, node_id: NodeId) -> usize
    ensures { Part at (id_text node_id) 16 s.old result s.new }
{
    text::put_hexadecimal(s, at, node_id.0, 16)
}

fn put_absent(s: &mut [u8], at: usize) -> usize
    ensures { Part at absent 1 s.old result s.new }
{
    text::put_bytes(s, at, b"-")
}
