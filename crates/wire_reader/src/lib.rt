// The reader of wire.rs: what a packet's bytes say.
// Reading alone goes in here; what a message does is of `messages`.
#![tactic(auto)]

mod scan;

ghost use Rattle.std.specs.Prelude.{◌≡◌, ◌+◌, ◌≤◌, length, drop, IfSome};
ghost use Rattle.wire.specs.Parse.{entries, timeline_of, start_stop_of, node_of, addr_of, time_of, alive_of, ping_of, pong_of, parse_discovery, parse_measurement, parse};
ghost use Rattle.wire_reader.specs.Inner.Scan.{value_at};

use scan::scan;
use time::{HostTime, MicroBeats, TempoWire};
use timeline::{StartStopState, Timeline};
use wire::{
    ALIVE, ASDP_MAGIC, BYEBYE, DiscoveryMsg, LINK_MAGIC, MeasurementMsg, Message, NodeId, PING,
    PONG, RESPONSE, SocketAddrPlain,
};

// Any length of bytes is taken.
#[tactic(auto, unfolding(wire::specs::Parse::parse))]
pub fn parse_message(bytes: &[u8]) -> Option<Message>
    ensures { result ≡ parse bytes.now }
{
    match big_endian::read::<u64>(bytes, 0) {
        ASDP_MAGIC => parse_discovery(bytes),
        LINK_MAGIC => parse_measurement(bytes),
        _ => None,
    }
}

#[tactic(auto, unfolding(wire::specs::Parse::parse_discovery))]
fn parse_discovery(bytes: &[u8]) -> Option<Message>
    ensures { result ≡ parse_discovery bytes.now }
{
    if bytes.len() < 20 {
        return None;
    }
    let node_id = NodeId(big_endian::read::<u64>(bytes, 12));
    match bytes[8] {
        BYEBYE => Some(Message::Discovery(DiscoveryMsg::ByeBye { node_id })),
        ALIVE | RESPONSE => Some(Message::Discovery(alive(bytes, node_id))),
        _ => None,
    }
}

fn alive(bytes: &[u8], node_id: NodeId) -> DiscoveryMsg
    requires { 20 ≤ length bytes.now }
    ensures { result ≡ alive_of node_id (entries (drop 20 bytes.now)) }
{
    let found = scan(bytes, 20);
    DiscoveryMsg::Alive {
        node_id,
        timeline: read_timeline(bytes, found.tmln),
        start_stop: read_start_stop(bytes, found.stst),
        session_id: read_node_id(bytes, found.sess),
        mep4: read_addr(bytes, found.mep4),
    }
}

#[tactic(auto, unfolding(wire::specs::Parse::parse_measurement, wire::specs::Parse::last_good))]
fn parse_measurement(bytes: &[u8]) -> Option<Message>
    ensures { result ≡ parse_measurement bytes.now }
{
    if bytes.len() < 9 {
        return None;
    }
    match bytes[8] {
        PING => {
            let found = scan(bytes, 9);
            ping(read_time(bytes, found.ht), read_time(bytes, found.pgt))
        }
        PONG => {
            let found = scan(bytes, 9);
            pong(
                read_node_id(bytes, found.sess),
                read_time(bytes, found.gt),
                read_time(bytes, found.ht),
                read_time(bytes, found.pgt),
            )
        }
        _ => None,
    }
}

// A ping needs its host time.
#[tactic(auto, unfolding(wire::specs::Parse::ping_of))]
fn ping(host_time: Option<HostTime>, prev_ghost_time: Option<HostTime>) -> Option<Message>
    ensures { result ≡ ping_of host_time prev_ghost_time }
{
    Some(Message::Measurement(MeasurementMsg::Ping {
        host_time: host_time?,
        prev_ghost_time,
    }))
}

// A pong needs the shared time and the ping's host time.
#[tactic(auto, unfolding(wire::specs::Parse::pong_of))]
fn pong(
    session_id: Option<NodeId>,
    ghost_time: Option<HostTime>,
    host_time: Option<HostTime>,
    ping_prev_ghost_time: Option<HostTime>,
) -> Option<Message>
    ensures { result ≡ pong_of session_id ghost_time host_time ping_prev_ghost_time }
{
    Some(Message::Measurement(MeasurementMsg::Pong {
        session_id,
        ghost_time: ghost_time?,
        ping_host_time: host_time?,
        ping_prev_ghost_time,
    }))
}

// The value of an entry at the place that the scan found.
#[tactic(auto, unfolding(wire::specs::Parse::timeline_of, crate::specs::Inner::Scan::value_at))]
fn read_timeline(bytes: &[u8], at: Option<usize>) -> Option<Timeline>
    requires { IfSome at (λ at. at + 24 ≤ length bytes.now) }
    ensures { result ≡ timeline_of (value_at bytes.now 24 at) }
{
    let at = at?;
    Some(Timeline {
        tempo: TempoWire(big_endian::read::<i64>(bytes, at)),
        beat_origin: MicroBeats(big_endian::read::<i64>(bytes, at + 8)),
        time_origin: HostTime(big_endian::read::<i64>(bytes, at + 16)),
    })
}

#[tactic(auto, unfolding(wire::specs::Parse::start_stop_of, crate::specs::Inner::Scan::value_at))]
fn read_start_stop(bytes: &[u8], at: Option<usize>) -> Option<StartStopState>
    requires { IfSome at (λ at. at + 17 ≤ length bytes.now) }
    ensures { result ≡ start_stop_of (value_at bytes.now 17 at) }
{
    let at = at?;
    Some(StartStopState {
        is_playing: bytes[at] != 0,
        beat: MicroBeats(big_endian::read::<i64>(bytes, at + 1)),
        time: HostTime(big_endian::read::<i64>(bytes, at + 9)),
    })
}

#[tactic(auto, unfolding(wire::specs::Parse::node_of, crate::specs::Inner::Scan::value_at))]
fn read_node_id(bytes: &[u8], at: Option<usize>) -> Option<NodeId>
    requires { IfSome at (λ at. at + 8 ≤ length bytes.now) }
    ensures { result ≡ node_of (value_at bytes.now 8 at) }
{
    Some(NodeId(big_endian::read::<u64>(bytes, at?)))
}

#[tactic(auto, unfolding(wire::specs::Parse::addr_of, crate::specs::Inner::Scan::value_at))]
fn read_addr(bytes: &[u8], at: Option<usize>) -> Option<SocketAddrPlain>
    requires { IfSome at (λ at. at + 6 ≤ length bytes.now) }
    ensures { result ≡ addr_of (value_at bytes.now 6 at) }
{
    let at = at?;
    Some(SocketAddrPlain {
        ip: big_endian::read::<u32>(bytes, at),
        port: big_endian::read::<u16>(bytes, at + 4),
    })
}

#[tactic(auto, unfolding(wire::specs::Parse::time_of, crate::specs::Inner::Scan::value_at))]
fn read_time(bytes: &[u8], at: Option<usize>) -> Option<HostTime>
    requires { IfSome at (λ at. at + 8 ≤ length bytes.now) }
    ensures { result ≡ time_of (value_at bytes.now 8 at) }
{
    Some(HostTime(big_endian::read::<i64>(bytes, at?)))
}
