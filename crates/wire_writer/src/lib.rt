// The writers of wire.rs. Each is lent a part and fills only its packet, or refuses and leaves the part as it was.
// Writing alone goes in here; when a packet is sent, and where it stands in an answer, is of `output` and `answer`.
#![tactic(auto)]

ghost use Rattle.std.specs.Prelude.{cond, ◌++◌, ◌≡◌, ◌+◌, ◌≤◌, length};
ghost use Rattle.big_endian.specs.Bytes.{bytes, put};
ghost use Rattle.wire.specs.Layout.{discovery_kinds, keys, int_bytes, entry, timeline_bytes, start_stop_bytes, mep4_entry, pgt_entry, discovery_head, alive_bytes, byebye_bytes, measurement_head, ping_bytes, pong_bytes};
ghost use Rattle.big_endian.specs.Written.{written, as_written};
ghost use Rattle.wire.specs.Written.{written_echo};
ghost use Rattle.wire_writer.specs.Answers.{refusal, number_of};

use time::HostTime;
use timeline::{StartStopState, Timeline};
use wire::{
    ALIVE, ASDP_MAGIC, BYEBYE, GT, HT, LINK_MAGIC, MEP4, MEP4_SIZE, NodeId, PGT, PING, PONG,
    RESPONSE, SESS, SESS_SIZE, STST, STST_SIZE, SocketAddrPlain, TIME_SIZE, TMLN, TMLN_SIZE,
};

// The time to live of a discovery packet.
const TTL: u8 = 5;

// The packets' sizes, that of a pong without its echo, and the largest echo.
pub const ALIVE_SIZE: usize = 93;

pub const ALIVE_SIZE_WITH_MEP4: usize = 107;

pub const BYEBYE_SIZE: usize = 20;

pub const PING_SIZE: usize = 25;

pub const PING_SIZE_WITH_PGT: usize = 41;

pub const PONG_SIZE: usize = 41;

pub const MAX_ECHO: usize = 503;

// The number of a packet that was written. A refusal has its own.
pub const DONE: u8 = 0;

// What an alive says, or a response.
#[derive(Clone, Copy, PartialEq, Eq)]
pub struct Alive {
    pub node_id: NodeId,
    pub session_id: NodeId,
    pub timeline: Timeline,
    pub start_stop: StartStopState,
    pub mep4: Option<SocketAddrPlain>,
    pub is_response: bool,
}

// Why nothing was written.
#[derive(Clone, Copy, PartialEq, Eq, Debug)]
pub enum WriteError {
    EchoTooLong,
    PartTooSmall,
}

impl WriteError {
    // The number by which a refusal is known outside.
    pub fn number(self) -> u8
        ensures { result ≡ refusal self }
    {
        match self {
            WriteError::EchoTooLong => 3,
            WriteError::PartTooSmall => 7,
        }
    }
}

pub fn serialize_discovery_alive(part: &mut [u8], alive: Alive) -> Result<(), WriteError>
    ensures { as_written (number_of result) part.new ≡ written (alive_bytes alive.node_id alive.session_id alive.timeline alive.start_stop alive.mep4 alive.is_response) part.old }
{
    if part.len() < alive_size(alive.mep4) {
        return Err(WriteError::PartTooSmall);
    }
    write_discovery_head(part, alive_kind(alive.is_response), TTL, alive.node_id);
    write_timeline(part, 20, alive.timeline);
    write_session(part, 52, alive.session_id);
    write_start_stop(part, 68, alive.start_stop);
    write_mep4(part, 93, alive.mep4);
    Ok(())
}

pub fn serialize_discovery_byebye(part: &mut [u8], node_id: NodeId) -> Result<(), WriteError>
    ensures { as_written (number_of result) part.new ≡ written (byebye_bytes node_id) part.old }
{
    if part.len() < BYEBYE_SIZE {
        return Err(WriteError::PartTooSmall);
    }
    write_discovery_head(part, BYEBYE, 0, node_id);
    Ok(())
}

pub fn serialize_measurement_ping(
    part: &mut [u8],
    host_time: HostTime,
    prev_ghost_time: Option<HostTime>,
) -> Result<(), WriteError>
    ensures { as_written (number_of result) part.new ≡ written (ping_bytes host_time prev_ghost_time) part.old }
{
    if part.len() < ping_size(prev_ghost_time) {
        return Err(WriteError::PartTooSmall);
    }
    write_measurement_head(part, PING);
    write_time(part, 9, HT, host_time);
    write_pgt(part, 25, prev_ghost_time);
    Ok(())
}

pub fn serialize_measurement_pong(
    part: &mut [u8],
    session_id: NodeId,
    ghost_time: HostTime,
    ping_payload: &[u8],
) -> Result<(), WriteError>
    ensures { as_written (number_of result) part.new ≡ written_echo (pong_bytes session_id ghost_time) ping_payload.now part.old }
{
    if MAX_ECHO < ping_payload.len() {
        return Err(WriteError::EchoTooLong);
    }
    if part.len() < PONG_SIZE + ping_payload.len() {
        return Err(WriteError::PartTooSmall);
    }
    write_measurement_head(part, PONG);
    write_session(part, 9, session_id);
    write_time(part, 25, GT, ghost_time);
    big_endian::write_bytes(part, 41, ping_payload);
    Ok(())
}

fn alive_kind(is_response: bool) -> u8
    ensures { result ≡ cond is_response discovery_kinds.response discovery_kinds.alive }
{
    if is_response { RESPONSE } else { ALIVE }
}

#[tactic(auto, using(crate::proofs::Writing::mep4_length))]
pub fn alive_size(mep4: Option<SocketAddrPlain>) -> usize
    ensures { result ≡ 93 + length (mep4_entry mep4) }
{
    if mep4.is_some() {
        ALIVE_SIZE_WITH_MEP4
    } else {
        ALIVE_SIZE
    }
}

#[tactic(auto, using(crate::proofs::Writing::pgt_length))]
pub fn ping_size(prev_ghost_time: Option<HostTime>) -> usize
    ensures { result ≡ 25 + length (pgt_entry prev_ghost_time) }
{
    if prev_ghost_time.is_some() {
        PING_SIZE_WITH_PGT
    } else {
        PING_SIZE
    }
}

fn write_discovery_head(part: &mut [u8], kind: u8, ttl: u8, node_id: NodeId)
    requires { 20 ≤ length part.old }
    ensures { part.new ≡ put 0 (discovery_head kind ttl node_id) part.old }
{
    big_endian::write::<u64>(part, 0, ASDP_MAGIC);
    big_endian::write::<u8>(part, 8, kind);
    big_endian::write::<u8>(part, 9, ttl);
    big_endian::write::<u16>(part, 10, 0);
    big_endian::write::<u64>(part, 12, node_id.0);
}

fn write_measurement_head(part: &mut [u8], kind: u8)
    requires { 9 ≤ length part.old }
    ensures { part.new ≡ put 0 (measurement_head kind) part.old }
{
    big_endian::write::<u64>(part, 0, LINK_MAGIC);
    big_endian::write::<u8>(part, 8, kind);
}

// The key and the size of an entry.
fn write_entry_head(part: &mut [u8], at: usize, key: u32, size: u32)
    requires { at + 8 ≤ length part.old }
    ensures { part.new ≡ put at (bytes 4 key ++ bytes 4 size) part.old }
{
    big_endian::write::<u32>(part, at, key);
    big_endian::write::<u32>(part, at + 4, size);
}

fn write_timeline(part: &mut [u8], at: usize, timeline: Timeline)
    requires { at + 32 ≤ length part.old }
    ensures { part.new ≡ put at (entry keys.tmln (timeline_bytes timeline)) part.old }
{
    write_entry_head(part, at, TMLN, TMLN_SIZE);
    big_endian::write::<i64>(part, at + 8, timeline.tempo.0);
    big_endian::write::<i64>(part, at + 16, timeline.beat_origin.0);
    big_endian::write::<i64>(part, at + 24, timeline.time_origin.0);
}

fn write_session(part: &mut [u8], at: usize, session_id: NodeId)
    requires { at + 16 ≤ length part.old }
    ensures { part.new ≡ put at (entry keys.sess (bytes 8 session_id.0)) part.old }
{
    write_entry_head(part, at, SESS, SESS_SIZE);
    big_endian::write::<u64>(part, at + 8, session_id.0);
}

fn write_start_stop(part: &mut [u8], at: usize, start_stop: StartStopState)
    requires { at + 25 ≤ length part.old }
    ensures { part.new ≡ put at (entry keys.stst (start_stop_bytes start_stop)) part.old }
{
    write_entry_head(part, at, STST, STST_SIZE);
    big_endian::write::<u8>(part, at + 8, playing_byte(start_stop.is_playing));
    big_endian::write::<i64>(part, at + 9, start_stop.beat.0);
    big_endian::write::<i64>(part, at + 17, start_stop.time.0);
}

pub fn playing_byte(is_playing: bool) -> u8
    ensures { result ≡ cond is_playing 1 0 }
{
    u8::from(is_playing)
}

#[tactic(auto, using(big_endian::specs::Laws::Puts::put_empty), unfolding(wire::specs::Layout::mep4_entry))]
fn write_mep4(part: &mut [u8], at: usize, mep4: Option<SocketAddrPlain>)
    requires { at + length (mep4_entry mep4) ≤ length part.old }
    ensures { part.new ≡ put at (mep4_entry mep4) part.old }
{
    if let Some(addr) = mep4 {
        write_entry_head(part, at, MEP4, MEP4_SIZE);
        big_endian::write::<u32>(part, at + 8, addr.ip);
        big_endian::write::<u16>(part, at + 12, addr.port);
    }
}

// A time, under the key that says which.
fn write_time(part: &mut [u8], at: usize, key: u32, time: HostTime)
    requires { at + 16 ≤ length part.old }
    ensures { part.new ≡ put at (entry key (int_bytes time.0)) part.old }
{
    write_entry_head(part, at, key, TIME_SIZE);
    big_endian::write::<i64>(part, at + 8, time.0);
}

#[tactic(auto, using(big_endian::specs::Laws::Puts::put_empty), unfolding(wire::specs::Layout::pgt_entry, wire::specs::Layout::entry, big_endian::specs::Bytes::bytes))]
fn write_pgt(part: &mut [u8], at: usize, prev_ghost_time: Option<HostTime>)
    requires { at + length (pgt_entry prev_ghost_time) ≤ length part.old }
    ensures { part.new ≡ put at (pgt_entry prev_ghost_time) part.old }
{
    if let Some(time) = prev_ghost_time {
        write_time(part, at, PGT, time);
    }
}
