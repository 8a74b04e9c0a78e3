// wire.rs: the packets' types, and the numbers that their bytes are made of. wire_reader reads packets, wire_writer writes them.
// Types and constants go in here, and in specs/ the whole format with its theorems; no function here reads or writes bytes.
#![tactic(auto)]

ghost use Rattle.std.specs.Prelude.{◌≡◌};
ghost use Rattle.wire.specs.Parse.{number_of};
ghost use Rattle.wire.specs.Same.{same_addr, is_node};

use time::HostTime;
use timeline::{StartStopState, Timeline};

// `_asdp_v` and `_link_v`, each with byte 1.
pub const ASDP_MAGIC: u64 = 0x5f61_7364_705f_7601;

pub const LINK_MAGIC: u64 = 0x5f6c_696e_6b5f_7601;

// The kinds of discovery packets, and of measurement packets. Bytes of the format, as keys and sizes are: the reader matches what stands in a packet.
pub const ALIVE: u8 = 1;

pub const RESPONSE: u8 = 2;

pub const BYEBYE: u8 = 3;

pub const PING: u8 = 1;

pub const PONG: u8 = 2;

// The keys of entries: tmln, sess, stst, mep4, __ht, __gt, _pgt.
pub const TMLN: u32 = 0x746d_6c6e;

pub const SESS: u32 = 0x7365_7373;

pub const STST: u32 = 0x7374_7374;

pub const MEP4: u32 = 0x6d65_7034;

pub const HT: u32 = 0x5f5f_6874;

pub const GT: u32 = 0x5f5f_6774;

pub const PGT: u32 = 0x5f70_6774;

// The sizes of the values under these keys; the last is that of the last three.
pub const TMLN_SIZE: u32 = 24;

pub const SESS_SIZE: u32 = 8;

pub const STST_SIZE: u32 = 17;

pub const MEP4_SIZE: u32 = 6;

pub const TIME_SIZE: u32 = 8;

// The eight bytes of an id, as a big-endian number.
#[derive(Clone, Copy, PartialEq, Eq)]
pub struct NodeId(pub u64);

// An address as a big-endian number, and a port.
#[derive(Clone, Copy, PartialEq, Eq)]
pub struct SocketAddrPlain {
    pub ip: u32,
    pub port: u16,
}

impl SocketAddrPlain {
    // 224.76.78.75, port 20808, where alives and byes go.
    pub const MULTICAST: SocketAddrPlain = SocketAddrPlain {
        ip: 0xe04c_4e4b,
        port: 20808,
    };

    pub fn is_multicast(self) -> bool
        ensures { result ≡ same_addr self SocketAddrPlain.MULTICAST }
    {
        self == SocketAddrPlain::MULTICAST
    }
}

// Whether a session is held and is this one.
pub fn is_node(held: Option<NodeId>, node: NodeId) -> bool
    ensures { result ≡ is_node node held }
{
    held == Some(node)
}

#[derive(Clone, Copy, PartialEq, Eq)]
pub enum DiscoveryMsg {
    Alive {
        node_id: NodeId,
        timeline: Option<Timeline>,
        start_stop: Option<StartStopState>,
        session_id: Option<NodeId>,
        mep4: Option<SocketAddrPlain>,
    },
    ByeBye {
        node_id: NodeId,
    },
}

#[derive(Clone, Copy, PartialEq, Eq)]
pub enum MeasurementMsg {
    Ping {
        host_time: HostTime,
        prev_ghost_time: Option<HostTime>,
    },
    Pong {
        session_id: Option<NodeId>,
        ghost_time: HostTime,
        ping_host_time: HostTime,
        ping_prev_ghost_time: Option<HostTime>,
    },
}

#[derive(Clone, Copy, PartialEq, Eq)]
pub enum Message {
    Discovery(DiscoveryMsg),
    Measurement(MeasurementMsg),
}

// The number of what the reader finds: 0 of a message, 4 of none.
pub fn number(read: Option<Message>) -> u8
    ensures { result ≡ number_of read }
{
    match read {
        Some(_) => 0,
        None => 4,
    }
}
