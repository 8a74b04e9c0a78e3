// What each kind of message does with the neighbours that two lent tables hold (the match of handle_packet in engine.rs).
// Messages that were read go in here; bytes are of `wire_reader`, and what follows a message is of `call_packet`.
#![tactic(auto)]

mod discovery;
mod measurement;

ghost use Rattle.std.specs.Prelude.{◌≡◌};
ghost use Rattle.messages.specs.Inner.Heard.{number_of, Hears};

use answer::Reply;
use discovery::handle_discovery;
use engine_state::OwnState;
use interface_map::{InterfaceId, Interfaces};
use measurement::handle_measurement;
use peer_table::{Numbers, Words};
use time::HostTime;
use wire::{Message, SocketAddrPlain};

// The numbers under which a message is turned down.
pub const PEERS_FULL: u8 = 5;

pub const PONG_DOUBLED: u8 = 11;

// Why a message is turned down: an alive from a node that is not held, with 16 held; a pong of a neighbour that is measured, in its session, with the ping time
// of one that was counted.
#[derive(Clone, Copy, PartialEq, Eq)]
pub enum Refusal {
    PeersFull,
    PongDoubled,
}

impl Refusal {
    pub fn number(self) -> u8
        ensures { result ≡ number_of self }
    {
        match self {
            Refusal::PeersFull => PEERS_FULL,
            Refusal::PongDoubled => PONG_DOUBLED,
        }
    }
}

// Where a packet came in, from whom and when.
#[derive(Clone, Copy)]
pub struct Arrival {
    pub iface: InterfaceId,
    pub from: SocketAddrPlain,
    pub now: HostTime,
}

// What a message that was taken did: how many neighbours there are then; the packet that answers it; whether an election follows.
#[derive(Clone, Copy)]
pub struct Heard {
    pub count: usize,
    pub reply: Option<Reply>,
    pub needs_resolution: bool,
}

// A message that is turned down leaves the tables as they were. No message is taken, and does nothing.
// Two tables, since the host lends them one by one and what is called takes one or both: a struct of them would be taken apart at each call. What is only
// read comes part by part: a ping reads `own`, a pong neither it nor `interfaces`, and a bye not even the arrival.
#[tactic(auto, unfolding(crate::specs::Inner::Heard::heard, model::specs::Calls::refusal_by, model::specs::Packet::handle_message, model::specs::Packet::unchanged, model::specs::Engine::with_peers, answer::specs::Inner::Planned::reply_outputs, crate::specs::Inner::Heard::box_of))]
pub fn handle_message(
    own: OwnState,
    interfaces: Interfaces,
    words: &mut Words,
    numbers: &mut Numbers,
    count: usize,
    arrival: Arrival,
    m: Option<Message>,
) -> Result<Heard, Refusal>
    ensures { Hears result own interfaces count words.old words.new numbers.old numbers.new arrival m }
{
    match m {
        Some(Message::Discovery(m)) => {
            handle_discovery(own, interfaces, words, numbers, count, arrival, m)
        }
        Some(Message::Measurement(m)) => {
            handle_measurement(own, words, numbers, count, arrival, m)
        }
        None => Ok(Heard {
            count,
            reply: None,
            needs_resolution: false,
        }),
    }
}
