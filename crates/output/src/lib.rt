// One output of the engine: its kind and its size, and its content, written into a part that is lent. A writer fills only that, or refuses and leaves the
// part as it was.
// One output goes in here; in which order they come, and where they stand, is of `answer`.
#![tactic(auto)]

mod echo;
mod packets;
mod reports;

ghost use Rattle.std.specs.Prelude.{◌≡◌, cond, List, ℕ, ◌≤◌, leb, length};
ghost use Rattle.big_endian.specs.Bytes.{put};
ghost use Rattle.big_endian.specs.Written.{as_written};
ghost use Rattle.wire.specs.Written.{written_echo};
ghost use Rattle.wire_writer.specs.Answers.{number_of};
ghost use Rattle.model.specs.Answer.{kind, content};
ghost use Rattle.output.specs.Inner.Outputs.{output_of};

pub use echo::Echo;
use time::HostTime;
use timeline::SessionState;
use wire::{NodeId, SocketAddrPlain};
use wire_writer::{Alive, WriteError};

// The kinds, as the answer buffer's bytes. `Output` is the enum of them; a second one would only be turned into these.
const SEND: u8 = 1;

const STATE_CHANGED: u8 = 2;

const NUM_PEERS_CHANGED: u8 = 3;

const SET_TIMER: u8 = 4;

// The interface, the address and the port in front of a packet.
pub const ADDRESS_SIZE: usize = 10;

// The sizes of the contents that are no packets.
const STATE_SIZE: usize = 41;

const COUNT_SIZE: usize = 4;

const TIMER_SIZE: usize = 8;

// A packet that is sent. A pong's echo is lent beside it.
#[derive(Clone, Copy)]
pub enum Packet {
    Alive(Alive),
    ByeBye(NodeId),
    Ping {
        host_time: HostTime,
        prev_ghost_time: Option<HostTime>,
    },
    Pong {
        session_id: NodeId,
        ghost_time: HostTime,
    },
}

#[derive(Clone, Copy)]
pub enum Output {
    Send {
        iface_id: u32,
        to: SocketAddrPlain,
        packet: Packet,
    },
    StateChanged(SessionState),
    NumPeersChanged(u32),
    SetTimer(HostTime),
}

impl Output {
    #[tactic(auto, unfolding(crate::specs::Inner::Outputs::output_of))]
    pub fn kind(self) -> u8
        ensures { (echo : List ℕ) → result ≡ kind (output_of echo self) }
    {
        match self {
            Output::Send { .. } => SEND,
            Output::StateChanged(_) => STATE_CHANGED,
            Output::NumPeersChanged(_) => NUM_PEERS_CHANGED,
            Output::SetTimer(_) => SET_TIMER,
        }
    }

    // How many bytes its content has. With an echo that is too long nothing is written.
    pub fn size(self, echo: &[u8]) -> usize
        ensures { result ≡ cond (leb (length echo.now) 503) (length (content (output_of echo.now self))) 0 }
    {
        match Echo::new(echo) {
            Some(echo) => self.content_size(&echo),
            None => 0,
        }
    }

    #[tactic(auto, using(crate::specs::Laws::Sizes::lengths), unfolding(crate::specs::Inner::Outputs::output_of))]
    fn content_size(self, echo: &Echo<'_>) -> usize
        ensures { result ≡ length (content (output_of echo.now self)) }
    {
        match self {
            Output::Send { packet, .. } => ADDRESS_SIZE + packet.size(echo),
            Output::StateChanged(_) => STATE_SIZE,
            Output::NumPeersChanged(_) => COUNT_SIZE,
            Output::SetTimer(_) => TIMER_SIZE,
        }
    }

    pub fn write(self, part: &mut [u8], echo: &[u8]) -> Result<(), WriteError>
        ensures { as_written (number_of result) part.new ≡ written_echo (λ bs. content (output_of bs self)) echo.now part.old }
    {
        let Some(echo) = Echo::new(echo) else {
            return Err(WriteError::EchoTooLong);
        };
        if part.len() < self.content_size(&echo) {
            return Err(WriteError::PartTooSmall);
        }
        self.fill(part, &echo);
        Ok(())
    }

    // At the front of a part that is large enough.
    #[tactic(auto, using(crate::specs::Laws::Sizes::lengths), unfolding(crate::specs::Inner::Outputs::output_of, model::specs::Answer::content))]
    fn fill(self, part: &mut [u8], echo: &Echo<'_>)
        requires { length (content (output_of echo.now self)) ≤ length part.old }
        ensures { part.new ≡ put 0 (content (output_of echo.now self)) part.old }
    {
        match self {
            Output::Send {
                iface_id,
                to,
                packet,
            } => {
                packets::write_send(part, iface_id, to, packet, echo);
            }
            Output::StateChanged(state) => {
                reports::write_state(part, state);
            }
            Output::NumPeersChanged(n) => {
                big_endian::write::<u32>(part, 0, n);
            }
            Output::SetTimer(time) => {
                big_endian::write::<i64>(part, 0, time.0);
            }
        }
    }
}
