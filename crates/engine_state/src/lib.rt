// The engine's state (Engine of engine.rs), what it means, and lines and start-stop states in host time and in shared time.
// What the state is goes in here; every step from one state to the next is of a crate above.
#![tactic(auto)]

mod core_state;
mod shared_time;

ghost use Rattle.std.specs.Prelude.{◌≡◌};
ghost use Rattle.model.specs.Engine.{new};
ghost use Rattle.engine_state.specs.Held.{held};

pub use core_state::Core;
use peer_table::{Numbers, Words, no_numbers, no_words};
pub use shared_time::{
    earlier_by, start_stop_to_ghost, start_stop_to_host, timeline_to_ghost, timeline_to_host,
};
use time::Duration;
use timeline::SessionState;
use wire::NodeId;

// The whole engine by value: a core, and the rows of its neighbours.
#[derive(Clone, Copy)]
pub struct Engine {
    pub core: Core,
    pub words: Words,
    pub numbers: Numbers,
}

// What an engine says of itself: who it is, its session, and its state in host time.
#[derive(Clone, Copy)]
pub struct OwnState {
    pub node_id: NodeId,
    pub session_id: NodeId,
    pub session_offset: Duration,
    pub state: SessionState,
}

// The neighbours that two lent tables hold: the first `count` rows, and all 16 where it is over 16.
#[derive(Clone, Copy)]
pub struct Neighbours<'a> {
    pub words: &'a Words,
    pub numbers: &'a Numbers,
    pub count: usize,
}

impl Engine {
    pub fn new(node_id: NodeId) -> Engine
        ensures { held result ≡ new node_id }
    {
        Engine {
            core: Core::new(node_id),
            words: no_words(),
            numbers: no_numbers(),
        }
    }
}
