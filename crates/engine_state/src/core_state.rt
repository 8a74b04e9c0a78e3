// An engine but for its neighbours, which are rows of two lent tables.
ghost use Rattle.std.specs.Prelude.{◌≡◌, ℕ, List, ℤ};
ghost use Rattle.model.specs.Engine.{new};
ghost use Rattle.engine_state.specs.Held.{held_in, own_in};

use super::OwnState;
use interface_map::Interfaces;
use time::{Duration, HostTime};
use timeline::SessionState;
use wire::NodeId;

// `count` is how many neighbours there are: the first rows, and all 16 where it is over 16.
#[derive(Clone, Copy)]
pub struct Core {
    pub node_id: NodeId,
    pub enabled: bool,
    pub session_id: NodeId,
    pub session_offset: Duration,
    pub state: SessionState,
    pub interfaces: Interfaces,
    pub count: usize,
    pub num_session_peers: u32,
    pub next_broadcast: HostTime,
}

impl Core {
    // Whatever the tables hold, it has no neighbours.
    #[tactic(auto, unfolding(crate::specs::Held::core_box, model::specs::Engine::new, peer_table::specs::Rows::peers_of, peer_table::specs::Rows::upto))]
    pub fn new(node_id: NodeId) -> Core
        ensures { (words : List ℕ) (numbers : List ℤ) → held_in result words numbers ≡ new node_id }
    {
        Core {
            node_id,
            enabled: false,
            session_id: node_id,
            session_offset: Duration(0),
            state: SessionState::default(),
            interfaces: Interfaces::none(),
            count: 0,
            num_session_peers: 0,
            next_broadcast: HostTime(0),
        }
    }

    pub fn own(self) -> OwnState
        ensures { result ≡ own_in self }
    {
        OwnState {
            node_id: self.node_id,
            session_id: self.session_id,
            session_offset: self.session_offset,
            state: self.state,
        }
    }
}
