// One neighbour but for its samples, and what each message makes of it (PeerState of engine.rs); a sample, and samples in order.
// What looks at one neighbour goes in here; where it is kept is of `peer_table`, and what looks at all is of `peer_walks`.
#![tactic(auto)]

mod peer_state;
mod said;
mod samples;

pub use peer_state::{PeerState, ping_due};
pub use said::{AliveMsg, PongMsg};
pub use samples::{sample, sort};
