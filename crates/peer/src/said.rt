// What an alive and a pong say of the neighbour that sends it.
use time::HostTime;
use timeline::{StartStopState, Timeline};
use wire::{NodeId, SocketAddrPlain};

// What an alive says.
#[derive(Clone, Copy)]
pub struct AliveMsg {
    pub node_id: NodeId,
    pub timeline: Option<Timeline>,
    pub start_stop: Option<StartStopState>,
    pub session_id: Option<NodeId>,
    pub mep4: Option<SocketAddrPlain>,
}

// What a pong says.
#[derive(Clone, Copy)]
pub struct PongMsg {
    pub session_id: Option<NodeId>,
    pub ghost_time: HostTime,
    pub ping_host_time: HostTime,
    pub ping_prev_ghost_time: Option<HostTime>,
}
