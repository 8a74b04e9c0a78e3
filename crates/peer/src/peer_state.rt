// A neighbour without its samples, and what a message or a ping makes of it (PeerState of engine.rs).
ghost use Rattle.std.specs.Prelude.{◌≡◌, ◌&&◌, cond, leb, not, ℤ, length};
ghost use Rattle.std.specs.Int.Signed.{le_z};
ghost use Rattle.time.specs.declared.HostTime.{HostTime};
ghost use Rattle.wire.specs.Same.{same_maybe_timeline, same_maybe_start_stop};
ghost use Rattle.model.specs.Peers.{Samples, no_samples, new_peer};
ghost use Rattle.model.specs.Packet.{news, session_changed, after_alive, moves, moved, samples_with, measured};
ghost use Rattle.model.specs.Produce.{asks, after_ping};
ghost use Rattle.peer.specs.Held.{peer};
ghost use Rattle.peer.specs.Inner.Said.{alive_msg};

use super::said::AliveMsg;
use time::{Duration, HostTime};
use timeline::{StartStopState, Timeline};
use wire::{NodeId, SocketAddrPlain};

#[derive(Clone, Copy)]
pub struct PeerState {
    pub id: NodeId,
    pub session_id: Option<NodeId>,
    pub timeline_ghost: Option<Timeline>,
    pub start_stop_ghost: Option<StartStopState>,
    pub last_seen: HostTime,
    pub addr: SocketAddrPlain,
    pub next_ping_time: HostTime,
    pub ping_timeouts: u32,
    pub measuring: bool,
}

pub fn ping_due(measuring: bool, next: HostTime, now: HostTime) -> bool
    ensures { result ≡ (measuring && le_z next.0 now.0) }
{
    measuring && next <= now
}

impl PeerState {
    // From a ping to the next.
    pub const PING_INTERVAL: Duration = Duration(50_000);

    // After so many unanswered pings the next due one ends measuring.
    pub const MAX_PING_TIMEOUTS: u32 = 5;

    // A neighbour whose last alive is longer ago is dropped.
    pub const TIMEOUT: Duration = Duration(6_000_000);

    // No more samples are taken of one.
    pub const MAX_SAMPLES: usize = 20;

    #[tactic(auto, unfolding(crate::specs::Held::peer, model::specs::Peers::new_peer))]
    pub fn new(id: NodeId, addr: SocketAddrPlain, now: HostTime) -> Self
        ensures { peer result no_samples ≡ new_peer id addr now }
    {
        PeerState {
            id,
            session_id: None,
            timeline_ghost: None,
            start_stop_ghost: None,
            last_seen: now,
            addr,
            next_ping_time: now,
            ping_timeouts: 0,
            measuring: true,
        }
    }

    // Whether an alive gives another session than the held one.
    #[tactic(auto, unfolding(crate::specs::Held::peer, crate::specs::Inner::Said::alive_msg, model::specs::Packet::session_changed, wire::specs::Same::same_maybe_node))]
    pub fn session_changed(self, m: AliveMsg) -> bool
        ensures { (s : Samples) → result ≡ session_changed (alive_msg m) (peer self s) }
    {
        self.session_id != m.session_id
    }

    #[tactic(auto, unfolding(wire::specs::Same::same_maybe_timeline, timeline::specs::Same::same_timeline))]
    fn timeline_changed(self, m: AliveMsg) -> bool
        ensures { result ≡ not (same_maybe_timeline self.timeline_ghost m.timeline) }
    {
        self.timeline_ghost != m.timeline
    }

    #[tactic(auto, unfolding(wire::specs::Same::same_maybe_start_stop, timeline::specs::Same::same_start_stop))]
    fn start_stop_changed(self, m: AliveMsg) -> bool
        ensures { result ≡ not (same_maybe_start_stop self.start_stop_ghost m.start_stop) }
    {
        self.start_stop_ghost != m.start_stop
    }

    // Whether anything in an alive is new.
    #[tactic(auto, unfolding(crate::specs::Held::peer, crate::specs::Inner::Said::alive_msg, model::specs::Packet::news))]
    pub fn news(self, m: AliveMsg) -> bool
        ensures { (s : Samples) → result ≡ news (alive_msg m) (peer self s) }
    {
        self.timeline_changed(m) || self.start_stop_changed(m) || self.session_changed(m)
    }

    // Another session clears the samples and restarts measuring.
    #[tactic(auto, unfolding(crate::specs::Held::peer, crate::specs::Inner::Said::alive_msg, model::specs::Packet::after_alive))]
    pub fn after_alive(self, from: SocketAddrPlain, m: AliveMsg, now: HostTime) -> PeerState
        ensures { (s : Samples) → peer result (cond (session_changed (alive_msg m) (peer self s)) no_samples s) ≡ after_alive from (alive_msg m) now (peer self s) }
    {
        let mut p = PeerState {
            session_id: m.session_id,
            timeline_ghost: m.timeline,
            start_stop_ghost: m.start_stop,
            last_seen: now,
            addr: m.mep4.unwrap_or(from),
            ..self
        };
        if self.session_changed(m) {
            p.next_ping_time = now;
            p.ping_timeouts = 0;
            p.measuring = true;
        }
        p
    }

    // Whether a pong gives a session that is not the held one.
    #[tactic(auto, unfolding(crate::specs::Held::peer, wire::specs::Same::same_maybe_node))]
    pub fn moves(self, session: Option<NodeId>) -> bool
        ensures { (s : Samples) → result ≡ moves session (peer self s) }
    {
        session.is_some() && self.session_id != session
    }

    // Such a session replaces the held one and clears the samples.
    #[tactic(auto, unfolding(crate::specs::Held::peer, model::specs::Packet::moved))]
    pub fn moved(self, session: Option<NodeId>) -> PeerState
        ensures { (s : Samples) → peer result (cond (moves session (peer self s)) no_samples s) ≡ moved session (peer self s) }
    {
        if self.moves(session) {
            PeerState {
                session_id: session,
                ..self
            }
        } else {
            self
        }
    }

    // While it is measured a pong answers its pings, and measuring ends at 20 samples. How many there are with the new one is given.
    #[tactic(auto, unfolding(crate::specs::Held::peer, model::specs::Packet::measured, model::specs::Packet::samples_with, model::specs::Packet::still_measuring))]
    pub fn measured(self, count: usize, now: HostTime) -> PeerState
        ensures { (ping_time : HostTime) (offset : ℤ) (s : Samples) → length (samples_with ping_time offset (peer self s)).offsets ≡ count → peer result (samples_with ping_time offset (peer self s)) ≡ measured ping_time offset now (peer self s) }
    {
        if !self.measuring {
            return self;
        }
        let p = PeerState {
            ping_timeouts: 0,
            ..self
        };
        if count < Self::MAX_SAMPLES {
            PeerState {
                next_ping_time: now.wrapping_add(Self::PING_INTERVAL),
                ..p
            }
        } else {
            PeerState {
                measuring: false,
                ..p
            }
        }
    }

    fn silent(self) -> bool
        ensures { result ≡ leb 5 self.ping_timeouts }
    {
        Self::MAX_PING_TIMEOUTS <= self.ping_timeouts
    }

    // Whether a ping goes out to it.
    #[tactic(auto, unfolding(crate::specs::Held::peer))]
    pub fn asks(self, now: HostTime) -> bool
        ensures { (s : Samples) → result ≡ asks now (peer self s) }
    {
        ping_due(self.measuring, self.next_ping_time, now) && !self.silent()
    }

    // A due ping is sent, or after five unanswered ones ends measuring.
    #[tactic(auto, unfolding(crate::specs::Held::peer, model::specs::Produce::after_ping))]
    pub fn after_ping(self, now: HostTime) -> PeerState
        ensures { (s : Samples) → peer result s ≡ after_ping now (peer self s) }
    {
        if !ping_due(self.measuring, self.next_ping_time, now) {
            return self;
        }
        if self.silent() {
            return PeerState {
                measuring: false,
                ..self
            };
        }
        PeerState {
            next_ping_time: now.wrapping_add(Self::PING_INTERVAL),
            ping_timeouts: self.ping_timeouts + 1,
            ..self
        }
    }
}
