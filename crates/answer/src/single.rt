// Parts of a plan of which there is one output or none.
ghost use Rattle.std.specs.Prelude.{◌≡◌, List, [], ◌∷◌, ℕ};
ghost use Rattle.model.specs.Engine.{our_alive};
ghost use Rattle.output.specs.Inner.Outputs.{output_of, packet_bytes};
ghost use Rattle.engine_state.specs.Inner.OwnBox.{own_box};
ghost use Rattle.answer.specs.Inner.Planned.{reply_outputs, state_outputs, timer_output, count_output};
ghost use Rattle.answer.specs.Inner.Values.{maybe_outputs};
ghost use Rattle.answer.specs.Inner.Laid.{Room, Laid};

use super::Reply;
use super::cursor::Cursor;
use engine_state::{OwnState, start_stop_to_ghost, timeline_to_ghost};
use output::{Echo, Output, Packet};
use time::HostTime;
use timeline::SessionState;
use wire::SocketAddrPlain;
use wire_writer::Alive;

// The state goes out in shared time.
#[tactic(auto, unfolding(output::specs::Inner::Outputs::packet_bytes, engine_state::specs::Inner::OwnBox::own_box, model::specs::Engine::our_alive))]
pub(crate) fn alive(own: OwnState, mep4: Option<SocketAddrPlain>, is_response: bool) -> Packet
    ensures { (echo : List ℕ) → packet_bytes echo result ≡ our_alive (own_box own []) mep4 is_response }
{
    Packet::Alive(Alive {
        node_id: own.node_id,
        session_id: own.session_id,
        timeline: timeline_to_ghost(own.session_offset, own.state.timeline),
        start_stop: start_stop_to_ghost(own.session_offset, own.state.start_stop),
        mep4,
        is_response,
    })
}

impl Reply {
    #[tactic(auto, unfolding(output::specs::Inner::Outputs::output_of, output::specs::Inner::Outputs::packet_bytes, crate::specs::Inner::Planned::reply_outputs))]
    fn output(self) -> Output
        ensures { (echo : List ℕ) → output_of echo result ∷ [] ≡ reply_outputs echo (Some self) }
    {
        match self {
            Reply::Response {
                iface,
                to,
                own,
                mep4,
            } => Output::Send {
                iface_id: iface.0,
                to,
                packet: alive(own, mep4, true),
            },
            Reply::Pong {
                iface,
                to,
                session_id,
                ghost_time,
            } => Output::Send {
                iface_id: iface.0,
                to,
                packet: Packet::Pong {
                    session_id,
                    ghost_time,
                },
            },
            Reply::Ping {
                iface,
                to,
                host_time,
                prev_ghost_time,
            } => Output::Send {
                iface_id: iface.0,
                to,
                packet: Packet::Ping {
                    host_time,
                    prev_ghost_time: Some(prev_ghost_time),
                },
            },
        }
    }
}

#[tactic(auto, unfolding(crate::specs::Inner::Values::maybe_outputs, crate::specs::Inner::Planned::reply_outputs))]
pub(crate) fn of_reply(reply: Option<Reply>) -> Option<Output>
    ensures { (echo : List ℕ) → maybe_outputs echo result ≡ reply_outputs echo reply }
{
    reply.map(|reply| reply.output())
}

#[tactic(auto, unfolding(crate::specs::Inner::Values::maybe_outputs, crate::specs::Inner::Planned::state_outputs, output::specs::Inner::Outputs::output_of))]
pub(crate) fn of_state(report: Option<SessionState>) -> Option<Output>
    ensures { (echo : List ℕ) → maybe_outputs echo result ≡ state_outputs report }
{
    report.map(|state| Output::StateChanged(state))
}

#[tactic(auto, unfolding(crate::specs::Inner::Values::maybe_outputs, crate::specs::Inner::Planned::timer_output, output::specs::Inner::Outputs::output_of))]
pub(crate) fn of_timer(timer: Option<HostTime>) -> Option<Output>
    ensures { (echo : List ℕ) → maybe_outputs echo result ≡ timer_output timer }
{
    timer.map(|time| Output::SetTimer(time))
}

#[tactic(auto, unfolding(crate::specs::Inner::Values::maybe_outputs, crate::specs::Inner::Planned::count_output, output::specs::Inner::Outputs::output_of))]
pub(crate) fn of_count(count: Option<u32>) -> Option<Output>
    ensures { (echo : List ℕ) → maybe_outputs echo result ≡ count_output count }
{
    count.map(|n| Output::NumPeersChanged(n))
}

// The echo is a pong's, and no other output looks at it.
pub(crate) fn write_single(buf: &mut [u8], c: Cursor, o: Option<Output>, echo: &Echo<'_>) -> Cursor
    requires { Room c (maybe_outputs echo.now o) buf.old }
    ensures { Laid c (maybe_outputs echo.now o) buf.old result buf.new }
{
    match o {
        Some(x) => c.write_output(buf, x, echo),
        None => c,
    }
}
