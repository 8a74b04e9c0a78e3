// A packet that came in on an interface, in place and by value (handle_packet of engine.rs).
// This one call goes in here; what its message does is of `messages`.
#![tactic(auto)]

mod in_place;

ghost use Rattle.std.specs.Prelude.{◌≡◌, ◌&&◌, not, length};
ghost use Rattle.model.specs.Calls.{packet, step, our_own};
ghost use Rattle.model.specs.Answer.{buffer_after};
ghost use Rattle.engine_state.specs.Held.{held};
ghost use Rattle.call.specs.Called.{Returns};

use call::{Called, with_told};
use engine_state::Engine;
pub use in_place::packet_in;
use interface_map::InterfaceId;
use time::HostTime;
use wire::{DiscoveryMsg, Message, NodeId, SocketAddrPlain};

// Whether it is an alive of our own.
fn is_our_own(node_id: NodeId, m: Option<Message>) -> bool
    ensures { result ≡ our_own node_id m }
{
    matches!(m, Some(Message::Discovery(DiscoveryMsg::Alive { node_id: sender, .. })) if sender == node_id)
}

// A disabled engine hears nothing, and an enabled one not itself.
fn hears(enabled: bool, node_id: NodeId, m: Option<Message>) -> bool
    ensures { result ≡ enabled && not (our_own node_id m) }
{
    enabled && !is_our_own(node_id, m)
}

#[tactic(auto, using(call::specs::Laws::Returned::by_value))]
pub fn handle_packet(
    mut e: Engine,
    iface: InterfaceId,
    from: SocketAddrPlain,
    bytes: &[u8],
    at: HostTime,
    buf: &mut [u8],
) -> Called
    ensures returns { Returns e (packet iface.0 from bytes.now at (length buf.old)) result }
    ensures buf_after { buf.new ≡ buffer_after (step (held e) (packet iface.0 from bytes.now at (length buf.old))) buf.old }
{
    let told = packet_in(
        e.core,
        &mut e.words,
        &mut e.numbers,
        iface,
        from,
        bytes,
        at,
        buf,
    );
    with_told(e, told)
}
