// The host's calls by value: each is the call in place on the engine's parts.
ghost use Rattle.std.specs.Prelude.{◌≡◌, length};
ghost use Rattle.model.specs.Calls.{tick, commit, switch, interface_added, interface_removed, io_error, step};
ghost use Rattle.model.specs.Answer.{buffer_after};
ghost use Rattle.engine_state.specs.Held.{held};
ghost use Rattle.call.specs.Called.{Returns};
ghost use Rattle.call_host.specs.Errors.{error_kind};

use super::IoErrorKind;
use super::app_state::commit_in;
use super::enabling::switch_in;
use super::interfaces::{add_interface_in, io_error_in, remove_interface_in};
use super::timer::timer_in;
use call::{Called, with_told};
use engine_state::Engine;
use interface_map::InterfaceId;
use time::HostTime;
use timeline::SessionState;
use wire::SocketAddrPlain;

#[tactic(auto, using(call::specs::Laws::Returned::by_value))]
pub fn handle_timer(mut e: Engine, at: HostTime, buf: &mut [u8]) -> Called
    ensures returns { Returns e (tick at (length buf.old)) result }
    ensures buf_after { buf.new ≡ buffer_after (step (held e) (tick at (length buf.old))) buf.old }
{
    let told = timer_in(e.core, &mut e.words, &mut e.numbers, at, buf);
    with_told(e, told)
}

#[tactic(auto, using(call::specs::Laws::Returned::by_value))]
pub fn commit_app_state(mut e: Engine, state: SessionState, at: HostTime, buf: &mut [u8]) -> Called
    ensures returns { Returns e (commit state at (length buf.old)) result }
    ensures buf_after { buf.new ≡ buffer_after (step (held e) (commit state at (length buf.old))) buf.old }
{
    let told = commit_in(e.core, &mut e.words, &mut e.numbers, state, at, buf);
    with_told(e, told)
}

#[tactic(auto, using(call::specs::Laws::Returned::by_value))]
pub fn set_enabled(mut e: Engine, enabled: bool, at: HostTime, buf: &mut [u8]) -> Called
    ensures returns { Returns e (switch enabled at (length buf.old)) result }
    ensures buf_after { buf.new ≡ buffer_after (step (held e) (switch enabled at (length buf.old))) buf.old }
{
    let told = switch_in(e.core, &mut e.words, &mut e.numbers, enabled, at, buf);
    with_told(e, told)
}

pub fn add_interface(e: Engine, iface: InterfaceId, local_addr: SocketAddrPlain) -> Called
    ensures { Returns e (interface_added iface.0 local_addr) result }
{
    with_told(e, add_interface_in(e.core, iface, local_addr))
}

pub fn remove_interface(e: Engine, iface: InterfaceId) -> Called
    ensures { Returns e (interface_removed iface.0) result }
{
    with_told(e, remove_interface_in(e.core, iface))
}

pub fn handle_io_error(e: Engine, iface: InterfaceId, error: IoErrorKind) -> Called
    ensures { Returns e (io_error iface.0 (error_kind error)) result }
{
    with_told(e, io_error_in(e.core, iface, error))
}
