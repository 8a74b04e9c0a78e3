// Interfaces that come and go, in place. These calls take neither time nor buffer, and look at no table.
ghost use Rattle.std.specs.Prelude.{ℕ, ◌≡◌, List, ℤ};
ghost use Rattle.model.specs.Calls.{interface_added, interface_removed, io_error, full_of};
ghost use Rattle.interface_map.specs.Held.{interfaces_of};
ghost use Rattle.call.specs.Called.{ReturnsIn};
ghost use Rattle.call_host.specs.Errors.{error_kind};

use super::IoErrorKind;
use call::{DONE, Refusal, Told};
use engine_state::Core;
use interface_map::{InterfaceId, Interfaces};
use wire::SocketAddrPlain;

// Whether it would be a fifth one.
#[tactic(auto, using(crate::proofs::Held::found_place))]
fn is_full_for(held: Interfaces, iface: InterfaceId) -> bool
    ensures { result ≡ full_of iface.0 (interfaces_of held) }
{
    held.find(iface).is_none() && Interfaces::MOST <= held.len()
}

#[tactic(auto, using(call::specs::Laws::ReturnedIn::told_refused, call::specs::Laws::ReturnedIn::told_done), unfolding(model::specs::Calls::step, model::specs::Calls::add_interface, model::specs::Engine::with_interfaces, engine_state::specs::Held::core_box))]
pub fn add_interface_in(e: Core, iface: InterfaceId, local_addr: SocketAddrPlain) -> Told
    ensures { (words : List ℕ) (numbers : List ℤ) → ReturnsIn e words numbers (interface_added iface.0 local_addr) result words numbers }
{
    if is_full_for(e.interfaces, iface) {
        return Told {
            core: e,
            number: Refusal::InterfacesFull.number(),
        };
    }
    let core = Core {
        interfaces: e.interfaces.put(iface, local_addr),
        ..e
    };
    Told { core, number: DONE }
}

#[tactic(auto, using(call::specs::Laws::ReturnedIn::told_done), unfolding(model::specs::Calls::step, model::specs::Calls::remove_interface, model::specs::Engine::with_interfaces, engine_state::specs::Held::core_box))]
pub fn remove_interface_in(e: Core, iface: InterfaceId) -> Told
    ensures { (words : List ℕ) (numbers : List ℤ) → ReturnsIn e words numbers (interface_removed iface.0) result words numbers }
{
    let core = Core {
        interfaces: e.interfaces.remove(iface),
        ..e
    };
    Told { core, number: DONE }
}

// Whatever the error, the interface is gone.
#[tactic(auto, unfolding(model::specs::Calls::step, model::specs::Calls::handle_io_error))]
pub fn io_error_in(e: Core, iface: InterfaceId, error: IoErrorKind) -> Told
    ensures { (words : List ℕ) (numbers : List ℤ) → ReturnsIn e words numbers (io_error iface.0 (error_kind error)) result words numbers }
{
    remove_interface_in(e, iface)
}
