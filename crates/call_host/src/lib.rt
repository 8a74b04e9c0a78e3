// The calls that a host makes of itself, in place and by value: a timer, a committed state, switching on and off, interfaces that come and go
// (the other calls of engine.rs).
// Calls go in here; what several of them share is of `call`, and the names for hosts are of `engine`.
#![tactic(auto)]

mod app_state;
mod by_value;
mod enabling;
mod interfaces;
mod timer;

pub use app_state::commit_in;
pub use by_value::{
    add_interface, commit_app_state, handle_io_error, handle_timer, remove_interface, set_enabled,
};
pub use enabling::switch_in;
pub use interfaces::{add_interface_in, io_error_in, remove_interface_in};
pub use timer::timer_in;

#[derive(Clone, Copy)]
pub enum IoErrorKind {
    JoinMulticastFailed,
    OpenUnicastFailed,
    SendFailed,
}
