// Calls that ask the engine and change nothing, in place and by value.
// A call that changes the engine does not go in here.
#![tactic(auto)]

mod preview;

pub use preview::{Preview, preview_app_state, preview_in};
