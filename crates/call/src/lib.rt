// What a call of the engine gives, when it is turned down for its time or its answer buffer, and how one that is done ends.
// What all calls share goes in here; what one call does is of `call_packet`, `call_host` and `call_query`.
#![tactic(auto)]

mod answers;
mod ending;
mod parts;
mod refusals;

pub use answers::{NOBODY, write_call, write_empty};
pub use ending::then_produce;
use engine_state::{Core, Engine};
pub use parts::with_told;
pub use refusals::{
    BUFFER_TOO_SMALL, DONE, INTERFACES_FULL, LONGEST_PACKET, PACKET_TOO_LONG, Refusal,
    TIME_OUT_OF_RANGE, admit, is_timely,
};

// What a call in place gives: the core after it, and its number, 0 where it is done.
// No Result: hosts read the number, the definition `ReturnsIn` speaks of it, and the core is there in both cases.
#[derive(Clone, Copy)]
pub struct Told {
    pub core: Core,
    pub number: u8,
}

// What a call by value gives: the engine after it, and its number.
// No Result: hosts read the number, and the theorems `host_reads` and `zero_done` speak of it.
#[derive(Clone, Copy)]
pub struct Called {
    pub engine: Engine,
    pub number: u8,
}
