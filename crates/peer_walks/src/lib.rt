// What is looked for and done over the neighbours that two lent tables hold: the first `count` rows, and all 16 where it is over 16.
// No order of the rows is relied on. No contract says what becomes of the rows past those that are held, nor, of `poll`, of addresses past those it counts.
// A walk takes the two tables and the count as three parameters: they are what a host lends, and the engine's calls take them so.
// Walks over the rows go in here; no place of a field is known here, and nothing is decided for the engine.
#![tactic(auto)]

mod calm;
mod found;
mod known;
mod open;
mod polling;
mod retain;

pub use calm::{oldest_kept, survey};
pub use found::{find, find_addr};
pub use known::{SharedState, best_known};
pub use open::insert;
pub use polling::poll;
pub use retain::{remove, retain_since};
use time::HostTime;

// What a walk over the neighbours finds: whether upkeep leaves all of them as they are, the earliest of a time and of their next pings, when the one
// seen longest ago was seen, and how many are held under a session.
#[derive(Clone, Copy)]
pub struct Overview {
    pub is_calm: bool,
    pub ping: HostTime,
    pub seen: HostTime,
    pub count: u32,
}
