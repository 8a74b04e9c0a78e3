// All of a room but its engines and the packets' bytes, and the rules of docs/ROOM.md over it: what happens next, which ports a
// packet is for, and when a timer fires.
// Rules of the simulated room go in here; the engine is not known here, and its calls are made by `room`.
#![tactic(auto)]

mod next;
mod packets;
mod ports;
mod timers;

ghost use Rattle.std.specs.Prelude.{◌≡◌, ◌+◌, pos};
ghost use Rattle.signed.specs.Wrap.{wrap64};
ghost use Rattle.room_world.specs.World.{at_first, box_line, silent, timer, with_silence, with_timer};

pub use next::{Kind, Next, next_up};
pub use ports::{node_id, port_addr};
use room_network::Network;
use room_scenario::{BoxLine, Scenario};
use time::HostTime;

// The time of what never happens. A number, and no `Option`, since `event_time`, `arrival_time` and `timer` of the definitions
// are numbers, and `IsNext` orders this one behind all others.
pub const NEVER: u64 = 18_446_744_073_709_551_615;

// How many `at` lines have happened, the lines of the boxes, whether their cables are out, and the room's time at which the
// timer of each fires. A box's number counts modulo 16, the places that there are.
// Three arrays: the definitions `at_first`, `with_silence` and `with_timer` take and change each as a whole, and `boxes` is the scenario's.
#[derive(Clone, Copy)]
pub struct World {
    pub now: u64,
    pub done: usize,
    pub delay: u64,
    pub count: usize,
    pub boxes: [BoxLine; 16],
    pub silent: [bool; 16],
    pub timers: [u64; 16],
    pub network: Network,
}

impl World {
    pub fn new(scenario: Scenario) -> World
        ensures { result ≡ at_first scenario }
    {
        let boxes = scenario.boxes;
        World {
            now: 0,
            done: 0,
            delay: scenario.delay,
            count: scenario.box_count,
            boxes,
            silent: [false; 16],
            timers: [NEVER; 16],
            network: Network::none(),
        }
    }

    pub fn box_of(self, number: usize) -> BoxLine
        ensures { result ≡ box_line self number }
    {
        let i = number % 16;
        self.boxes[i]
    }

    pub fn is_silent(self, number: usize) -> bool
        ensures { result ≡ silent self number }
    {
        let i = number % 16;
        self.silent[i]
    }

    pub fn timer_of(self, number: usize) -> u64
        ensures { result ≡ timer self number }
    {
        let i = number % 16;
        self.timers[i]
    }

    // What the box's clock shows.
    pub fn host_time(self, number: usize) -> HostTime
        ensures { result ≡ record { 0 = wrap64 (pos (self.now + (box_line self number).shift)) } }
    {
        let shift = self.box_of(number).shift;
        HostTime(signed::as_i64(std::num::wrapping_add_u64(self.now, shift)))
    }

    pub fn with_silence(mut self, number: usize, is_silent: bool) -> World
        ensures { result ≡ with_silence self number is_silent }
    {
        let i = number % 16;
        self.silent[i] = is_silent;
        self
    }

    pub fn with_timer(mut self, number: usize, fires: u64) -> World
        ensures { result ≡ with_timer self number fires }
    {
        let i = number % 16;
        self.timers[i] = fires;
        self
    }
}
