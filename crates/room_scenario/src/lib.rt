// A scenario of the program room, read from its text (docs/ROOM.md): its boxes, what happens to them, and when it ends.
// Reading goes in here; what then happens is of `room_world`.
#![tactic(auto)]

mod draft;
mod fault;
mod fields;
mod letters;
mod numbers;
mod statements;
mod verbs;
mod words;

ghost use Rattle.std.specs.Prelude.{◌≡◌};
ghost use Rattle.room_scenario.specs.Script.{outcome};
ghost use Rattle.room_scenario.specs.Grammar.{read_text};

use draft::Draft;
pub use fault::{BadLine, Fault};

// A `box` line: the box's letter, how far its clock is ahead, and its ports.
#[derive(Clone, Copy)]
pub struct BoxLine {
    pub name: u8,
    pub shift: u64,
    pub ports: u64,
}

// What an `at` line does to its box. A tempo, set or previewed, is in beats a minute.
#[derive(Clone, Copy)]
pub enum Action {
    On,
    Off,
    Silent,
    Heard,
    Tempo(u64),
    Preview(u64),
}

// An `at` line: its time in microseconds, the box's number, and what happens to it.
#[derive(Clone, Copy)]
pub struct Event {
    pub time: u64,
    pub number: usize,
    pub action: Action,
}

// The first `box_count` of `boxes`, in the order of their lines, and the first `event_count` of `events`, in the order in which they happen.
// Times are in microseconds.
// Arrays with counts: `read` can fail by its text alone, and so allocates nothing.
#[derive(Clone, Copy)]
pub struct Scenario {
    pub delay: u64,
    pub end: u64,
    pub boxes: [BoxLine; 16],
    pub box_count: usize,
    pub events: [Event; 64],
    pub event_count: usize,
}

// What the text says, line by line: the scenario, or the first bad line.
pub fn read(text: &[u8]) -> Result<Scenario, BadLine>
    ensures { outcome result ≡ read_text text.now }
{
    let mut draft = Draft::new();
    let mut line = 1;
    let mut at = 0;
    // From line to line: `split` would give one piece more behind the last newline. A `?` after `map_err` left the loop's goal open.
    while at < text.len() {
        let end = text::find(text, at, b'\n');
        match statements::statement(draft, &text[at..end]) {
            Ok(longer) => draft = longer,
            Err(fault) => return Err(BadLine { line, fault }),
        }
        at = end + 1;
        line += 1;
    }
    draft.finished(line)
}
