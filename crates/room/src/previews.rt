// What a box would report of a commit: its engine is asked, and the answer is printed.
use crate::print::{Head, Line};
use engine::{DONE, Engine, HostTime, Preview, SessionState};
use std::io;

// The engine's state with a line of so many beats a minute from a time on.
pub(crate) fn with_tempo(e: Engine, bpm: u64, at: HostTime) -> SessionState {
    e.core
        .state
        .set_tempo(float::from_i64(signed::as_i64(bpm)), at)
}

// Prints what a commit of the tempo would report at this moment. The number of the refusal, 0 where there is none.
pub(crate) fn preview(
    rt: &impl Print,
    e: Engine,
    head: Head,
    bpm: u64,
    at: HostTime,
) -> io::Result<u8> {
    match engine::preview_app_state(e, with_tempo(e, bpm, at), at) {
        Preview::Refused(refusal) => Ok(refusal),
        Preview::Given(state, moved) => {
            let line = Line::from(state.timeline);
            println!(rt; "{head} would report {line}, moved by {}", moved.0)?;
            Ok(DONE)
        }
    }
}
