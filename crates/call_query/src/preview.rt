// What a commit would report, without making it.
ghost use Rattle.std.specs.Prelude.{◌≡◌};
ghost use Rattle.model.specs.Sums.{sub64};
ghost use Rattle.model.specs.Preview.{preview};
ghost use Rattle.engine_state.specs.Held.{held_in, held};
ghost use Rattle.call_query.specs.Preview.{preview_of};

use call::{TIME_OUT_OF_RANGE, is_timely};
use commit::taken;
use engine_state::{Core, Engine};
use peer_table::{Numbers, Words};
use time::{HostTime, MicroBeats};
use timeline::SessionState;

// Turned down with a number; or the state that the commit would report first, and the micro-beats that its beat origin would be moved by.
// No Result: hosts read it, and the theorem `near_engines` speaks of it.
#[derive(Clone, Copy)]
pub enum Preview {
    Refused(u8),
    Given(SessionState, MicroBeats),
}

// The micro-beats from the asked beat origin to the given one.
fn moved_by(asked: MicroBeats, given: MicroBeats) -> MicroBeats
    ensures { result.0 ≡ sub64 given.0 asked.0 }
{
    MicroBeats(signed::wrapping_sub(given.0, asked.0))
}

// A commit of the held state reports nothing, and what is taken for that state is the state itself: so both cases have one answer.
#[tactic(auto, using(commit::specs::Laws::Held::taken_held, model::proofs::Laws::Previews::preview_given), unfolding(model::specs::Preview::preview))]
pub fn preview_in<'a>(
    e: Core,
    words: &'a Words,
    numbers: &'a Numbers,
    state: SessionState,
    at: HostTime,
) -> Preview
    ensures { preview_of result ≡ preview (held_in e words.now numbers.now) state at }
{
    if !is_timely(at) {
        return Preview::Refused(TIME_OUT_OF_RANGE);
    }
    let given = taken(e.own(), words, numbers, e.count, state);
    let moved = moved_by(state.timeline.beat_origin, given.timeline.beat_origin);
    Preview::Given(given, moved)
}

pub fn preview_app_state(e: Engine, state: SessionState, at: HostTime) -> Preview
    ensures { preview_of result ≡ preview (held e) state at }
{
    preview_in(e.core, &e.words, &e.numbers, state, at)
}
