// A state that the app commits, in place.
ghost use Rattle.std.specs.Prelude.{◌≡◌, [], ◌∷◌, length};
ghost use Rattle.model.specs.Engine.{state_changed};
ghost use Rattle.model.specs.Produce.{produce_outputs};
ghost use Rattle.model.specs.Commit.{taken};
ghost use Rattle.model.specs.Calls.{commit, step, committed};
ghost use Rattle.model.specs.Answer.{buffer_after};
ghost use Rattle.engine_state.specs.Held.{held_in};
ghost use Rattle.call.specs.Inner.Answered.{written_answer};
ghost use Rattle.call.specs.Called.{ReturnsIn};

use call::{DONE, Told, admit, then_produce, write_empty};
use commit::taken;
use engine_state::Core;
use peer_table::{Numbers, Words};
use time::HostTime;
use timeline::SessionState;

// The core that has taken the state, before upkeep. An enabled one broadcasts it at once.
#[tactic(auto, using(commit::specs::Laws::Held::taken_held), unfolding(model::specs::Calls::committed, model::specs::Engine::with_state, model::specs::Engine::with_next_broadcast, engine_state::specs::Held::core_box))]
fn committed<'a>(
    e: Core,
    words: &'a Words,
    numbers: &'a Numbers,
    state: SessionState,
    at: HostTime,
) -> Core
    ensures numbers_value { held_in result words.now numbers.now ≡ committed (held_in e words.now numbers.now) state at }
    ensures state_value { result.state ≡ taken (held_in e words.now numbers.now) state }
{
    let state = taken(e.own(), words, numbers, e.count, state);
    let next_broadcast = if e.enabled { at } else { e.next_broadcast };
    Core {
        state,
        next_broadcast,
        ..e
    }
}

// What follows where it is another state: it is taken and reported, then upkeep.
#[tactic(auto, unfolding(answer::specs::Inner::Planned::reply_outputs, answer::specs::Inner::Planned::state_outputs))]
fn commit_new(
    e: Core,
    words: &mut Words,
    numbers: &mut Numbers,
    state: SessionState,
    at: HostTime,
    buf: &mut [u8],
) -> Core
    ensures numbers_after { held_in result words.new numbers.new ≡ (produce_outputs at (committed (held_in e words.old numbers.old) state at)).box }
    ensures buf_after { buf.new ≡ written_answer [] (state_changed (taken (held_in e words.old numbers.old) state) ∷ (produce_outputs at (committed (held_in e words.old numbers.old) state at)).outputs) buf.old }
{
    let core = committed(e, words, numbers, state, at);
    let report = Some(core.state);
    then_produce(core, words, numbers, None, report, &[], at, buf)
}

pub fn commit_in(
    e: Core,
    words: &mut Words,
    numbers: &mut Numbers,
    state: SessionState,
    at: HostTime,
    buf: &mut [u8],
) -> Told
    ensures returns_in { ReturnsIn e words.old numbers.old (commit state at (length buf.old)) result words.new numbers.new }
    ensures buf_after { buf.new ≡ buffer_after (step (held_in e words.old numbers.old) (commit state at (length buf.old))) buf.old }
{
    if let Err(refusal) = admit(at, buf.len()) {
        return Told {
            core: e,
            number: refusal.number(),
        };
    }
    if e.state == state {
        write_empty(buf);
        return Told {
            core: e,
            number: DONE,
        };
    }
    let core = commit_new(e, words, numbers, state, at, buf);
    Told { core, number: DONE }
}
