// The call that a timer makes, in place.
ghost use Rattle.std.specs.Prelude.{◌≡◌, length};
ghost use Rattle.model.specs.Calls.{tick, step};
ghost use Rattle.model.specs.Answer.{buffer_after};
ghost use Rattle.engine_state.specs.Held.{held_in};
ghost use Rattle.call.specs.Called.{ReturnsIn};

use call::{DONE, Told, admit, then_produce};
use engine_state::Core;
use peer_table::{Numbers, Words};
use time::HostTime;

pub fn timer_in(
    e: Core,
    words: &mut Words,
    numbers: &mut Numbers,
    at: HostTime,
    buf: &mut [u8],
) -> Told
    ensures returns_in { ReturnsIn e words.old numbers.old (tick at (length buf.old)) result words.new numbers.new }
    ensures buf_after { buf.new ≡ buffer_after (step (held_in e words.old numbers.old) (tick at (length buf.old))) buf.old }
{
    if let Err(refusal) = admit(at, buf.len()) {
        return Told {
            core: e,
            number: refusal.number(),
        };
    }
    let core = then_produce(e, words, numbers, None, None, &[], at, buf);
    Told { core, number: DONE }
}
