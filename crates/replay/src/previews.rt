// First byte 32: what a commit would report. Each function puts its part of the answer and tells how many bytes all of it has.
ghost use Rattle.std.specs.Prelude.{◌≡◌, ◌≤◌};

use crate::fields;
use engine::{Core, Engine, HostTime, MicroBeats, Numbers, Preview, SessionState, Words};

// Where the asked state stands: behind the time.
pub(crate) const ASKED: usize = 8;

const DONE: u8 = 0;

pub(crate) fn put_preview(
    out: &mut [u8],
    e: Core,
    words: &Words,
    numbers: &Numbers,
    is_by_value: bool,
    s: &[u8],
) -> usize
    ensures { result ≤ 50 }
{
    let state = fields::state(s, ASKED);
    let at = fields::time(s, 0);
    let preview = if is_by_value {
        by_value(e, words, numbers, state, at)
    } else {
        engine::preview_in(e, words, numbers, state, at)
    };
    match preview {
        Preview::Refused(number) => fields::put_u8(out, 0, number),
        Preview::Given(state, moved) => put_given(out, state, moved),
    }
}

fn by_value(
    core: Core,
    words: &Words,
    numbers: &Numbers,
    state: SessionState,
    at: HostTime,
) -> Preview {
    let e = Engine {
        core,
        words: *words,
        numbers: *numbers,
    };
    engine::preview_app_state(e, state, at)
}

fn put_given(out: &mut [u8], state: SessionState, moved: MicroBeats) -> usize
    ensures { result ≡ 50 }
{
    let at = fields::put_u8(out, 0, DONE);
    let at = fields::put_state(out, at, state);
    fields::put_i64(out, at, moved.0)
}
