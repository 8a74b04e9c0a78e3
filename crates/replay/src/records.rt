// The records of a piece of input: which lie in it whole, and what answers each.
// First bytes are the numbers of docs/REPLAY.md, matched where a record is sized, made and answered: an enum of records would be one more list of
// the same numbers, made by a match on them.
ghost use Rattle.std.specs.Prelude.{◌+◌, ◌-◌, ◌<◌, ◌≤◌, length, IfOk, IfErr, IfSome};
ghost use Rattle.replay.specs.Sizes.{most_answer, Within};

use crate::manners::Manner;
use crate::sizes::Size;
use crate::{by_value, calls, dump, packets, previews, rooms, sizes, tempo_lists, values};
use engine::{Core, Numbers, Words};

const DUMP: u8 = 0x09;

// The last of the first bytes that say how calls are made. What is below those is a call or the dump.
const LAST_MANNER: u8 = 0x0b;

const PREVIEW: u8 = 0x32;

// The most bytes that one answer has (most_answer of specs/).
const MOST_ANSWER: usize = 1 + 2 + rooms::MOST_ROOM + 1;

// How far the records of a piece of input were answered: the core and the manner after them, how many bytes of the input they took,
// and why they end.
#[derive(Clone, Copy)]
pub(crate) struct Pass {
    pub core: Core,
    pub manner: Manner,
    pub used: usize,
    pub stop: Stop,
}

// Answers every record that lies whole in `input`. The answers go into `output` after its first `filled` bytes, which
// are written out where there is too little space for one more answer.
pub(crate) fn answer_all(
    rt: &impl Print,
    core: Core,
    manner: Manner,
    words: &mut Words,
    numbers: &mut Numbers,
    input: &[u8],
    output: &mut [u8],
    filled: usize,
) -> Pass
    requires filled_in_bounds { filled ≤ length output.old }
    requires most_answer_in_bounds { most_answer ≤ length output.old }
    ensures used_in_bounds { result.used ≤ length input.now }
    ensures filled_in_bounds_2 { result.stop.filled ≤ length output.old }
{
    let mut core = core;
    let mut manner = manner;
    let mut used = 0;
    let mut filled = filled;
    // Each record tells how long it is, so no range of places is known beforehand.
    while used < input.len() {
        let next = match next_record(rt, input, used, output, filled) {
            Ok(next) => next,
            Err(stop) => {
                return Pass {
                    core,
                    manner,
                    used,
                    stop,
                };
            }
        };
        filled = next.filled;
        let first = input[used];
        if calls::is_call(first) && manner.is_by_value {
            let answered = by_value::answer_calls(
                rt,
                core,
                words,
                numbers,
                manner.is_tested,
                input,
                used,
                output,
                next,
            );
            core = answered.core;
            used = answered.used;
            if answered.stop.is_over {
                return Pass {
                    core,
                    manner,
                    used,
                    stop: answered.stop,
                };
            }
            filled = answered.stop.filled;
        } else {
            let start = used + 1;
            let end = next.end;
            let fields = &input[start..end];
            let out = &mut output[filled..];
            if calls::is_call(first) {
                calls::fill_room(first, fields, out, manner.is_tested);
                let told = calls::call(core, words, numbers, first, fields, out);
                core = told.core;
                filled += calls::put_called(out, first, fields, told.number, manner.is_tested);
            } else if asks_engine(first) {
                filled += ask(core, words, numbers, manner.is_by_value, first, fields, out);
            } else if first <= LAST_MANNER {
                manner = manner.after(first, fields);
            } else {
                filled += answer(first, fields, out);
            }
            used = end;
        }
    }
    let stop = Stop {
        filled,
        is_over: false,
    };
    Pass {
        core,
        manner,
        used,
        stop,
    }
}

// The next record: where it ends, and how many bytes of the output are filled, with space after them for its answer.
#[derive(Clone, Copy)]
pub(crate) struct Next {
    pub end: usize,
    pub filled: usize,
}

// That there is no record to answer: how many bytes of the output are filled, and whether none can follow. Both count in each case.
#[derive(Clone, Copy)]
pub(crate) struct Stop {
    pub filled: usize,
    pub is_over: bool,
}

// Looks at the record at `used`.
fn next_record(
    rt: &impl Print,
    input: &[u8],
    used: usize,
    output: &[u8],
    filled: usize,
) -> Result<Next, Stop>
    requires used_in_bounds { used < length input.now }
    requires filled_in_bounds { filled ≤ length output.now }
    requires most_answer_in_bounds { most_answer ≤ length output.now }
    ensures used_lt_end { IfOk result (λ next. used < next.end) }
    ensures end_in_bounds { IfOk result (λ next. next.end ≤ length input.now) }
    ensures most_answer_in_bounds_2 { IfOk result (λ next. next.filled + most_answer ≤ length output.now) }
    ensures filled_in_bounds_2 { IfErr result (λ stop. stop.filled ≤ length output.now) }
{
    let start = used + 1;
    let size = sizes::size_of(input[used], &input[start..]);
    sized(rt, size, input, start, output, filled)
}

// The record at `used` where there is one and it is a call. It has a size of its own, so that the compiler puts `next_record` into
// its one caller.
pub(crate) fn next_call(
    rt: &impl Print,
    input: &[u8],
    used: usize,
    output: &[u8],
    filled: usize,
) -> Result<Next, Stop>
    requires used_in_bounds { used ≤ length input.now }
    requires filled_in_bounds { filled ≤ length output.now }
    requires most_answer_in_bounds { most_answer ≤ length output.now }
    ensures used_lt_end { IfOk result (λ next. used < next.end) }
    ensures end_in_bounds { IfOk result (λ next. next.end ≤ length input.now) }
    ensures most_answer_in_bounds_2 { IfOk result (λ next. next.filled + most_answer ≤ length output.now) }
    ensures filled_in_bounds_2 { IfErr result (λ stop. stop.filled ≤ length output.now) }
{
    let none = Stop {
        filled,
        is_over: false,
    };
    if used == input.len() {
        return Err(none);
    }
    let first = input[used];
    if !calls::is_call(first) {
        return Err(none);
    }
    let start = used + 1;
    let size = sizes::size_of_call(first, &input[start..]);
    sized(rt, size, input, start, output, filled)
}

// A record of this size, whose fields start at `start`.
fn sized(
    rt: &impl Print,
    size: Size,
    input: &[u8],
    start: usize,
    output: &[u8],
    filled: usize,
) -> Result<Next, Stop>
    requires start_in_bounds { start ≤ length input.now }
    requires within { Within (length input.now - start) size }
    requires filled_in_bounds { filled ≤ length output.now }
    requires most_answer_in_bounds { most_answer ≤ length output.now }
    ensures start_le_end { IfOk result (λ next. start ≤ next.end) }
    ensures end_in_bounds { IfOk result (λ next. next.end ≤ length input.now) }
    ensures most_answer_in_bounds_2 { IfOk result (λ next. next.filled + most_answer ≤ length output.now) }
    ensures filled_in_bounds_2 { IfErr result (λ stop. stop.filled ≤ length output.now) }
{
    match size {
        Size::Whole(size) => match with_space(rt, output, filled) {
            Some(filled) => Ok(Next {
                end: start + size,
                filled,
            }),
            None => Err(Stop {
                filled: 0,
                is_over: true,
            }),
        },
        Size::Cut => Err(Stop {
            filled,
            is_over: false,
        }),
        Size::Unknown => Err(Stop {
            filled,
            is_over: true,
        }),
    }
}

// Writes the filled bytes out where there is too little space after them for one more answer, and tells how many are then filled:
// none where they could not be written.
fn with_space(rt: &impl Print, output: &[u8], filled: usize) -> Option<usize>
    requires filled_in_bounds { filled ≤ length output.now }
    requires most_answer_in_bounds { most_answer ≤ length output.now }
    ensures { IfSome result (λ filled. filled + most_answer ≤ length output.now) }
{
    if MOST_ANSWER <= output.len() - filled {
        Some(filled)
    } else if write_out(rt, &output[..filled]) {
        Some(0)
    } else {
        None
    }
}

// Writes all of the bytes, and tells whether it could. The compiler would put it into the loop over records, and each turn would
// lay out an error.
#[inline(never)]
pub(crate) fn write_out(rt: &impl Print, bytes: &[u8]) -> bool {
    rt.write_all(bytes).is_ok()
}

fn asks_engine(first: u8) -> bool {
    matches!(first, DUMP | PREVIEW)
}

// Answers one record that asks the engine and leaves it as it is, as `answer` does others.
fn ask(
    e: Core,
    words: &Words,
    numbers: &Numbers,
    is_by_value: bool,
    first: u8,
    fields: &[u8],
    out: &mut [u8],
) -> usize
    ensures { result ≤ 6648 }
{
    match first {
        DUMP => dump::put_engine(out, e, words, numbers),
        _ => previews::put_preview(out, e, words, numbers, is_by_value, fields),
    }
}

// Answers one record that has nothing to do with the engine, whose fields follow its first byte, at the front of `out`, and
// tells how many bytes the answer has.
fn answer(first: u8, fields: &[u8], out: &mut [u8]) -> usize
    requires { most_answer ≤ length out.old }
    ensures { result ≤ most_answer }
{
    match first {
        0x10..=0x1b => values::answer(first, fields, out),
        0x20..=0x24 => packets::answer(first, fields, out),
        0x30..=0x31 => tempo_lists::answer(first, fields, out),
        _ => 0,
    }
}
