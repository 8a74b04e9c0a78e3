// Calls in a row that are made by value: each takes the whole engine and gives it back.
ghost use Rattle.std.specs.Prelude.{◌+◌, ◌<◌, ◌≤◌, length};
ghost use Rattle.replay.specs.Sizes.{most_answer};

use crate::calls::HEAD;
use crate::records::{Next, Stop};
use crate::{calls, fields, packet_fields, records, rooms};
use engine::{Called, Core, DONE, Engine, Numbers, Words};

// The first bytes of the two common calls.
const HANDLE_PACKET: u8 = 0x02;

const HANDLE_TIMER: u8 = 0x03;

// The core after some calls, how many bytes of the input are answered, and why the calls end.
#[derive(Clone, Copy)]
pub(crate) struct Answered {
    pub core: Core,
    pub used: usize,
    pub stop: Stop,
}

// Answers the call at `used`, which `next` tells of, and those that follow it. The engine is taken out of its tables once, and put
// back after the last.
pub(crate) fn answer_calls(
    rt: &impl Print,
    core: Core,
    words: &mut Words,
    numbers: &mut Numbers,
    is_tested: bool,
    input: &[u8],
    used: usize,
    output: &mut [u8],
    next: Next,
) -> Answered
    requires used_lt_end { used < next.end }
    requires end_in_bounds { next.end ≤ length input.now }
    requires most_answer_in_bounds { next.filled + most_answer ≤ length output.old }
    ensures used_lt_used { used < result.used }
    ensures used_in_bounds { result.used ≤ length input.now }
    ensures filled_in_bounds { result.stop.filled ≤ length output.old }
{
    let mut engine = Engine {
        core,
        words: *words,
        numbers: *numbers,
    };
    let mut used = used;
    let mut next = next;
    let stop = 'calls: loop {
        let first = input[used];
        let start = used + 1;
        let end = next.end;
        let filled = next.filled;
        let fields = &input[start..end];
        let out = &mut output[filled..];
        calls::fill_room(first, fields, out, is_tested);
        let number = if first == HANDLE_PACKET {
            let called = handle_packet(engine, fields, out);
            engine = called.engine;
            called.number
        } else if first == HANDLE_TIMER {
            let called = handle_timer(engine, fields, out);
            engine = called.engine;
            called.number
        } else {
            let called = call(engine, first, fields, out);
            engine = called.engine;
            called.number
        };
        let size = calls::put_called(out, first, fields, number, is_tested);
        used = end;
        match records::next_call(rt, input, used, output, filled + size) {
            Ok(call) => next = call,
            Err(stop) => break 'calls stop,
        }
    };
    // Fields that are arrays are not stored straight: the borrow checker asks for a variable.
    let held_words = engine.words;
    let held_numbers = engine.numbers;
    *words = held_words;
    *numbers = held_numbers;
    Answered {
        core: engine.core,
        used,
        stop,
    }
}

// The calls of records, as `calls::call` makes them in place. Each function that takes or gives an engine copies it. So the loop
// makes the two common calls, a packet's and the timer's, each by a function that the compiler puts into the loop. The others
// share one.
fn handle_packet(e: Engine, s: &[u8], out: &mut [u8]) -> Called
    requires { most_answer ≤ length out.old }
{
    let end = HEAD + rooms::room(s, calls::PACKET_ROOM);
    engine::handle_packet(
        e,
        calls::interface(s),
        packet_fields::addr(s, 4),
        fields::counted(s, calls::PACKET),
        fields::time(s, 10),
        &mut out[HEAD..end],
    )
}

fn handle_timer(e: Engine, s: &[u8], out: &mut [u8]) -> Called
    requires { most_answer ≤ length out.old }
{
    let end = HEAD + rooms::room(s, calls::TICK_ROOM);
    engine::handle_timer(e, fields::time(s, 0), &mut out[HEAD..end])
}

fn call(e: Engine, first: u8, s: &[u8], out: &mut [u8]) -> Called
    requires { most_answer ≤ length out.old }
{
    let end = HEAD + calls::room_of(first, s);
    let room = &mut out[HEAD..end];
    match first {
        0x01 => Called {
            engine: Engine::new(packet_fields::node(s, 0)),
            number: DONE,
        },
        0x04 => engine::commit_app_state(
            e,
            fields::state(s, calls::COMMITTED),
            fields::time(s, 0),
            room,
        ),
        0x05 => engine::set_enabled(e, fields::flag(s, 0), fields::time(s, 1), room),
        0x06 => engine::add_interface(e, calls::interface(s), packet_fields::addr(s, 4)),
        0x07 => engine::remove_interface(e, calls::interface(s)),
        _ => engine::handle_io_error(e, calls::interface(s), calls::io_error(s)),
    }
}
