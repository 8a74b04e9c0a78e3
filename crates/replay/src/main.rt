// Reads records on standard input and writes one answer for each to standard output, until the input ends, a record
// is cut short, or there is no such record: its first byte is unknown, or a room or a length is over its bound.
#![tactic(auto)]

mod by_value;
mod calls;
mod dump;
mod fields;
mod manners;
mod packet_fields;
mod packets;
mod previews;
mod records;
mod rooms;
mod sizes;
mod tempo_lists;
mod values;

ghost use Rattle.std.specs.Prelude.{◌≤◌, length, IfSome};
ghost use Rattle.replay.specs.Sizes.{most_answer};

use engine::{Core, NodeId, Numbers, Words, no_numbers, no_words};
use manners::Manner;
use std::io::Read;

fn main(rt: HostRuntime) {
    let mut input = [0u8; 262144];
    let mut output = [0u8; 262144];
    let mut words = no_words();
    let mut numbers = no_numbers();
    replay(
        &mut rt.stdin(),
        &rt,
        &mut input,
        &mut output,
        &mut words,
        &mut numbers,
    );
}

// How far the program is: the engine but for its tables, which are lent; how calls are made; how many bytes of input are held that
// are not yet answered, at the front of their buffer; and how many bytes of answers wait at the front of theirs.
#[derive(Clone, Copy)]
struct Progress {
    core: Core,
    manner: Manner,
    held: usize,
    filled: usize,
}

// A proved loop has to end, and nothing says that the input does. So the loop counts its turns, up to a number that no run
// reaches.
fn replay(
    stdin: &mut impl Read,
    rt: &impl Print,
    input: &mut [u8],
    output: &mut [u8],
    words: &mut Words,
    numbers: &mut Numbers,
)
    requires { most_answer ≤ length output.old }
{
    let mut at = Progress {
        core: Core::new(NodeId(0)),
        manner: Manner::first(),
        held: 0,
        filled: 0,
    };
    'turns: for _ in 0..u64::MAX {
        match step(stdin, rt, input, output, words, numbers, at) {
            Some(next) => at = next,
            None => break 'turns,
        }
    }
}

// Reads more input and answers the records that lie whole in it. None where all is done and written.
fn step(
    stdin: &mut impl Read,
    rt: &impl Print,
    input: &mut [u8],
    output: &mut [u8],
    words: &mut Words,
    numbers: &mut Numbers,
    at: Progress,
) -> Option<Progress>
    requires most_answer_in_bounds { most_answer ≤ length output.old }
    requires held_in_bounds { at.held ≤ length input.old }
    requires filled_in_bounds { at.filled ≤ length output.old }
    ensures held_in_bounds_2 { IfSome result (λ next. next.held ≤ length input.old) }
    ensures filled_in_bounds_2 { IfSome result (λ next. next.filled ≤ length output.old) }
{
    let end = read_more(stdin, input, at.held);
    if end == at.held {
        records::write_out(rt, &output[..at.filled]);
        return None;
    }
    let pass = records::answer_all(
        rt,
        at.core,
        at.manner,
        words,
        numbers,
        &input[..end],
        output,
        at.filled,
    );
    if pass.stop.is_over {
        records::write_out(rt, &output[..pass.stop.filled]);
        return None;
    }
    Some(Progress {
        core: pass.core,
        manner: pass.manner,
        held: move_to_front(input, pass.used, end),
        filled: pass.stop.filled,
    })
}

// Reads once, behind the first `held` bytes, and answers how many bytes then stand in `input`: as many as before where
// the input has ended or cannot be read.
fn read_more(stdin: &mut impl Read, input: &mut [u8], held: usize) -> usize
    requires { held ≤ length input.old }
    ensures lower_bound { held ≤ result }
    ensures upper_bound { result ≤ length input.old }
{
    match stdin.read(&mut input[held..]) {
        Ok(got) => held + got,
        Err(_) => held,
    }
}

// Moves the bytes from `from` up to `end` to the front of `s`, and answers how many they are.
fn move_to_front(s: &mut [u8], from: usize, end: usize) -> usize
    requires from_le_end { from ≤ end }
    requires end_in_bounds { end ≤ length s.old }
    ensures { result ≤ end }
{
    s.copy_within(from..end, 0);
    end - from
}
