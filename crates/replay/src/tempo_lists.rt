// First bytes 30 and 31: the crates midi_reader and midi_writer. Each function reads a record's fields, puts the answer at the front of `out`
// and tells how many bytes it has.
ghost use Rattle.std.specs.Prelude.{◌+◌, ◌≤◌, ◌<◌, ◌≡◌, length};
ghost use Rattle.replay.specs.Sizes.{most_answer};

use crate::{fields, rooms};
use midi_file::{DONE, MOST, TempoChange, TempoList};
use time::{MicroBeats, TempoWire};

// Where the count of a list to be written stands, and its pairs, of which a record has at most 64.
const COUNT: usize = 2;

pub(crate) const PAIRS: usize = COUNT + 2;

pub(crate) const PAIR: usize = 8 + 8;

// Where the room stands in the writer's answer: behind a number and a size.
const HEAD: usize = 1 + 2;

pub(crate) fn answer(first: u8, s: &[u8], out: &mut [u8]) -> usize
    requires { most_answer ≤ length out.old }
    ensures { result ≤ most_answer }
{
    match first {
        0x30 => write(s, out),
        _ => read(s, out),
    }
}

// 30: the room stands in the answer.
fn write(s: &[u8], out: &mut [u8]) -> usize
    requires { most_answer ≤ length out.old }
    ensures { result ≤ most_answer }
{
    let end = HEAD + rooms::room(s, 0);
    rooms::fill(&mut out[HEAD..end]);
    let (number, size) = match midi_writer::write(list(s), &mut out[HEAD..end]) {
        Ok(size) => (DONE, size),
        Err(refusal) => (refusal.number(), 0),
    };
    big_endian::write::<u8>(out, 0, number);
    big_endian::write::<u16>(out, 1, (size % 0x1_0000) as u16);
    end
}

// 31: the pairs of a file, none where it is refused.
fn read(s: &[u8], out: &mut [u8]) -> usize
    ensures { result ≤ 1026 }
{
    match midi_reader::read(fields::counted(s, 0)) {
        Ok(list) => put_answer(out, DONE, list.pairs().unwrap_or(&[])),
        Err(refusal) => put_answer(out, refusal.number(), &[]),
    }
}

// How many pairs a record to be written has.
pub(crate) fn pairs_held(s: &[u8]) -> usize
    ensures { result ≤ 64 }
{
    at_most_64(big_endian::read::<u16>(s, COUNT) as usize)
}

fn at_most_64(count: usize) -> usize
    ensures { result ≤ 64 }
{
    count.min(MOST)
}

// The list of a record, whose count may be over 64.
fn list(s: &[u8]) -> TempoList {
    let mut list = midi_file::no_pairs();
    let held = pairs_held(s);
    for (i, place) in list.changes[..held].iter_mut().enumerate() {
        *place = pair(s, PAIRS + PAIR * i);
    }
    list.count = big_endian::read::<u16>(s, COUNT) as usize;
    list
}

fn pair(s: &[u8], at: usize) -> TempoChange
    requires { at < 65536 }
{
    TempoChange {
        tempo: TempoWire(big_endian::read::<i64>(s, at)),
        beat_origin: MicroBeats(big_endian::read::<i64>(s, at + 8)),
    }
}

// The reader's number, the count and the pairs.
fn put_answer(out: &mut [u8], number: u8, changes: &[TempoChange]) -> usize
    requires { length changes.now ≤ 64 }
    ensures { result ≤ 1026 }
{
    fields::put_u8(out, 0, number);
    let mut at = fields::put_u8(out, 1, changes.len() as u8);
    for change in changes {
        at = put_pair(out, at, change);
    }
    at
}

fn put_pair(out: &mut [u8], at: usize, change: &TempoChange) -> usize
    requires { at < 65000 }
    ensures { result ≡ at + 16 }
{
    let at = fields::put_i64(out, at, change.tempo.0);
    fields::put_i64(out, at, change.beat_origin.0)
}
