// What `tempolist` answers to its input: a tempo list's file to its lines, and its lines to its file.
// The lines go in here; the file is of `midi_file`, and input and output of the program.
#![tactic(auto)]

mod lists;
mod numbers;

ghost use Rattle.std.specs.Prelude.{◌≡◌, ◌+◌, ◌≤◌, length};
ghost use Rattle.big_endian.specs.Bytes.{put};
ghost use Rattle.text.specs.Lines.{lines};
ghost use Rattle.text.specs.Part.{Part};
ghost use Rattle.text.specs.Placed.{Laid};
ghost use Rattle.midi_file.specs.Answers.{refusal_number};
ghost use Rattle.midi_file.specs.Reading.{read_file};
ghost use Rattle.tempo_text.specs.Answer.{listed, numbered, refused, file_of, pair_line, pair_lines, lines_of, answer_to};
ghost use Rattle.tempo_text.specs.Values.{list_text};

use lists::BadLine;
use midi_file::{Refusal, TempoChange, TempoList};

// The most bytes that the input may have.
const MOST_INPUT: usize = 65_536;

// What `tempolist` answers to its input, at the front of `out` where it fits; otherwise `out` is left as it was. The result is its length.
pub fn put_answer(out: &mut [u8], input: &[u8]) -> usize
    ensures out_after { out.new ≡ put 0 (answer_to input.now) out.old }
    ensures value { result ≡ length (answer_to input.now) }
    ensures upper_bound { result ≤ 1536 }
{
    let mut answer = [0u8; 1536];
    let end = put_text(&mut answer, input);
    text::put_bytes(out, 0, &answer[..end]);
    end
}

// A file begins with the letter M, and no list's line does.
fn put_text(s: &mut [u8], input: &[u8]) -> usize
    ensures { Part 0 (answer_to input.now) 1536 s.old result s.new }
{
    if MOST_INPUT < input.len() {
        return text::put_bytes(s, 0, b"input too long\n");
    }
    if input.starts_with(b"M") {
        put_lines(s, input)
    } else {
        put_file(s, input)
    }
}

// The lines of a file.
fn put_lines(s: &mut [u8], file: &[u8]) -> usize
    ensures { Part 0 (lines_of (read_file file.now)) 1536 s.old result s.new }
{
    match midi_reader::read(file) {
        Ok(list) => put_pairs(s, &list.changes[..list.count]),
        Err(refusal) => put_refused(s, refusal),
    }
}

fn put_pairs(s: &mut [u8], changes: &[TempoChange]) -> usize
    ensures { Laid 0 (pair_lines changes.now) s.old result s.new }
{
    let mut at = 0;
    for change in changes {
        at = put_pair(s, at, change);
    }
    at
}

fn put_pair(s: &mut [u8], at: usize, change: &TempoChange) -> usize
    ensures { Laid at (pair_line change.now) s.old result s.new }
{
    let at = text::put_integer(s, at, change.tempo.0);
    let at = text::put_bytes(s, at, b" ");
    let at = text::put_integer(s, at, change.beat_origin.0);
    text::put_bytes(s, at, b"\n")
}

// The file of a list's lines.
fn put_file(s: &mut [u8], input: &[u8]) -> usize
    ensures { Part 0 (file_of (listed 1 (lines input.now))) 666 s.old result s.new }
{
    match lists::read_lines(input) {
        Ok(list) => put_list(s, list),
        Err(BadLine(line)) => put_numbered(s, b"bad line ", line as u64),
    }
}

fn put_list(s: &mut [u8], list: TempoList) -> usize
    ensures { Part 0 (list_text list) 666 s.old result s.new }
{
    match midi_writer::write(list, s) {
        Ok(size) => size,
        Err(refusal) => put_refused(s, refusal),
    }
}

fn put_refused(s: &mut [u8], refusal: Refusal) -> usize
    ensures { Part 0 (refused (refusal_number refusal)) 29 s.old result s.new }
{
    put_numbered(s, b"refused ", u64::from(refusal.number()))
}

// A line of words that ends with a number.
fn put_numbered(s: &mut [u8], words: &[u8], n: u64) -> usize
    ensures { Part 0 (numbered words.now n) (length words.now + 21) s.old result s.new }
{
    let at = text::put_bytes(s, 0, words);
    let at = text::put_decimal(s, at, n);
    text::put_bytes(s, at, b"\n")
}
