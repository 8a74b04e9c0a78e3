// Reads a tempo list on standard input, as lines or as a MIDI file, and prints it as the other.
#![tactic(auto)]

use std::io;
use whole_input::read_full;

// One byte more than an input may have, so that a longer one is seen. No answer is longer than 1,536 bytes.
fn main(rt: HostRuntime) -> io::Result<()> {
    let mut input = [0u8; 65_537];
    let n = read_full(&mut rt.stdin(), &mut input)?;
    let mut answer = [0u8; 1536];
    let end = tempo_text::put_answer(&mut answer, &input[..n]);
    rt.write_all(&answer[..end])
}
