// Reads the raw bytes of one packet on standard input, and prints what it says as one line.
#![tactic(auto)]

use std::io;
use whole_input::read_full;

// One byte more than a packet may have, so that a longer one is seen. No line is longer than 185 bytes.
fn main(rt: HostRuntime) -> io::Result<()> {
    let mut packet = [0u8; 513];
    let n = read_full(&mut rt.stdin(), &mut packet)?;
    let mut line = [0u8; 256];
    let end = packet_line::put_line(&mut line, &packet[..n]);
    rt.write_all(&line[..end])
}
