// Runs boxes on one simulated network, by a scenario on standard input or, where that is empty, by the built-in one, and
// prints what happens (docs/ROOM.md).
#![tactic(auto)]

mod answers;
mod calls;
mod distances;
mod events;
mod previews;
mod print;
mod running;

use std::io;
use whole_input::read_full;

const MOST_TEXT: usize = 65536;

// One byte more than a scenario may have, so that a longer one is seen.
fn main(rt: HostRuntime) -> io::Result<()> {
    let mut text = [0u8; 65537];
    let n = read_full(&mut rt.stdin(), &mut text)?;
    if n == 0 {
        play_built_in(&rt)
    } else if n > MOST_TEXT {
        println!(&rt; "the scenario is too long")
    } else {
        play(&rt, &text[..n])
    }
}

fn play_built_in(rt: &impl Print) -> io::Result<()> {
    play(
        rt,
        b"delay 350
box A shift 0
box B shift 1500000
box C shift 987654321
box D shift 40000007 ports 2
at 0 on A
at 300 on B
at 700 on C
at 1000 on D
at 5000 preview A 128
at 5000 tempo A 128
at 8000 silent C
at 20000 heard C
at 24000 off B
end 25000
",
    )
}

fn play(rt: &impl Print, text: &[u8]) -> io::Result<()> {
    match room_scenario::read(text) {
        Err(bad) => println!(rt; "{bad}"),
        Ok(scenario) => {
            let mut queue = [0u8; 557056];
            running::run(rt, scenario, &mut queue)
        }
    }
}
