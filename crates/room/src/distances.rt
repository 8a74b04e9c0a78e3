// How far apart the lines of two boxes stand.
ghost use Rattle.std.specs.Prelude.{◌≡◌, ◌<◌, ◌-ℤ◌, ◌*ℤ◌};
ghost use Rattle.signed.specs.Wrap.{wrap64};
ghost use Rattle.room.specs.Distance.{time_of};

use crate::calls::Room;
use engine::Timeline;
use room_scenario::BoxLine;
use std::io;

const MILLION: i64 = 1_000_000;

// Beats 0, 100 and 10,000, in millionths of a beat.
const BEAT_0: i64 = 0;

const BEAT_100: i64 = 100_000_000;

const BEAT_10000: i64 = 10_000_000_000;

// What is compared of a box.
#[derive(Clone, Copy)]
struct Standing {
    name: u8,
    shift: i64,
    is_on: bool,
    is_silent: bool,
    session: u64,
    line: Timeline,
}

// Each pair once, by the first box, then by the second.
pub(crate) fn print_distances(rt: &impl Print, room: &Room) -> io::Result<()> {
    println!(rt)?;
    let count = room.world.count.min(16);
    for i in 0..count {
        for j in i + 1..count {
            print_pair(rt, Standing::new(room, i), Standing::new(room, j))?;
        }
    }
    Ok(())
}

impl Standing {
    fn new(room: &Room, number: usize) -> Standing
        requires { number < 16 }
    {
        let core = room.engines[number].core;
        let line = core.state.timeline;
        let world = room.world;
        let BoxLine { name, shift, .. } = world.box_of(number);
        Standing {
            name,
            shift: signed::as_i64(shift),
            is_on: core.enabled,
            is_silent: world.is_silent(number),
            session: core.session_id.0,
            line,
        }
    }

    // How far it stands from another where both have the beat.
    fn apart(self, other: Standing, beat: i64) -> i64 {
        apart(self.line, self.shift, other.line, other.shift, beat)
    }
}

fn print_pair(rt: &impl Print, x: Standing, y: Standing) -> io::Result<()> {
    if !x.is_on || !y.is_on {
        return Ok(());
    }
    print!(rt; "{} and {}", x.name as char, y.name as char)?;
    if x.is_silent || y.is_silent {
        println!(rt; " do not hear each other")
    } else if x.session != y.session {
        println!(rt; " are not in one session")
    } else {
        let first = x.apart(y, BEAT_0);
        let later = x.apart(y, BEAT_100);
        let last = x.apart(y, BEAT_10000);
        println!(rt;
            " stand {first}, {later}, {last} millionths of a microsecond apart at beats 0, 100, 10000"
        )
    }
}

// The room's time at which x has the beat less that of y, in millionths of a microsecond, modulo 2^64.
fn apart(x: Timeline, x_shift: i64, y: Timeline, y_shift: i64, beat: i64) -> i64
    ensures { result ≡ wrap64 (time_of x x_shift beat -ℤ time_of y y_shift beat) }
{
    signed::wrapping_sub(time_of(x, x_shift, beat), time_of(y, y_shift, beat))
}

// The room's time at which a line has the beat, in millionths of a microsecond, modulo 2^64.
fn time_of(line: Timeline, shift: i64, beat: i64) -> i64
    ensures { result ≡ wrap64 (time_of line shift beat) }
{
    let origin = signed::wrapping_sub(line.time_origin.0, shift);
    let beats = signed::wrapping_sub(beat, line.beat_origin.0);
    signed::wrapping_add(
        wrapping_mul(origin, MILLION),
        wrapping_mul(beats, line.tempo.0),
    )
}

// The product, modulo 2^64.
fn wrapping_mul(a: i64, b: i64) -> i64
    ensures { result ≡ wrap64 (a *ℤ b) }
{
    signed::as_i64(signed::widening_mul(signed::as_u64(a), signed::as_u64(b)).low)
}
