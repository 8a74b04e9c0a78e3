// Whole tempos from 20 to 999 beats per minute, whose microseconds per beat stand in the table.
ghost use Rattle.std.specs.Prelude.{◌≡◌, ◌+◌, ◌<◌};
ghost use Rattle.time.specs.WholeTempo.{whole_tempo};
ghost use Rattle.time.specs.Inner.WholeTempo.{Told};

use super::table::MICROS_PER_BEAT;

// The microseconds per beat of 20 + i beats per minute.
#[tactic(auto, unfolding(crate::specs::WholeTempo::whole_tempo), using(crate::specs::Laws::WholeTempos::table_rule))]
pub(crate) fn entry(i: usize) -> u32
    requires { i < 980 }
    ensures { result ≡ whole_tempo (20 + i) }
{
    MICROS_PER_BEAT[i]
}

// The last 43 of the 52 binary digits that an `f64` stores. A whole number below 1,024 has no 1 among them.
const LAST_DIGITS: u64 = 0x7ff_ffff_ffff;

// The whole number from 20 to 999 that x is exactly, if it is one. Its last digits are tested before it is cut, since they
// tell nearly all tempos that are not whole, in little time.
pub(crate) fn whole_of(x: f64) -> Option<u32>
    ensures { Told x result }
{
    if x >= 20.0 && x <= 999.0 && x.to_bits() & LAST_DIGITS == 0 {
        let n = std::num::truncating_f64_to_u64(x) as u32;
        if x == n as f64 { Some(n) } else { None }
    } else {
        None
    }
}
