// What Rust has as methods and casts of `f64`: `abs`, `floor`, `as i64`, `round` before that, and `as f64` of an integer.
// Each function has a result for every argument, and equals Rust's, with one NaN for all.
// What `f64` itself has goes in here; beats, tempos and phases are of `time` and `timeline`.
#![tactic(auto)]

ghost use Rattle.std.specs.Prelude.{◌≡◌};
ghost use Rattle.std.specs.Float.Ieee as Ieee;
ghost use Rattle.std.specs.Float.{binary64};
ghost use Rattle.float.specs.Whole.{abs_of, floor_of, round_of};
ghost use Rattle.float.specs.Digits.{digits_of};
ghost use Rattle.float.specs.Inner.Pattern.{cut_of, up_of, signed_of};

// The sign's bit of a float's pattern and the bits below it; in these, the leading digit's place and the 52 digits below it.
pub const SIGN: u64 = 0x8000_0000_0000_0000;

pub const REST: u64 = 0x7fff_ffff_ffff_ffff;

pub const LEAD: u64 = 0x10_0000_0000_0000;

pub const DIGITS: u64 = 0xf_ffff_ffff_ffff;

// Rust's `n as f64`: to the nearest float, a tie to even.
pub fn from_i64(n: i64) -> f64
    ensures { result ≡ Ieee.of_int binary64 n }
{
    std::num::nearest_i64_to_f64(n)
}

// Rust's `x as i64`: toward zero, to the nearest end of the range, and 0 for a NaN.
pub fn to_i64(x: f64) -> i64
    ensures { result ≡ Ieee.to_signed 63 x }
{
    std::num::saturating_f64_to_i64(x)
}

// Rust's `x.round() as i64`: to the nearest whole number, a half away from zero, and from there as `to_i64`.
// By the bits: `to_i64(x.round())` takes twice the time.
pub fn round_to_i64(x: f64) -> i64
    ensures { result ≡ Ieee.to_signed 63 (round_of x) }
{
    if x.is_nan() {
        return 0;
    }
    let bits = f64::to_bits(x);
    let field = (bits & REST) >> 52;
    let cut = cut_of(field);
    let whole = (digits_of(bits) + ((1u64 << cut) >> 1)) >> cut;
    with_sign(bits >= SIGN, whole << up_of(field))
}

// Rust's `x.abs()`.
#[tactic(auto, using(crate::proofs::Methods::size))]
pub fn abs(x: f64) -> f64
    ensures { result ≡ abs_of x }
{
    x.abs()
}

// Rust's `x.floor()`.
#[tactic(auto, using(crate::proofs::Methods::floored))]
pub fn floor(x: f64) -> f64
    ensures { result ≡ floor_of x }
{
    x.floor()
}

// The digits of a finite number, from its bit pattern: the leading one, which every field but 0
// stands for, and the 52 below it.
pub fn digits_of(bits: u64) -> u64
    ensures { result ≡ digits_of bits }
{
    if (bits & REST) >> 52 == 0 {
        bits & DIGITS
    } else {
        (bits & DIGITS) | LEAD
    }
}

// How many of the digits stand after the point, at an exponent's field: none from 1075 on. From 63 on the number is below
// 2^-10, and what is asked here of it no longer depends on how many.
fn cut_of(field: u64) -> u64
    ensures { result ≡ cut_of field }
{
    1075u64.saturating_sub(field).min(63)
}

// How many zeros follow the digits before the point. With 11 the number is past the range of an `i64`, and more change nothing.
fn up_of(field: u64) -> u64
    ensures { result ≡ up_of field }
{
    field.saturating_sub(1075).min(11)
}

// The whole number of this sign and size, or the end of the range that it passes.
fn with_sign(negative: bool, size: u64) -> i64
    ensures { result ≡ signed_of negative size }
{
    if negative {
        if size < SIGN {
            -(size as i64)
        } else {
            i64::MIN
        }
    } else if size < SIGN {
        size as i64
    } else {
        i64::MAX
    }
}
