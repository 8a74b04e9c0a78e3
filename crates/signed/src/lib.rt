// Whole numbers of 64 bits: sums that wrap, sizes, halves and a test of signed numbers, and a product in two words that is
// divided by a million. Each contract holds on all inputs.
// Plain numbers go in here, and the laws over ℤ that proofs share; a number with a unit is a type of `time`.
#![tactic(auto)]

ghost use Rattle.std.specs.Prelude.{◌≡◌, ◌*◌, ◌/◌, pos, ◌+ℤ◌, ◌-ℤ◌, ◌*ℤ◌, neg_ℤ, int_div, unsigned_abs};
ghost use Rattle.signed.specs.Wrap.{mod64, wrap64};
ghost use Rattle.signed.specs.Wide.{wide};

// A word has two digits to this base.
const BASE: u64 = 0x1_0000_0000;

const MILLION: u64 = 1_000_000;

// Rust's `a as u64`: the bits of a, as a number.
#[tactic(auto, using(crate::specs::Laws::Residue::mod64_id))]
pub fn as_u64(a: i64) -> u64
    ensures { result ≡ mod64 a }
{
    a.cast_unsigned()
}

// Rust's `u as i64`: the number whose bits are u.
#[tactic(auto, using(crate::proofs::Wrapped::read_bits, crate::specs::Laws::WrapLaws::wrap64_read))]
pub fn as_i64(u: u64) -> i64
    ensures { result ≡ wrap64 (pos u) }
{
    u.cast_signed()
}

// Rust's `a.wrapping_add(b)`: the sum, modulo 2^64.
#[tactic(auto, using(crate::proofs::Wrapped::sum_bits))]
pub fn wrapping_add(a: i64, b: i64) -> i64
    ensures { result ≡ wrap64 (a +ℤ b) }
{
    a.wrapping_add(b)
}

// Rust's `a.wrapping_sub(b)`: the difference, modulo 2^64.
#[tactic(auto, using(crate::proofs::Wrapped::difference_bits))]
pub fn wrapping_sub(a: i64, b: i64) -> i64
    ensures { result ≡ wrap64 (a -ℤ b) }
{
    a.wrapping_sub(b)
}

// Rust's `a.wrapping_neg()`: the smallest i64 stays itself.
#[tactic(auto, using(crate::proofs::Wrapped::negative_bits))]
pub fn wrapping_neg(a: i64) -> i64
    ensures { result ≡ wrap64 (neg_ℤ a) }
{
    a.wrapping_neg()
}

// Rust's `a.unsigned_abs()`: the size of a, which a u64 always holds.
pub fn unsigned_abs(a: i64) -> u64
    ensures { result ≡ unsigned_abs a }
{
    a.unsigned_abs()
}

// Rust's `a.wrapping_abs()`: the size of a, and of the smallest i64 itself.
#[tactic(auto, using(crate::proofs::Wrapped::read_bits, crate::specs::Laws::WrapLaws::wrap64_read))]
pub fn wrapping_abs(a: i64) -> i64
    ensures { result ≡ wrap64 (pos (unsigned_abs a)) }
{
    a.wrapping_abs()
}

// Rust's `a / 2`: half of a, toward zero.
pub fn half(a: i64) -> i64
    ensures { result ≡ int_div a (pos 2) }
{
    a / 2
}

// An unsigned number of two words.
#[derive(Clone, Copy)]
pub struct Wide {
    pub high: u64,
    pub low: u64,
}

// The whole product.
pub fn widening_mul(a: u64, b: u64) -> Wide
    ensures { wide result ≡ a * b }
{
    let (low, high) = a.carrying_mul(b, 0);
    Wide { high, low }
}

impl Wide {
    // The whole quotient, by long division: the upper word, then each half of the lower one joined to the remainder before it.
    // The `/` of u128 would be a call into the compiler's run-time library.
    pub fn div_million(self) -> Wide
        ensures { wide result ≡ wide self / 1000000 }
    {
        let upper = self.high % MILLION * BASE + self.low / BASE;
        let lower = upper % MILLION * BASE + self.low % BASE;
        let high = self.high / MILLION;
        let low = upper / MILLION * BASE + lower / MILLION;
        Wide { high, low }
    }
}

// a * b / 1,000,000, toward zero from the exact product; the low 64 bits are kept.
pub fn mul_div_million(a: i64, b: i64) -> i64
    ensures { result ≡ wrap64 (int_div (a *ℤ b) (pos 1000000)) }
{
    let quotient = widening_mul(unsigned_abs(a), unsigned_abs(b)).div_million();
    let low = as_i64(quotient.low);
    if (a < 0) == (b < 0) {
        low
    } else {
        wrapping_neg(low)
    }
}
