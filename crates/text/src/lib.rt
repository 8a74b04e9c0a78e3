// Numbers and given bytes as text at a place of a slice. Every function is total: where the text fits it stands there, and the
// place behind it is given; where it does not fit the slice is left as it was, and so is the place.
// With them what reads a text: its lines, and its decimal digits.
// Text of any program goes in here; a program's own words are of `packet_line`, `tempo_text` and `room_scenario`.
#![tactic(auto)]

mod digits;
mod lines;

ghost use Rattle.std.specs.Prelude.{◌∷◌, ◌≡◌, ◌+◌, ◌<◌, ◌≤◌, length};
ghost use Rattle.big_endian.specs.Bytes.{put};
ghost use Rattle.text.specs.Numerals.{digit_code, digits, hexadecimal, decimal, integer};
ghost use Rattle.text.specs.Numerals.{places as Numerals·places};
ghost use Rattle.text.specs.Placed.{Placed};
ghost use Rattle.text.specs.Placed.{behind as Placed·behind};

pub use digits::{are_digits, digit_value};
pub use lines::find;

pub fn put_bytes(s: &mut [u8], at: usize, source: &[u8]) -> usize
    ensures { Placed at source.now s.old result s.new }
{
    big_endian::write_bytes(s, at, source);
    behind(s.len(), at, source.len())
}

// In decimal, in the fewest digits.
pub fn put_decimal(s: &mut [u8], at: usize, n: u64) -> usize
    ensures { Placed at (decimal n) s.old result s.new }
{
    put_digits(s, at, n, 10, places(n))
}

// In decimal, with a minus sign where it is negative.
pub fn put_integer(s: &mut [u8], at: usize, n: i64) -> usize
    ensures { Placed at (integer n) s.old result s.new }
{
    let size = signed::unsigned_abs(n);
    if n < 0 {
        put_negative(s, at, size)
    } else {
        put_decimal(s, at, size)
    }
}

// The last `width` decimal digits, zeros in front among them.
pub fn put_padded(s: &mut [u8], at: usize, n: u64, width: usize) -> usize
    ensures { Placed at (digits 10 width n) s.old result s.new }
{
    put_digits(s, at, n, 10, width)
}

// The last `width` hexadecimal digits, in lower case.
pub fn put_hexadecimal(s: &mut [u8], at: usize, n: u64, width: usize) -> usize
    ensures { Placed at (hexadecimal width n) s.old result s.new }
{
    put_digits(s, at, n, 16, width)
}

// A minus sign and a size, both or neither.
fn put_negative(s: &mut [u8], at: usize, size: u64) -> usize
    ensures { Placed at (45 ∷ decimal size) s.old result s.new }
{
    let next = behind(s.len(), at, places(size) + 1);
    if at < next {
        put_bytes(s, at, b"-");
        put_decimal(s, at + 1, size);
    }
    next
}

fn put_digits(s: &mut [u8], at: usize, n: u64, base: u64, width: usize) -> usize
    requires { (0 < base) × (base ≤ 16) }
    ensures { Placed at (digits base width n) s.old result s.new }
{
    let next = behind(s.len(), at, width);
    if at < next {
        spell(s, at, n, base, width);
    }
    next
}

// The last digit first: what is left has one digit less.
fn spell(s: &mut [u8], at: usize, n: u64, base: u64, width: usize)
    requires { (0 < base) × (base ≤ 16) × (at + width ≤ length s.old) }
    ensures { s.new ≡ put at (digits base width n) s.old }
{
    let mut rest = n;
    for left in (0..width).rev() {
        s[at + left] = digit(rest % base);
        rest /= base;
    }
}

fn digit(d: u64) -> u8
    requires { d < 16 }
    ensures { result ≡ digit_code d }
{
    if d < 10 {
        b'0' + d as u8
    } else {
        b'a' + (d as u8 - 10)
    }
}

// How many decimal digits a number has.
fn places(n: u64) -> usize
    ensures { result ≡ Numerals·places n }
{
    let mut rest = n;
    let mut count = 1;
    // `ilog10` answers a u32, and is not given for 0.
    while rest >= 10 {
        rest /= 10;
        count += 1;
    }
    count
}

// The place behind `width` places from `at` on, where they lie within the first `len`; otherwise `at`.
#[tactic(auto, using(crate::specs::Laws::Placing::behind_within, crate::specs::Laws::Placing::behind_past))]
fn behind(len: usize, at: usize, width: usize) -> usize
    ensures { result ≡ Placed·behind len at width }
{
    if width <= len && at <= len - width {
        at + width
    } else {
        at
    }
}
