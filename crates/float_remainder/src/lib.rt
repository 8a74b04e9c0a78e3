// Rust's `%` of two `f64`, worked out from their bits on whole numbers: `%` itself compiles to C's fmod, which is not on every machine as it is linked.
// In units of the smallest value, 2^-1074, a finite number's size is its digits times 2^lift. The remainder of two such sizes is
// again one: at most 53 digits and the smaller lift.
#![tactic(auto)]

ghost use Rattle.std.specs.Prelude.{◌≡◌, ◌*◌, ◌%◌, ◌^◌, ◌<◌, ◌≤◌, false};
ghost use Rattle.std.specs.Float.Ieee as Ieee;
ghost use Rattle.std.specs.Float.{binary64};
ghost use Rattle.std.specs.Float.Ieee.Exact.{HasValue};

use float::{REST, SIGN, digits_of};

// The exponent's field of an infinity or a NaN.
const NO_NUMBER: u64 = 2047;

// 2^lift units.
fn power_of(lift: u64) -> f64
    requires { lift < 2046 }
    ensures { HasValue result false (2 ^ lift) (2 ^ 1074) }
{
    if lift < 52 {
        f64::from_bits(1u64 << lift)
    } else {
        f64::from_bits((lift - 51) << 52)
    }
}

// digits * 2^lift units, with a sign.
fn scaled(negative: bool, digits: u64, lift: u64) -> f64
    requires few_digits { digits < 2 ^ 53 }
    requires lift_in_range { lift < 2046 }
    ensures { result ≡ Ieee.round binary64 negative (digits * 2 ^ lift) (2 ^ 1074) }
{
    let size = digits as f64;
    let power = power_of(lift);
    if negative {
        -size * power
    } else {
        size * power
    }
}

// The remainder of digits * 2^shift, taken 11 zeros at a time.
fn shifted_by(digits: u64, shift: u64, divisor: u64) -> u64
    requires divisor_not_zero { 0 < divisor }
    requires divisor_few_digits { divisor < 2 ^ 53 }
    ensures { result ≡ digits * 2 ^ shift % divisor }
{
    let mut rest = digits % divisor;
    let mut left = shift;
    // Eleven zeros a turn, as many as a word has room for beside 53 digits; how many turns that is depends on the shift.
    while left > 0 {
        let step = left.min(11);
        rest = (rest << step) % divisor;
        left -= step;
    }
    rest
}

// The remainder by divisor * 2^shift, which is the digits themselves where they are below that.
fn by_shifted(digits: u64, divisor: u64, shift: u64) -> u64
    requires few_digits { digits < 2 ^ 53 }
    requires divisor_not_zero { 0 < divisor }
    ensures { result ≡ digits % (divisor * 2 ^ shift) }
{
    if shift >= 53 {
        return digits;
    }
    if digits >> shift < divisor {
        digits
    } else {
        digits % (divisor << shift)
    }
}

// The remainder of two sizes, with a sign.
fn of_sizes(negative: bool, digits: u64, lift: u64, divisor: u64, divisor_lift: u64) -> f64
    requires few_digits { digits < 2 ^ 53 }
    requires lift_in_range { lift < 2046 }
    requires divisor_not_zero { 0 < divisor }
    requires divisor_few_digits { divisor < 2 ^ 53 }
    requires divisor_lift_in_range { divisor_lift < 2046 }
    ensures { result ≡ Ieee.round binary64 negative (digits * 2 ^ lift % (divisor * 2 ^ divisor_lift)) (2 ^ 1074) }
{
    if lift < divisor_lift {
        scaled(
            negative,
            by_shifted(digits, divisor, divisor_lift - lift),
            lift,
        )
    } else {
        scaled(
            negative,
            shifted_by(digits, lift - divisor_lift, divisor),
            divisor_lift,
        )
    }
}

// Rust's `x % y` of floats, C's fmod: exact, with x's sign.
pub fn remainder(x: f64, y: f64) -> f64
    ensures { result ≡ Ieee.rem binary64 x y }
{
    if x.is_nan() {
        return x;
    }
    if y.is_nan() {
        return y;
    }
    let x_bits = f64::to_bits(x);
    let x_field = (x_bits & REST) >> 52;
    if x_field == NO_NUMBER {
        return x - x;
    }
    let y_bits = f64::to_bits(y);
    let y_field = (y_bits & REST) >> 52;
    if y_field == NO_NUMBER {
        return x;
    }
    let divisor = digits_of(y_bits);
    if divisor == 0 {
        return y / y;
    }
    of_sizes(
        x_bits >= SIGN,
        digits_of(x_bits),
        x_field.saturating_sub(1),
        divisor,
        y_field.saturating_sub(1),
    )
}

#[cfg(test)]
mod tests {
    use super::remainder;

    #[test]
    fn signs_and_small_numbers(rt: HostRuntime) {
        assert_eq!(rt; remainder(5.5, -2.0), 1.5);
        assert_eq!(rt; remainder(-7.0, 3.0), -1.0);
        assert_eq!(rt; remainder(0.3, 0.1), 0.09999999999999998);
        assert_eq!(rt; remainder(1e308, 3e-300), 1.8611771046241086e-300);
        assert!(rt; 1.0 / remainder(-6.0, 3.0) < 0.0);
    }
}
