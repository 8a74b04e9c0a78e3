// Signed decimal numbers of 64 bits.
ghost use Rattle.std.specs.Prelude.{cond, ◌≡◌, pos, neg_ℤ};
ghost use Rattle.text.specs.Digits.{value};
ghost use Rattle.tempo_text.specs.Answer.{is_size, number};

// The size of the smallest number, which no other number passes.
const MOST: u64 = 0x8000_0000_0000_0000;

pub(crate) fn number_of(word: &[u8]) -> Option<i64>
    ensures { result ≡ number word.now }
{
    match word.strip_prefix(b"-") {
        Some(digits) => negative(digits),
        None => nonnegative(word),
    }
}

fn negative(digits: &[u8]) -> Option<i64>
    ensures { result ≡ cond (is_size 9_223_372_036_854_775_808 digits.now) (Some (neg_ℤ (pos (value digits.now)))) None }
{
    0i64.checked_sub_unsigned(size_of(digits)?)
}

fn nonnegative(digits: &[u8]) -> Option<i64>
    ensures { result ≡ cond (is_size 9_223_372_036_854_775_807 digits.now) (Some (pos (value digits.now))) None }
{
    let size = size_of(digits)?;
    let fits = size < MOST;
    if fits {
        Some(signed::as_i64(size))
    } else {
        None
    }
}

// What one or more digits say, where it fits.
fn size_of(word: &[u8]) -> Option<u64>
    ensures { result ≡ cond (is_size 18_446_744_073_709_551_615 word.now) (Some (value word.now)) None }
{
    if word.is_empty() || !text::are_digits(word) {
        return None;
    }
    let mut n = 0u64;
    for digit in word {
        n = n.checked_mul(10)?.checked_add(text::digit_value(*digit))?;
    }
    Some(n)
}
