// The decimal numbers of a scenario.
ghost use Rattle.std.specs.Prelude.{◌≡◌, true, ◌≤◌, length, IfOk};
ghost use Rattle.text.specs.Digits.{all_digits, value};
ghost use Rattle.room_scenario.specs.Fields.{number_or_missing};
ghost use Rattle.room_scenario.specs.Inner.Fields.{WordSays};

use crate::Fault;

// The most digits that a number may have.
const MOST_DIGITS: usize = 15;

// An empty word is none.
pub(crate) fn number_of(word: &[u8], least: u64, most: u64) -> Result<u64, Fault>
    ensures value_le_most { IfOk result (λ n. n ≤ most) }
    ensures word_says { WordSays (λ n. n) (number_or_missing least most word.now) result }
{
    if word.is_empty() {
        return Err(Fault::NumberMissing);
    }
    if !text::are_digits(word) {
        return Err(Fault::NotANumber);
    }
    if word.len() > MOST_DIGITS {
        return Err(Fault::NumberTooLarge);
    }
    let number = value(word);
    if number > most {
        Err(Fault::NumberTooLarge)
    } else if number < least {
        Err(Fault::NumberTooSmall)
    } else {
        Ok(number)
    }
}

// What the digits say, from the first to the last.
fn value(word: &[u8]) -> u64
    requires word_len_bound { length word.now ≤ 15 }
    requires word_value { all_digits word.now ≡ true }
    ensures { result ≡ value word.now }
{
    let mut number = 0;
    for byte in word {
        number = number * 10 + text::digit_value(*byte);
    }
    number
}
