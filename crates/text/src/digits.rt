// The digits of a decimal number.
ghost use Rattle.std.specs.Prelude.{◌≡◌, ◌-◌};
ghost use Rattle.text.specs.Digits.{all_digits};

// Whether every byte is a digit; an empty word has none that is not.
#[tactic(auto, unfolding(crate::specs::Digits::all_digits))]
pub fn are_digits(word: &[u8]) -> bool
    ensures { result ≡ all_digits word.now }
{
    word.iter().all(|byte| byte.is_ascii_digit())
}

// What a digit says; a byte below `0` says 0.
pub fn digit_value(byte: u8) -> u64
    ensures { result ≡ byte - 48 }
{
    byte.saturating_sub(b'0') as u64
}
