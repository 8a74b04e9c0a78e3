// The letters of boxes.
ghost use Rattle.room_scenario.specs.Fields.{letter_or_missing};
ghost use Rattle.room_scenario.specs.Inner.Fields.{WordSays};

use crate::Fault;

// An empty word is none.
pub(crate) fn letter_of(word: &[u8]) -> Result<u8, Fault>
    ensures { WordSays (λ n. n) (letter_or_missing word.now) result }
{
    match word {
        [] => Err(Fault::BoxMissing),
        [name @ b'A'..=b'P'] => Ok(*name),
        _ => Err(Fault::NotABox),
    }
}
