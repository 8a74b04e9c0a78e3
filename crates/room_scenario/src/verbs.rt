// What happens to a box: the words for it.
ghost use Rattle.room_scenario.specs.Grammar.{verb_word_then};
ghost use Rattle.room_scenario.specs.Inner.Verbs.{verb_of};
ghost use Rattle.room_scenario.specs.Inner.Fields.{WordSays};

use crate::{Action, Fault};

// Behind the box of a tempo and of a preview stand the beats a minute.
#[derive(Clone, Copy)]
pub(crate) enum Verb {
    Plain(Action),
    Tempo,
    Preview,
}

// What the word says.
pub(crate) fn verb_of(word: &[u8]) -> Result<Verb, Fault>
    ensures { WordSays verb_of (verb_word_then word.now) result }
{
    if word == b"on".as_slice() {
        Ok(Verb::Plain(Action::On))
    } else if word == b"off".as_slice() {
        Ok(Verb::Plain(Action::Off))
    } else if word == b"silent".as_slice() {
        Ok(Verb::Plain(Action::Silent))
    } else if word == b"heard".as_slice() {
        Ok(Verb::Plain(Action::Heard))
    } else if word == b"tempo".as_slice() {
        Ok(Verb::Tempo)
    } else if word == b"preview".as_slice() {
        Ok(Verb::Preview)
    } else {
        Err(Fault::UnknownStatement)
    }
}
