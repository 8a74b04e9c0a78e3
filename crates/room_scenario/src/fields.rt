// The words of a statement. Each function reads what stands at the front of a line, and gives what it says with the line behind it.
ghost use Rattle.std.specs.Prelude.{◌≡◌, false, List, [], ℕ, ◌≤◌, IfOk};
ghost use Rattle.room_scenario.specs.Text.{spaced, same_word};
ghost use Rattle.room_scenario.specs.Grammar.{Line, number_then, letter_then, keyword_then, at_end, verb_then, ports_then, action_then};
ghost use Rattle.room_scenario.specs.Grammar.{Verb as Grammar·Verb};
ghost use Rattle.room_scenario.specs.declared.Action.{Action};
ghost use Rattle.room_scenario.specs.Fields.{read_then};
ghost use Rattle.room_scenario.specs.Inner.Verbs.{verb_of};

use crate::verbs::Verb;
use crate::{Action, Fault, letters, numbers, verbs, words};

const LEAST_TEMPO: u64 = 20;

const MOST_TEMPO: u64 = 999;

const MOST_PORTS: u64 = 4;

// Behind a statement no word is left.
pub(crate) fn at_end(line: &[u8]) -> Result<(), Fault>
    ensures { (l : Line) → read_then result (λ _. l) ≡ at_end (spaced line.now) l }
{
    let (word, _) = words::next_word(line);
    if word.is_empty() {
        Ok(())
    } else {
        Err(Fault::UnexpectedWord)
    }
}

// A word that has to stand here, and is not empty.
pub(crate) fn keyword_at<'a>(line: &'a [u8], keyword: &[u8]) -> Result<&'a [u8], Fault>
    requires { same_word [] keyword.now ≡ false }
    ensures { (go : List (List ℕ) → Line) → read_then result (λ rest. go (spaced rest.now)) ≡ keyword_then keyword.now (spaced line.now) go }
{
    let (word, rest) = words::next_word(line);
    if word == keyword {
        Ok(rest)
    } else {
        Err(Fault::UnknownStatement)
    }
}

// A number from `least` to `most`.
pub(crate) fn number_at(line: &[u8], least: u64, most: u64) -> Result<(u64, &[u8]), Fault>
    ensures value_le_most { IfOk result (λ read. read.0 ≤ most) }
    ensures says { (go : ℕ → List (List ℕ) → Line) → read_then result (λ read. go read.0 (spaced read.1.now))
        ≡ number_then least most (spaced line.now) go }
{
    let (word, rest) = words::next_word(line);
    let number = numbers::number_of(word, least, most)?;
    Ok((number, rest))
}

// A box's letter.
pub(crate) fn letter_at(line: &[u8]) -> Result<(u8, &[u8]), Fault>
    ensures { (go : ℕ → List (List ℕ) → Line) → read_then result (λ read. go read.0 (spaced read.1.now)) ≡ letter_then (spaced line.now) go }
{
    let (word, rest) = words::next_word(line);
    let name = letters::letter_of(word)?;
    Ok((name, rest))
}

// What happens to the box.
pub(crate) fn verb_at(line: &[u8]) -> Result<(Verb, &[u8]), Fault>
    ensures { (go : Grammar·Verb → List (List ℕ) → Line) → read_then result (λ read. go (verb_of read.0) (spaced read.1.now))
        ≡ verb_then (spaced line.now) go }
{
    let (word, rest) = words::next_word(line);
    let verb = verbs::verb_of(word)?;
    Ok((verb, rest))
}

// The same with the beats a minute, which a tempo and a preview have.
pub(crate) fn action_at(line: &[u8], verb: Verb) -> Result<(Action, &[u8]), Fault>
    ensures { (go : Action → List (List ℕ) → Line) → read_then result (λ read. go read.0 (spaced read.1.now))
        ≡ action_then (verb_of verb) (spaced line.now) go }
{
    match verb {
        Verb::Plain(action) => Ok((action, line)),
        Verb::Tempo => {
            let (bpm, rest) = number_at(line, LEAST_TEMPO, MOST_TEMPO)?;
            Ok((Action::Tempo(bpm), rest))
        }
        Verb::Preview => {
            let (bpm, rest) = number_at(line, LEAST_TEMPO, MOST_TEMPO)?;
            Ok((Action::Preview(bpm), rest))
        }
    }
}

// How many ports: 1 where it is not said.
pub(crate) fn ports_at(line: &[u8]) -> Result<(u64, &[u8]), Fault>
    ensures { (go : ℕ → List (List ℕ) → Line) → read_then result (λ read. go read.0 (spaced read.1.now)) ≡ ports_then (spaced line.now) go }
{
    let (word, _) = words::next_word(line);
    if word.is_empty() {
        return Ok((1, line));
    }
    let rest = keyword_at(line, b"ports")?;
    number_at(rest, 1, MOST_PORTS)
}
