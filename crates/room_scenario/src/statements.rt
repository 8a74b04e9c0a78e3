// The statements of a scenario. A statement's words are read one after the other, and the first fault ends it.
ghost use Rattle.std.specs.Prelude.{◌≡◌};
ghost use Rattle.room_scenario.specs.Text.{words, spaced};
ghost use Rattle.room_scenario.specs.Grammar.{delay_line, box_line, at_line, end_line, statement};
ghost use Rattle.room_scenario.specs.Fields.{script};
ghost use Rattle.room_scenario.specs.Inner.Fields.{line_of};

use crate::draft::{Draft, MOST_EVENTS};
use crate::{BoxLine, Event, Fault, fields, words};

const MOST_DELAY: u64 = 100_000;

const MOST_SHIFT: u64 = 100_000_000_000_000;

// In milliseconds.
const MOST_TIME: u64 = 600_000;

// One line. What follows `#` is not read.
pub(crate) fn statement(draft: Draft, line: &[u8]) -> Result<Draft, Fault>
    ensures { line_of result ≡ statement (script draft) (words line.now) }
{
    let (said, _) = line.split_at(text::find(line, 0, b'#'));
    let (word, rest) = words::next_word(said);
    if word.is_empty() {
        Ok(draft)
    } else if word == b"delay".as_slice() {
        delay(draft, rest)
    } else if word == b"box".as_slice() {
        declaration(draft, rest)
    } else if word == b"at".as_slice() {
        event(draft, rest)
    } else if word == b"end".as_slice() {
        end_of_run(draft, rest)
    } else {
        Err(Fault::UnknownStatement)
    }
}

// `delay N`
fn delay(mut draft: Draft, line: &[u8]) -> Result<Draft, Fault>
    ensures { line_of result ≡ delay_line (script draft) (spaced line.now) }
{
    let (delay, rest) = fields::number_at(line, 0, MOST_DELAY)?;
    fields::at_end(rest)?;
    draft.delay = delay;
    Ok(draft)
}

// `box X shift N` and `box X shift N ports M`
fn declaration(draft: Draft, line: &[u8]) -> Result<Draft, Fault>
    ensures { line_of result ≡ box_line (script draft) (spaced line.now) }
{
    let (name, rest) = fields::letter_at(line)?;
    if draft.find_box(name).is_some() {
        return Err(Fault::BoxThereAlready);
    }
    let rest = fields::keyword_at(rest, b"shift")?;
    let (shift, rest) = fields::number_at(rest, 0, MOST_SHIFT)?;
    let (ports, rest) = fields::ports_at(rest)?;
    fields::at_end(rest)?;
    Ok(draft.with_box(BoxLine { name, shift, ports }))
}

// `at T on X` and its like
fn event(draft: Draft, line: &[u8]) -> Result<Draft, Fault>
    ensures { line_of result ≡ at_line (script draft) (spaced line.now) }
{
    let (time, rest) = fields::number_at(line, 0, MOST_TIME)?;
    let (verb, rest) = fields::verb_at(rest)?;
    let (name, rest) = fields::letter_at(rest)?;
    let number = draft.find_box(name).ok_or(Fault::NoSuchBox)?;
    let (action, rest) = fields::action_at(rest, verb)?;
    fields::at_end(rest)?;
    if draft.event_count >= MOST_EVENTS {
        return Err(Fault::TooManyEvents);
    }
    let time = time * 1000;
    Ok(draft.with_event(Event {
        time,
        number,
        action,
    }))
}

// `end T`
fn end_of_run(mut draft: Draft, line: &[u8]) -> Result<Draft, Fault>
    ensures { line_of result ≡ end_line (script draft) (spaced line.now) }
{
    let (time, rest) = fields::number_at(line, 0, MOST_TIME)?;
    fields::at_end(rest)?;
    if draft.end.is_some() {
        return Err(Fault::SecondEnd);
    }
    draft.end = Some(time * 1000);
    Ok(draft)
}
