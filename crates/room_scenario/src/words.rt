// The words of a line, read from left to right.
ghost use Rattle.std.specs.Prelude.{◌≡◌};
ghost use Rattle.room_scenario.specs.Fields.{spaces, NextWord};

// The first word of a line, and the line behind it. Where no word is left, both are empty.
pub(crate) fn next_word(line: &[u8]) -> (&[u8], &[u8])
    ensures { NextWord line.now result.0.now result.1.now }
{
    let (_, begun) = line.split_at(spaces(line));
    let end = text::find(begun, 0, b' ');
    begun.split_at(end)
}

// How many spaces a line begins with.
fn spaces(line: &[u8]) -> usize
    ensures { result ≡ spaces line.now }
{
    line.iter().take_while(|byte| **byte == b' ').count()
}
