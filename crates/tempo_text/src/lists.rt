// The lines of a tempo list, each a tempo and a beat origin with a space between them.
ghost use Rattle.std.specs.Prelude.{◌≡◌, ◌+◌, ◌<◌, set};
ghost use Rattle.text.specs.Lines.{lines};
ghost use Rattle.tempo_text.specs.Answer.{pair, listed};
ghost use Rattle.tempo_text.specs.Values.{Holds};

use crate::numbers::number_of;
use midi_file::{MOST, TempoChange, TempoList};
use time::{MicroBeats, TempoWire};

// The number of the first line that is no pair.
#[derive(Clone, Copy)]
pub(crate) struct BadLine(pub usize);

// The pairs of all lines. A list counts on past 64 pairs, of which it keeps the first.
pub(crate) fn read_lines(input: &[u8]) -> Result<TempoList, BadLine>
    ensures { Holds (listed 1 (lines input.now)) result }
{
    let mut list = midi_file::no_pairs();
    let mut at = 0;
    // From line to line: `find` gives the next place, and no index is counted.
    while at < input.len() {
        let end = text::find(input, at, b'\n');
        let Some(change) = pair_of(&input[at..end]) else {
            let line = list.count + 1;
            return Err(BadLine(line));
        };
        list = with_pair(list, change);
        at = end + 1;
    }
    Ok(list)
}

// By value: lent as `&mut` the goal past the 64th place stays open.
fn with_pair(mut list: TempoList, change: TempoChange) -> TempoList
    requires { list.count < 18_446_744_073_709_551_615 }
    ensures { result ≡ record { changes = set list.changes list.count change; count = list.count + 1 } }
{
    if list.count < MOST {
        list.changes[list.count] = change;
    }
    list.count += 1;
    list
}

// The tempo stands before the first space, the beat origin after it.
fn pair_of(line: &[u8]) -> Option<TempoChange>
    ensures { result ≡ pair line.now }
{
    let space = text::find(line, 0, b' ');
    if space == line.len() {
        return None;
    }
    let tempo = number_of(&line[..space])?;
    let beat_origin = number_of(&line[space + 1..])?;
    Some(TempoChange {
        tempo: TempoWire(tempo),
        beat_origin: MicroBeats(beat_origin),
    })
}
