// The reader of tempo lists: the pairs of a file that the writer can have written.
// It goes by the definitions of `midi_file`, and has none of its own but for its steps.
#![tactic(auto)]

mod reading;
mod vlq;

ghost use Rattle.std.specs.Prelude.{◌≡◌};
ghost use Rattle.midi_file.specs.Reading.{read_file};
ghost use Rattle.midi_file.specs.Answers.{as_read, read_answer};

use midi_file::{Refusal, TempoList};

// Reads the pairs of a file that `write` can have written. The slice is the whole file; any other is refused as `NotSuchAFile`.
pub fn read(file: &[u8]) -> Result<TempoList, Refusal>
    ensures { as_read result ≡ read_answer (read_file file.now) }
{
    if reading::has_head(file) {
        reading::read_track(file)
    } else {
        Err(Refusal::NotSuchAFile)
    }
}
