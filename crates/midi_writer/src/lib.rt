// The writer of tempo lists: a list's file, written to the front of a part.
// It goes by the definitions of `midi_file`, and has none of its own but for its steps.
#![tactic(auto)]

mod vlq;
mod writing;

ghost use Rattle.std.specs.Prelude.{◌≡◌};
ghost use Rattle.std.specs.Result.{result_unwrap_or};
ghost use Rattle.big_endian.specs.Written.{as_written};
ghost use Rattle.midi_file.specs.Answers.{answer_number, filed, filed_size};

use midi_file::{HEADS, Refusal, TempoList};

// The size of a file of no pairs.
const EMPTY_FILE: usize = 26;

// Writes the list's file to the front of the part, and answers its size. All tempos are tested before any beat origin, and both before the room.
pub fn write(list: TempoList, part: &mut [u8]) -> Result<usize, Refusal>
    ensures part_after { as_written (answer_number result) part.new ≡ filed list part.old }
    ensures size { result_unwrap_or result 0 ≡ filed_size list (answer_number result) }
{
    let Some(changes) = list.pairs() else {
        return Err(Refusal::BadTempo);
    };
    if !writing::has_good_tempos(changes) {
        return Err(Refusal::BadTempo);
    }
    let Some(size) = writing::file_size(changes) else {
        return Err(Refusal::BadBeatOrigin);
    };
    if part.len() < size {
        return Err(Refusal::PartTooSmall);
    }
    writing::write_head(part, (size - HEADS) as u32);
    writing::write_track(part, changes);
    Ok(size)
}
