// The tests of a list's pairs, the size of their file, and the file's parts, written.
ghost use Rattle.std.specs.Prelude.{◌≡◌, ◌+◌, ◌<◌, ◌≤◌, cond, length};
ghost use Rattle.std.specs.List.{list_all};
ghost use Rattle.big_endian.specs.Bytes.{put};
ghost use Rattle.midi_file.specs.Layout.{micros, tempo_of, event, track, head, file};
ghost use Rattle.midi_file.specs.Refusal.{good_tempo, good_origins};
ghost use Rattle.midi_writer.specs.Steps.{delta_of, Fits};

use super::{EMPTY_FILE, vlq};
use midi_file::{HEADS, TempoChange};

const MOST_TEMPO: i64 = 16_777_215;

// The most micro-beats that a beat origin may lie after its forerunner.
const FARTHEST: u64 = 268_435_455_000;

// The sizes of a pair's two numbers; none that is written is below 0. A function for each, since the two are of two types.
fn micros_per_beat(change: &TempoChange) -> u64
    ensures { result ≡ tempo_of change.now }
{
    change.tempo.0.unsigned_abs()
}

fn micros(change: &TempoChange) -> u64
    ensures { result ≡ micros change.now }
{
    change.beat_origin.0.unsigned_abs()
}

#[tactic(auto, unfolding(midi_file::specs::Refusal::good_tempo))]
fn is_good_tempo(change: &TempoChange) -> bool
    ensures { result ≡ good_tempo change.now }
{
    1 <= change.tempo.0 && change.tempo.0 <= MOST_TEMPO
}

// The ticks from a beat to a pair's beat origin, where that origin is not refused.
fn ticks_after(before: u64, change: &TempoChange) -> Option<u32>
    ensures { result ≡ delta_of before change.now }
{
    let Ok(origin) = u64::try_from(change.beat_origin.0) else {
        return None;
    };
    let gap = origin.checked_sub(before)?;
    if gap <= FARTHEST && origin % 1000 == 0 {
        Some((gap / 1000) as u32)
    } else {
        None
    }
}

// Whether each tempo is from 1 to 16,777,215.
pub(crate) fn has_good_tempos(changes: &[TempoChange]) -> bool
    ensures { result ≡ list_all good_tempo changes.now }
{
    changes.iter().all(is_good_tempo)
}

// The size of the pairs' file, where no beat origin is refused.
pub(crate) fn file_size(changes: &[TempoChange]) -> Option<usize>
    requires { length changes.now ≤ 64 }
    ensures { result ≡ cond (good_origins 0 changes.now) (Some (length (file changes.now))) None }
{
    let mut size = EMPTY_FILE;
    let mut forerunner: u64 = 0;
    for change in changes {
        let delta = ticks_after(forerunner, change)?;
        let origin = micros(change);
        size += 6 + vlq::width(delta);
        forerunner = origin;
    }
    Some(size)
}

// Writes the header chunk, and the head of a track chunk of this length.
pub(crate) fn write_head(part: &mut [u8], track_size: u32)
    requires { 22 ≤ length part.old }
    ensures { part.new ≡ put 0 (head track_size) part.old }
{
    big_endian::write::<u32>(part, 0, 0x4d54_6864);
    big_endian::write::<u32>(part, 4, 6);
    big_endian::write::<u32>(part, 8, 1);
    big_endian::write::<u16>(part, 12, 1000);
    big_endian::write::<u32>(part, 14, 0x4d54_726b);
    big_endian::write::<u32>(part, 18, track_size);
}

// Writes a tempo event; gives the place after it.
fn write_event(part: &mut [u8], at: usize, delta: u32, tempo: u32) -> usize
    requires delta_bound { delta < 268435456 }
    requires tempo_bound { tempo < 16777216 }
    requires tempo_in_bounds { at + length (event delta tempo) ≤ length part.old }
    ensures { (part.new ≡ put at (event delta tempo) part.old) × (result ≡ at + length (event delta tempo)) }
{
    let next = vlq::write(part, at, delta);
    big_endian::write::<u16>(part, next, 0xff51);
    big_endian::write::<u32>(part, next + 2, 0x0300_0000 + tempo);
    next + 6
}

// Writes the events and the end of track.
pub(crate) fn write_track(part: &mut [u8], changes: &[TempoChange])
    requires { Fits changes.now part.old }
    ensures { part.new ≡ put 22 (track changes.now) part.old }
{
    let mut at = HEADS;
    let mut forerunner: u64 = 0;
    for change in changes {
        let delta = ticks_after(forerunner, change).unwrap();
        at = write_event(part, at, delta, micros_per_beat(change) as u32);
        forerunner = micros(change);
    }
    big_endian::write::<u32>(part, at, 0x00ff_2f00);
}
