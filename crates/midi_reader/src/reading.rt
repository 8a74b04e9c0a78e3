// A file's head and events, read.
ghost use Rattle.std.specs.Prelude.{◌&&◌, ◌≡◌, ◌*◌, ◌^◌, ◌<◌, ◌≤◌, eqb, ltb, length, drop};
ghost use Rattle.midi_file.specs.Reading.{is_end, has_header, has_track_head, has_head, change, read_events};
ghost use Rattle.midi_file.specs.Answers.{as_read, read_answer};
ghost use Rattle.midi_reader.specs.Steps.{event_found};

use super::vlq;
use super::vlq::Quantity;
use midi_file::{HEADS, MOST, Refusal, TempoChange, TempoList, no_pairs};
use time::{MicroBeats, TempoWire};

// A tempo event: the ticks since the one before, the tempo, and of how many bytes it is.
#[derive(Clone, Copy)]
struct TempoEvent {
    delta: u32,
    tempo: u32,
    size: usize,
}

// Whether the slice begins with the header chunk.
#[tactic(auto, unfolding(midi_file::specs::Reading::has_header))]
fn has_header(file: &[u8]) -> bool
    ensures { result ≡ has_header file.now }
{
    big_endian::read::<u32>(file, 0) == 0x4d54_6864
        && big_endian::read::<u32>(file, 4) == 6
        && big_endian::read::<u32>(file, 8) == 1
        && big_endian::read::<u16>(file, 12) == 1000
}

// Whether a track chunk that counts all that follows stands after the header.
#[tactic(auto, unfolding(midi_file::specs::Reading::has_track_head))]
fn has_track_head(file: &[u8]) -> bool
    ensures { result ≡ has_track_head file.now }
{
    let size = big_endian::read::<u32>(file, 18) as usize;
    big_endian::read::<u32>(file, 14) == 0x4d54_726b && 0 < size && size + HEADS == file.len()
}

#[tactic(auto, unfolding(midi_file::specs::Reading::has_head))]
pub(crate) fn has_head(file: &[u8]) -> bool
    ensures { result ≡ has_head file.now }
{
    has_header(file) && has_track_head(file)
}

// Whether an end of track with delta 0 is all that is left.
#[tactic(auto, unfolding(midi_file::specs::Reading::is_end))]
fn is_end(rest: &[u8]) -> bool
    ensures { result ≡ is_end rest.now }
{
    rest.len() == 4 && big_endian::read::<u32>(rest, 0) == 0x00ff_2f00
}

// Whether what stands behind a delta is a tempo: FF 51, and 03 with 24 bits that are not 0.
fn is_tempo(kind: u16, event: u32) -> bool
    ensures { result ≡ eqb kind 0xff51 && (ltb 0x0300_0000 event && ltb event 0x0400_0000) }
{
    kind == 0xff51 && 0x0300_0000 < event && event < 0x0400_0000
}

// The tempo event in front of a track's rest, where there is one.
fn tempo_event(rest: &[u8]) -> Option<TempoEvent>
    ensures { result ≡ event_found rest.now }
{
    let Quantity { value, size } = vlq::read(rest)?;
    let kind = big_endian::read::<u16>(rest, size);
    let event = big_endian::read::<u32>(rest, size + 2);
    if is_tempo(kind, event) {
        Some(TempoEvent {
            delta: value,
            tempo: event - 0x0300_0000,
            size: size + 6,
        })
    } else {
        None
    }
}

// A pair, at a tick.
#[tactic(auto, unfolding(midi_file::specs::Reading::change))]
fn at_tick(tempo: u32, tick: u64) -> TempoChange
    requires { 1000 * tick < 2 ^ 63 }
    ensures { result ≡ change tempo tick }
{
    TempoChange {
        tempo: TempoWire(i64::from(tempo)),
        beat_origin: MicroBeats((1000 * tick) as i64),
    }
}

// The events after the head, up to an end of track with nothing after it.
pub(crate) fn read_track(file: &[u8]) -> Result<TempoList, Refusal>
    requires { 22 ≤ length file.now }
    ensures { as_read result ≡ read_answer (read_events 64 0 (drop 22 file.now)) }
{
    let mut list = no_pairs();
    let mut rest = &file[HEADS..];
    let mut tick: u64 = 0;
    // Each event tells how long it is, so no range of places is known beforehand.
    while !is_end(rest) {
        let Some(event) = tempo_event(rest) else {
            return Err(Refusal::NotSuchAFile);
        };
        let is_full = list.count == MOST;
        if is_full {
            return Err(Refusal::NotSuchAFile);
        }
        tick += u64::from(event.delta);
        list.changes[list.count] = at_tick(event.tempo, tick);
        list.count += 1;
        rest = &rest[event.size..];
    }
    Ok(list)
}
