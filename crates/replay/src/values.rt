// First bytes 10 to 1b: the methods of the crates time and timeline. Each function reads a record's fields, puts the answer
// at the front of `out` and tells how many bytes it has.
ghost use Rattle.std.specs.Prelude.{◌≤◌};

use crate::fields;
use time::{MicroBeats, Tempo, TempoWire};
use timeline::{SessionState, StartStopState, Timeline};

pub(crate) fn answer(first: u8, s: &[u8], out: &mut [u8]) -> usize
    ensures { result ≤ 41 }
{
    match first {
        0x10..=0x14 => convert(first, s, out),
        _ => on_state(first, state(s), s, out),
    }
}

// 10 to 14: the counters and tempos.
fn convert(first: u8, s: &[u8], out: &mut [u8]) -> usize
    ensures { result ≤ 8 }
{
    match first {
        0x10 => fields::put_i64(out, 0, MicroBeats::from_beats(fields::float(s, 0)).0),
        0x11 => fields::put_float(out, 0, MicroBeats(big_endian::read::<i64>(s, 0)).to_beats()),
        0x12 => fields::put_i64(out, 0, TempoWire::from_tempo(Tempo(fields::float(s, 0))).0),
        0x13 => fields::put_float(
            out,
            0,
            TempoWire(big_endian::read::<i64>(s, 0)).to_tempo().0,
        ),
        _ => fields::put_float(out, 0, Tempo(fields::float(s, 0)).micros_per_beat()),
    }
}

// The 41 bytes of a state at the front of a record, as `fields::state` reads them anywhere. With this one caller the compiler
// puts it there and keeps the fields in registers; read into memory, each copy of the state waited for the stores before it.
fn state(s: &[u8]) -> SessionState {
    SessionState {
        timeline: Timeline {
            tempo: TempoWire(big_endian::read::<i64>(s, 0)),
            beat_origin: MicroBeats(big_endian::read::<i64>(s, 8)),
            time_origin: fields::time(s, 16),
        },
        start_stop: StartStopState {
            is_playing: fields::flag(s, 24),
            beat: MicroBeats(big_endian::read::<i64>(s, 25)),
            time: fields::time(s, 33),
        },
    }
}

// 15 to 1b: what a state says of a time or a beat, and the state after a change.
fn on_state(first: u8, state: SessionState, s: &[u8], out: &mut [u8]) -> usize
    ensures { result ≤ 41 }
{
    match first {
        0x15 => {
            let time = fields::time(s, 41);
            fields::put_float(out, 0, state.beat_at_time(time, fields::float(s, 49)))
        }
        0x16 => {
            let time = fields::time(s, 41);
            fields::put_float(out, 0, state.phase_at_time(time, fields::float(s, 49)))
        }
        0x17 => {
            let beat = fields::float(s, 41);
            fields::put_i64(out, 0, state.time_at_beat(beat, fields::float(s, 49)).0)
        }
        _ => fields::put_state(out, 0, changed(first, state, s)),
    }
}

// 18 to 1b.
fn changed(first: u8, state: SessionState, s: &[u8]) -> SessionState {
    match first {
        0x18 => state.request_beat_at_time(
            fields::time(s, 41),
            fields::float(s, 49),
            fields::float(s, 57),
        ),
        0x19 => state.force_beat_at_time(fields::time(s, 41), fields::float(s, 49)),
        0x1a => state.set_tempo(fields::float(s, 41), fields::time(s, 49)),
        _ => state.set_is_playing(fields::flag(s, 41), fields::time(s, 42)),
    }
}
