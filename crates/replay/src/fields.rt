// The fields of records and answers. Every number is big-endian. What reads past the end is 0 or empty, and what does not fit
// is not put.
ghost use Rattle.std.specs.Prelude.{◌≡◌, ◌+◌, ◌≤◌, ◌<◌};

use time::{HostTime, MicroBeats, TempoWire};
use timeline::{SessionState, StartStopState, Timeline};

// Every NaN is written as this one.
const NAN: u64 = 0x7ff8_0000_0000_0000;

const INFINITY: u64 = 0x7ff0_0000_0000_0000;

pub(crate) fn byte(s: &[u8], at: usize) -> u8 {
    s.get(at).copied().unwrap_or(0)
}

pub(crate) fn flag(s: &[u8], at: usize) -> bool {
    byte(s, at) != 0
}

// The place behind an optional field of `width` bytes: a byte 0, or another byte and the field.
pub(crate) fn past_optional(s: &[u8], at: usize, width: usize) -> usize
    requires at_bound { at < 65536 }
    requires width_bound { width < 65536 }
    ensures { result ≤ at + 1 + width }
{
    if flag(s, at) { at + 1 + width } else { at + 1 }
}

// The bytes behind a length at `at`, which go on to the record's end.
pub(crate) fn counted(s: &[u8], at: usize) -> &[u8]
    requires { at < 65536 }
{
    s.get(at + 2..).unwrap_or(&[])
}

pub(crate) fn time(s: &[u8], at: usize) -> HostTime {
    HostTime(big_endian::read::<i64>(s, at))
}

pub(crate) fn float(s: &[u8], at: usize) -> f64 {
    float_of(big_endian::read::<u64>(s, at))
}

// The float of these bits. Its sign aside, a NaN's bits are above an infinity's.
fn float_of(bits: u64) -> f64 {
    if bits % 0x8000_0000_0000_0000 > INFINITY {
        f64::NAN
    } else {
        f64::from_bits(bits)
    }
}

fn bits_of(x: f64) -> u64 {
    if x.is_nan() { NAN } else { x.to_bits() }
}

// The 24 bytes of a line, from `at` on.
pub(crate) fn line(s: &[u8], at: usize) -> Timeline
    requires { at < 65536 }
{
    Timeline {
        tempo: TempoWire(big_endian::read::<i64>(s, at)),
        beat_origin: MicroBeats(big_endian::read::<i64>(s, at + 8)),
        time_origin: time(s, at + 16),
    }
}

// The 17 bytes of a start or stop, from `at` on.
pub(crate) fn start_stop(s: &[u8], at: usize) -> StartStopState
    requires { at < 65536 }
{
    StartStopState {
        is_playing: flag(s, at),
        beat: MicroBeats(big_endian::read::<i64>(s, at + 1)),
        time: time(s, at + 9),
    }
}

// The 41 bytes of a state, from `at` on.
pub(crate) fn state(s: &[u8], at: usize) -> SessionState
    requires { at < 65000 }
{
    SessionState {
        timeline: line(s, at),
        start_stop: start_stop(s, at + 24),
    }
}

// Each of these puts a value at `at` and answers the place behind it. `out` and `at` are no struct: each function bounds `at` by what is
// still to be put, and would bound a field of it the same.
pub(crate) fn put_u8(out: &mut [u8], at: usize, x: u8) -> usize
    requires { at < 65536 }
    ensures { result ≡ at + 1 }
{
    big_endian::write::<u8>(out, at, x);
    at + 1
}

pub(crate) fn put_u32(out: &mut [u8], at: usize, x: u32) -> usize
    requires { at < 65536 }
    ensures { result ≡ at + 4 }
{
    big_endian::write::<u32>(out, at, x);
    at + 4
}

pub(crate) fn put_i64(out: &mut [u8], at: usize, x: i64) -> usize
    requires { at < 65536 }
    ensures { result ≡ at + 8 }
{
    big_endian::write::<i64>(out, at, x);
    at + 8
}

pub(crate) fn put_float(out: &mut [u8], at: usize, x: f64) -> usize
    requires { at < 65536 }
    ensures { result ≡ at + 8 }
{
    big_endian::write::<u64>(out, at, bits_of(x));
    at + 8
}

pub(crate) fn put_line(out: &mut [u8], at: usize, line: Timeline) -> usize
    requires { at < 65536 }
    ensures { result ≡ at + 24 }
{
    big_endian::write::<i64>(out, at, line.tempo.0);
    big_endian::write::<i64>(out, at + 8, line.beat_origin.0);
    big_endian::write::<i64>(out, at + 16, line.time_origin.0);
    at + 24
}

pub(crate) fn put_start_stop(out: &mut [u8], at: usize, start_stop: StartStopState) -> usize
    requires { at < 65536 }
    ensures { result ≡ at + 17 }
{
    big_endian::write::<u8>(out, at, start_stop.is_playing as u8);
    big_endian::write::<i64>(out, at + 1, start_stop.beat.0);
    big_endian::write::<i64>(out, at + 9, start_stop.time.0);
    at + 17
}

pub(crate) fn put_state(out: &mut [u8], at: usize, state: SessionState) -> usize
    requires { at < 65000 }
    ensures { result ≡ at + 41 }
{
    let at = put_line(out, at, state.timeline);
    put_start_stop(out, at, state.start_stop)
}
