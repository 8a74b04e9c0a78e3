// The state that is reported: its line, and its start and stop.
ghost use Rattle.std.specs.Prelude.{◌≡◌, ◌≤◌, length};
ghost use Rattle.big_endian.specs.Bytes.{put};
ghost use Rattle.wire.specs.Layout.{timeline_bytes, start_stop_bytes};
ghost use Rattle.model.specs.Engine.{state_changed};
ghost use Rattle.model.specs.Answer.{content};

use timeline::{SessionState, StartStopState, Timeline};
use wire_writer::playing_byte;

fn put_timeline(part: &mut [u8], line: Timeline)
    requires { 24 ≤ length part.old }
    ensures { part.new ≡ put 0 (timeline_bytes line) part.old }
{
    big_endian::write::<i64>(part, 0, line.tempo.0);
    big_endian::write::<i64>(part, 8, line.beat_origin.0);
    big_endian::write::<i64>(part, 16, line.time_origin.0);
}

// Behind the line.
fn put_start_stop(part: &mut [u8], start_stop: StartStopState)
    requires { 41 ≤ length part.old }
    ensures { part.new ≡ put 24 (start_stop_bytes start_stop) part.old }
{
    big_endian::write::<u8>(part, 24, playing_byte(start_stop.is_playing));
    big_endian::write::<i64>(part, 25, start_stop.beat.0);
    big_endian::write::<i64>(part, 33, start_stop.time.0);
}

pub(crate) fn write_state(part: &mut [u8], state: SessionState)
    requires { 41 ≤ length part.old }
    ensures { part.new ≡ put 0 (content (state_changed state)) part.old }
{
    let line = state.timeline;
    let start_stop = state.start_stop;
    put_timeline(part, line);
    put_start_stop(part, start_stop);
}
