// How times and the lines of beats are said.
use engine::Timeline;
use std::fmt;

const MILLION: u64 = 1_000_000;

// A time of the room, in seconds with six decimals, and the two spaces behind it.
#[derive(Clone, Copy)]
pub(crate) struct Clock(pub u64);

impl fmt::Display for Clock {
    fn fmt<W: fmt::Write>(&self, f: &mut fmt::Formatter<W>) -> fmt::Result {
        let seconds = self.0 / MILLION;
        let micros = self.0 % MILLION;
        write!(f, "{seconds:>4}.{micros:06} s  ")
    }
}

// What a line of the output begins with: the time and a box's name.
#[derive(Clone, Copy)]
pub(crate) struct Head {
    pub now: u64,
    pub name: u8,
}

impl fmt::Display for Head {
    fn fmt<W: fmt::Write>(&self, f: &mut fmt::Formatter<W>) -> fmt::Result {
        write!(f, "{}{}", Clock(self.now), self.name as char)
    }
}

// A line of beats.
#[derive(Clone, Copy)]
pub(crate) struct Line {
    pub tempo: i64,
    pub beat_origin: i64,
    pub time_origin: i64,
}

impl From<Timeline> for Line {
    fn from(line: Timeline) -> Line {
        Line {
            tempo: line.tempo.0,
            beat_origin: line.beat_origin.0,
            time_origin: line.time_origin.0,
        }
    }
}

impl fmt::Display for Line {
    fn fmt<W: fmt::Write>(&self, f: &mut fmt::Formatter<W>) -> fmt::Result {
        let Line {
            tempo,
            beat_origin,
            time_origin,
        } = *self;
        write!(
            f,
            "{tempo} us a beat, beat {beat_origin} at {time_origin} us of its clock"
        )
    }
}
