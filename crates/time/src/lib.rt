// time.rs: host times, micro-beats and tempos, each a counter of its own, with their conversions.
// A counter and its constants go in here; what needs a whole line is of `timeline`.
#![tactic(auto)]

mod table;
mod whole_tempos;

ghost use Rattle.std.specs.Prelude.{◌≡◌, ◌+ℤ◌, ◌-ℤ◌};
ghost use Rattle.signed.specs.Wrap.{wrap64};
ghost use Rattle.time.specs.Convert.{micros_per_beat, from_beats, to_beats, from_tempo, to_tempo};

use whole_tempos::{entry, whole_of};

// A time of a host's clock, in microseconds.
#[derive(Clone, Copy, PartialEq, Eq, PartialOrd, Ord)]
pub struct HostTime(pub i64);

// A difference of two such times, in microseconds.
#[derive(Clone, Copy, PartialEq, Eq, PartialOrd, Ord)]
pub struct Duration(pub i64);

impl HostTime {
    // The largest time, which stands for no time at all.
    pub const NEVER: HostTime = HostTime(i64::MAX);

    pub fn wrapping_add(self, by: Duration) -> HostTime
        ensures { result.0 ≡ wrap64 (self.0 +ℤ by.0) }
    {
        HostTime(signed::wrapping_add(self.0, by.0))
    }

    pub fn wrapping_sub(self, origin: HostTime) -> Duration
        ensures { result.0 ≡ wrap64 (self.0 -ℤ origin.0) }
    {
        Duration(signed::wrapping_sub(self.0, origin.0))
    }
}

// Beats per minute.
#[derive(Clone, Copy, PartialEq, PartialOrd)]
pub struct Tempo(pub f64);

impl Tempo {
    pub const MICROS_PER_MINUTE: f64 = 60_000_000.0;

    // An infinity where the tempo is not above 0.
    #[tactic(auto, unfolding(crate::specs::Convert::micros_per_beat), using(crate::proofs::Constants::constants))]
    pub fn micros_per_beat(self) -> f64
        ensures { result ≡ micros_per_beat self.0 }
    {
        if self.0 <= 0.0 {
            f64::INFINITY
        } else {
            Tempo::MICROS_PER_MINUTE / self.0
        }
    }
}

// Millionths of a beat.
#[derive(Clone, Copy, PartialEq, Eq, PartialOrd, Ord)]
pub struct MicroBeats(pub i64);

impl MicroBeats {
    pub const PER_BEAT: f64 = 1_000_000.0;

    // `from_beats` and `to_beats` here, and `from_tempo` and `to_tempo` below, stay functions and no `From`: `docs/` speaks of these names.
    #[tactic(auto, unfolding(crate::specs::Convert::from_beats, crate::specs::Convert::whole), using(crate::proofs::Constants::constants))]
    pub fn from_beats(beats: f64) -> MicroBeats
        ensures { result.0 ≡ from_beats beats }
    {
        MicroBeats(float::round_to_i64(beats * MicroBeats::PER_BEAT))
    }

    #[tactic(auto, unfolding(crate::specs::Convert::to_beats), using(crate::proofs::Constants::constants))]
    pub fn to_beats(self) -> f64
        ensures { result ≡ to_beats self.0 }
    {
        float::from_i64(self.0) / MicroBeats::PER_BEAT
    }
}

// Microseconds per beat, as they are sent.
#[derive(Clone, Copy, PartialEq, Eq, PartialOrd, Ord)]
pub struct TempoWire(pub i64);

impl TempoWire {
    // 120 beats per minute.
    pub const DEFAULT: TempoWire = TempoWire(500_000);

    #[tactic(auto, unfolding(crate::specs::Convert::from_tempo, crate::specs::Convert::whole), using(crate::proofs::Laws::WholeTempos::conversion))]
    pub fn from_tempo(tempo: Tempo) -> TempoWire
        ensures { result.0 ≡ from_tempo tempo.0 }
    {
        match whole_of(tempo.0) {
            Some(whole) => TempoWire(i64::from(entry((whole - 20) as usize))),
            None => TempoWire(float::round_to_i64(Tempo::MICROS_PER_MINUTE / tempo.0)),
        }
    }

    #[tactic(auto, unfolding(crate::specs::Convert::to_tempo), using(crate::proofs::Constants::constants))]
    pub fn to_tempo(self) -> Tempo
        ensures { result.0 ≡ to_tempo self.0 }
    {
        if self.0 <= 0 {
            Tempo(f64::INFINITY)
        } else {
            Tempo(Tempo::MICROS_PER_MINUTE / float::from_i64(self.0))
        }
    }
}
