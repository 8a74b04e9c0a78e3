// timeline.rs: a session's line of beats and its start and stop, and what they say at a time or a beat.
// What a state says by itself goes in here; offsets, neighbours and elections are the engine's.
#![tactic(auto)]

ghost use Rattle.std.specs.Prelude.{◌≡◌};
ghost use Rattle.timeline.specs.Session.{default_state, beats_since, beat_at_time, phase_at_time, time_at_beat, request_beat_at_time, force_beat_at_time, set_tempo, set_is_playing};
ghost use Rattle.timeline.specs.Phase.{phase_of};

use time::{Duration, HostTime, MicroBeats, Tempo, TempoWire};

#[derive(Clone, Copy, PartialEq, Eq)]
pub struct Timeline {
    pub tempo: TempoWire,
    pub beat_origin: MicroBeats,
    pub time_origin: HostTime,
}

impl Timeline {
    // The beats from the line's origin to `time`.
    #[tactic(auto, unfolding(crate::specs::Session::beats_since))]
    fn beats_since(self, time: HostTime) -> f64
        ensures { result ≡ beats_since self time }
    {
        let since = time.wrapping_sub(self.time_origin);
        float::from_i64(since.0) / float::from_i64(self.tempo.0)
    }
}

#[derive(Clone, Copy, PartialEq, Eq)]
pub struct StartStopState {
    pub is_playing: bool,
    pub beat: MicroBeats,
    pub time: HostTime,
}

#[derive(Clone, Copy, PartialEq, Eq)]
pub struct SessionState {
    pub timeline: Timeline,
    pub start_stop: StartStopState,
}

// The place of `beat` in its quantum.
#[tactic(auto, unfolding(crate::specs::Phase::phase_of, crate::specs::Phase::quantum_bins), using(time::proofs::Constants::zero_is))]
fn phase_of(beat: f64, quantum: f64) -> f64
    ensures { result ≡ phase_of beat quantum }
{
    let q = float::abs(quantum);
    if q == 0.0 {
        return 0.0;
    }
    let quantum_bins = (float::abs(beat) + q) / q;
    float_remainder::remainder(beat + float::floor(quantum_bins) * q, q)
}

impl Default for SessionState {
    ghost is_default = { λ s. s ≡ default_state };

    #[tactic(auto, unfolding(crate::specs::Session::default_state))]
    fn default() -> SessionState {
        SessionState {
            timeline: Timeline {
                tempo: TempoWire::DEFAULT,
                beat_origin: MicroBeats(0),
                time_origin: HostTime(0),
            },
            start_stop: StartStopState {
                is_playing: false,
                beat: MicroBeats(0),
                time: HostTime(0),
            },
        }
    }
}

impl SessionState {
    #[tactic(auto, unfolding(crate::specs::Session::beat_at_time))]
    pub fn beat_at_time(self, time: HostTime, _quantum: f64) -> f64
        ensures { result ≡ beat_at_time self time }
    {
        self.timeline.beat_origin.to_beats() + self.timeline.beats_since(time)
    }

    #[tactic(auto, unfolding(crate::specs::Session::phase_at_time))]
    pub fn phase_at_time(self, time: HostTime, quantum: f64) -> f64
        ensures { result ≡ phase_at_time self time quantum }
    {
        phase_of(self.beat_at_time(time, quantum), quantum)
    }

    #[tactic(auto, unfolding(crate::specs::Session::time_at_beat))]
    pub fn time_at_beat(self, beat: f64, _quantum: f64) -> HostTime
        ensures { result ≡ time_at_beat self beat }
    {
        let dbeats = beat - self.timeline.beat_origin.to_beats();
        let dt = float::to_i64(dbeats * float::from_i64(self.timeline.tempo.0));
        self.timeline.time_origin.wrapping_add(Duration(dt))
    }

    // It only forces: the quantum changes nothing.
    #[tactic(auto, unfolding(crate::specs::Session::request_beat_at_time))]
    pub fn request_beat_at_time(self, time: HostTime, beat: f64, _quantum: f64) -> SessionState
        ensures { result ≡ request_beat_at_time self time beat }
    {
        self.force_beat_at_time(time, beat)
    }

    #[tactic(auto, unfolding(crate::specs::Session::force_beat_at_time))]
    pub fn force_beat_at_time(self, time: HostTime, beat: f64) -> SessionState
        ensures { result ≡ force_beat_at_time self time beat }
    {
        let beat_origin = MicroBeats::from_beats(beat - self.timeline.beats_since(time));
        SessionState {
            timeline: Timeline {
                beat_origin,
                ..self.timeline
            },
            ..self
        }
    }

    #[tactic(auto, unfolding(crate::specs::Session::set_tempo))]
    pub fn set_tempo(self, bpm: f64, at: HostTime) -> SessionState
        ensures { result ≡ set_tempo self bpm at }
    {
        let current_beat = self.beat_at_time(at, 0.0);
        SessionState {
            timeline: Timeline {
                tempo: TempoWire::from_tempo(Tempo(bpm)),
                beat_origin: MicroBeats::from_beats(current_beat),
                time_origin: at,
            },
            ..self
        }
    }

    #[tactic(auto, unfolding(crate::specs::Session::set_is_playing))]
    pub fn set_is_playing(self, playing: bool, at: HostTime) -> SessionState
        ensures { result ≡ set_is_playing self playing at }
    {
        let current_beat = self.beat_at_time(at, 0.0);
        SessionState {
            start_stop: StartStopState {
                is_playing: playing,
                beat: MicroBeats::from_beats(current_beat),
                time: at,
            },
            ..self
        }
    }
}
