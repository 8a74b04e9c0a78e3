// Host time to shared time, and back, at a session's offset. Each is one struct update: a trait of what has a time would have as many functions.
ghost use Rattle.std.specs.Prelude.{◌≡◌};
ghost use Rattle.model.specs.Sums.{minus};
ghost use Rattle.model.specs.Engine.{timeline_to_ghost, timeline_to_host, start_stop_to_ghost, start_stop_to_host};

use time::{Duration, HostTime};
use timeline::{StartStopState, Timeline};

pub fn earlier_by(time: HostTime, by: Duration) -> HostTime
    ensures { result ≡ minus time by.0 }
{
    HostTime(signed::wrapping_sub(time.0, by.0))
}

#[tactic(auto, unfolding(model::specs::Engine::timeline_to_ghost))]
pub fn timeline_to_ghost(offset: Duration, l: Timeline) -> Timeline
    ensures { result ≡ timeline_to_ghost offset.0 l }
{
    Timeline {
        time_origin: l.time_origin.wrapping_add(offset),
        ..l
    }
}

#[tactic(auto, unfolding(model::specs::Engine::timeline_to_host))]
pub fn timeline_to_host(offset: Duration, l: Timeline) -> Timeline
    ensures { result ≡ timeline_to_host offset.0 l }
{
    Timeline {
        time_origin: earlier_by(l.time_origin, offset),
        ..l
    }
}

#[tactic(auto, unfolding(model::specs::Engine::start_stop_to_ghost))]
pub fn start_stop_to_ghost(offset: Duration, s: StartStopState) -> StartStopState
    ensures { result ≡ start_stop_to_ghost offset.0 s }
{
    StartStopState {
        time: s.time.wrapping_add(offset),
        ..s
    }
}

#[tactic(auto, unfolding(model::specs::Engine::start_stop_to_host))]
pub fn start_stop_to_host(offset: Duration, s: StartStopState) -> StartStopState
    ensures { result ≡ start_stop_to_host offset.0 s }
{
    StartStopState {
        time: earlier_by(s.time, offset),
        ..s
    }
}
