// A line that is moved above the known beat origins, and a start-stop state that is moved past the known times.
ghost use Rattle.std.specs.Prelude.{◌≡◌, cond, pos, ◌*ℤ◌};
ghost use Rattle.std.specs.Int.Signed.{quot_z};
ghost use Rattle.signed.specs.Wrap.{wrap64};
ghost use Rattle.timeline.specs.Same.{same_timeline, same_start_stop};
ghost use Rattle.model.specs.Sums.{add64, sub64};
ghost use Rattle.model.specs.Commit.{move_to, above, later_than};

use engine_state::earlier_by;
use time::{Duration, HostTime, MicroBeats, TempoWire};
use timeline::{StartStopState, Timeline};

// By which a moved line is above the largest known beat origin: one beat.
const BEAT: MicroBeats = MicroBeats(1_000_000);

fn beat_after(known: MicroBeats) -> MicroBeats
    ensures { result.0 ≡ add64 known.0 (pos 1_000_000) }
{
    MicroBeats(signed::wrapping_add(known.0, BEAT.0))
}

// The time that the beats from `from` to `to` take.
fn time_between(from: MicroBeats, to: MicroBeats, tempo: TempoWire) -> Duration
    ensures { result.0 ≡ wrap64 (quot_z (sub64 to.0 from.0 *ℤ tempo.0) (pos 1_000_000)) }
{
    Duration(signed::mul_div_million(signed::wrapping_sub(to.0, from.0), tempo.0))
}

// The line keeps its beats' times, up to the cut of the shift.
#[tactic(auto, unfolding(model::specs::Commit::move_to))]
fn move_to(origin: MicroBeats, l: Timeline) -> Timeline
    ensures { result ≡ move_to origin.0 l }
{
    let shift = time_between(l.beat_origin, origin, l.tempo);
    Timeline {
        beat_origin: origin,
        time_origin: l.time_origin.wrapping_add(shift),
        ..l
    }
}

#[tactic(auto, unfolding(model::specs::Commit::above))]
fn above(known: MicroBeats, l: Timeline) -> Timeline
    ensures { result ≡ above known.0 l }
{
    if l.beat_origin <= known {
        move_to(beat_after(known), l)
    } else {
        l
    }
}

// A line that is as it was stays. This and `taken_start_stop` keep to two definitions, `above` and `later_than`, which have no form in common.
#[tactic(auto, unfolding(timeline::specs::Same::same_timeline))]
pub(crate) fn taken_timeline(known: MicroBeats, old: Timeline, l: Timeline) -> Timeline
    ensures { result ≡ cond (same_timeline l old) l (above known.0 l) }
{
    if l == old { l } else { above(known, l) }
}

// The host time whose shared time is one past this one.
fn just_after(known: HostTime, offset: Duration) -> HostTime
    ensures { result.0 ≡ sub64 (add64 known.0 (pos 1)) offset.0 }
{
    earlier_by(known.wrapping_add(Duration(1)), offset)
}

#[tactic(auto, unfolding(model::specs::Commit::later_than))]
fn later_than(offset: Duration, known: HostTime, s: StartStopState) -> StartStopState
    ensures { result ≡ later_than offset.0 known.0 s }
{
    if s.time.wrapping_add(offset) <= known {
        StartStopState {
            time: just_after(known, offset),
            ..s
        }
    } else {
        s
    }
}

// A start-stop state that is as it was stays.
#[tactic(auto, unfolding(timeline::specs::Same::same_start_stop))]
pub(crate) fn taken_start_stop(
    offset: Duration,
    known: HostTime,
    old: StartStopState,
    s: StartStopState,
) -> StartStopState
    ensures { result ≡ cond (same_start_stop s old) s (later_than offset.0 known.0 s) }
{
    if s == old {
        s
    } else {
        later_than(offset, known, s)
    }
}
