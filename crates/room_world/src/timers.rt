// The timers that the boxes ask for.
ghost use Rattle.std.specs.Prelude.{◌≡◌};
ghost use Rattle.room_world.specs.World.{box_line, with_timer};
ghost use Rattle.room_world.specs.Timers.{fires_at};

use super::World;

// A time whose bits are no less is negative.
const NEGATIVE: u64 = 0x8000_0000_0000_0000;

impl World {
    // The timer of a box is set to a host time.
    pub fn set_timer(self, number: usize, host_time: u64) -> World
        ensures { result ≡ with_timer self number (fires_at host_time (box_line self number).shift self.now) }
    {
        let shift = self.box_of(number).shift;
        self.with_timer(number, timer_time(host_time, shift, self.now))
    }
}

// A host time in the room's time. The engine sets its timer at the time at which a neighbour may still stay, and drops it
// later. So a timer that is not later than now fires one microsecond from now: else it would fire now, for ever.
fn timer_time(host_time: u64, shift: u64, now: u64) -> u64
    ensures { result ≡ fires_at host_time shift «now» }
{
    let soonest = std::num::wrapping_add_u64(now, 1);
    if host_time >= NEGATIVE {
        return soonest;
    }
    host_time.saturating_sub(shift).max(soonest)
}
