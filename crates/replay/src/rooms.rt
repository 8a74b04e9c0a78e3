// The room of a record: how much of the answer is lent to the call, and what stands there before it.
ghost use Rattle.std.specs.Prelude.{◌≤◌};
ghost use Rattle.replay.specs.Sizes.{most_room};

// The largest room (most_room of specs/).
pub(crate) const MOST_ROOM: usize = 8192;

// What every byte of a room is before the call.
const UNTOUCHED: u8 = 0xa5;

// The room at `at`. A larger one is cut to its bound, and no record has one.
pub(crate) fn room(s: &[u8], at: usize) -> usize
    ensures { result ≤ most_room }
{
    (big_endian::read::<u16>(s, at) as usize).min(MOST_ROOM)
}

pub(crate) fn fill(room: &mut [u8]) {
    room.fill(UNTOUCHED);
}

// Whether every byte is as `fill` left it. All are looked at, with no way out on the way, so that many are at once.
pub(crate) fn is_untouched(room: &[u8]) -> bool {
    let changed = room
        .iter()
        .fold(0u8, |changed, b| changed | (b ^ UNTOUCHED));
    changed == 0
}
