// How long records are. A record's fields are the bytes after its first; `s` starts at the fields and goes on to the end of
// what is at hand.
ghost use Rattle.std.specs.Prelude.{◌<◌, length};
ghost use Rattle.replay.specs.Sizes.{Within};

use crate::{calls, fields, packets, previews, rooms, tempo_lists};

const STATE: usize = 41;

// The longest packet or echo of a record.
const MOST_BYTES: usize = 1024;

// How many bytes a record's fields have, which are all at hand; or that some of them are not; or that there is no such
// record.
#[derive(Clone, Copy)]
pub(crate) enum Size {
    Whole(usize),
    Cut,
    Unknown,
}

pub(crate) fn size_of(first: u8, s: &[u8]) -> Size
    ensures { Within (length s.now) result }
{
    match first {
        0x01..=0x08 => size_of_call(first, s),
        0x09 => whole(s, 0),
        0x0a..=0x0b => whole(s, 1),
        0x10..=0x14 => whole(s, 8),
        0x15..=0x17 => whole(s, STATE + 8 + 8),
        0x18 => whole(s, STATE + 8 + 8 + 8),
        0x19..=0x1a => whole(s, STATE + 8 + 8),
        0x1b => whole(s, STATE + 1 + 8),
        0x20 => counted(s, 0),
        0x21 => in_room(s, 0, optional(s, packets::MEP4, 6, 1)),
        0x22 => in_room(s, 0, whole(s, 2 + 8)),
        0x23 => in_room(s, 0, optional(s, packets::PGT, 8, 0)),
        0x24 => in_room(s, 0, counted(s, packets::ECHO)),
        0x30 => in_room(
            s,
            0,
            whole(
                s,
                tempo_lists::PAIRS + tempo_lists::PAIR * tempo_lists::pairs_held(s),
            ),
        ),
        0x31 => counted(s, 0),
        0x32 => whole(s, previews::ASKED + STATE),
        _ => Size::Unknown,
    }
}

// 01 to 08: the engine's calls.
pub(crate) fn size_of_call(first: u8, s: &[u8]) -> Size
    ensures { Within (length s.now) result }
{
    match first {
        0x01 => whole(s, 8),
        0x02 => in_room(s, calls::PACKET_ROOM, counted(s, calls::PACKET)),
        0x03 => in_room(s, calls::TICK_ROOM, whole(s, 8 + 2)),
        0x04 => in_room(s, calls::COMMIT_ROOM, whole(s, calls::COMMITTED + STATE)),
        0x05 => in_room(s, calls::SWITCH_ROOM, whole(s, 1 + 8 + 2)),
        0x06 => whole(s, 4 + 6),
        0x07 => whole(s, 4),
        _ => whole(s, 4 + 1),
    }
}

fn whole(s: &[u8], size: usize) -> Size
    ensures { Within (length s.now) result }
{
    if size <= s.len() {
        Size::Whole(size)
    } else {
        Size::Cut
    }
}

// The fields end with a length at `at` and as many bytes. A length that is not at hand reads as 0, and is itself missed.
fn counted(s: &[u8], at: usize) -> Size
    requires { at < 65536 }
    ensures { Within (length s.now) result }
{
    let count = big_endian::read::<u16>(s, at) as usize;
    if count > MOST_BYTES {
        return Size::Unknown;
    }
    whole(s, at + 2 + count)
}

// The fields end with an optional one at `at`, `width` bytes where it is present, and `rest` bytes more.
fn optional(s: &[u8], at: usize, width: usize, rest: usize) -> Size
    requires at_bound { at < 65536 }
    requires width_bound { width < 65536 }
    requires rest_bound { rest < 65536 }
    ensures { Within (length s.now) result }
{
    whole(s, fields::past_optional(s, at, width) + rest)
}

// The size, where the room at `at` is not over its bound.
fn in_room(s: &[u8], at: usize, size: Size) -> Size
    requires { Within (length s.now) size }
    ensures { Within (length s.now) result }
{
    if big_endian::read::<u16>(s, at) as usize > rooms::MOST_ROOM {
        return Size::Unknown;
    }
    size
}
