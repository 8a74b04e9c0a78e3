// First bytes 01 to 08: the engine's calls, in place. A call's room is lent out of the answer itself, behind the number and the length,
// so that what the call writes stands where it belongs.
ghost use Rattle.std.specs.Prelude.{◌≤◌, ◌<◌, length};
ghost use Rattle.replay.specs.Sizes.{most_answer, most_room};

use crate::{fields, packet_fields, rooms};
use engine::{Core, DONE, InterfaceId, IoErrorKind, Numbers, Told, Words};

// Where the rooms of 02 to 05 stand, and what follows them.
pub(crate) const PACKET_ROOM: usize = 4 + 6 + 8;

pub(crate) const PACKET: usize = PACKET_ROOM + 2;

pub(crate) const TICK_ROOM: usize = 8;

pub(crate) const COMMIT_ROOM: usize = 8;

pub(crate) const COMMITTED: usize = COMMIT_ROOM + 2;

pub(crate) const SWITCH_ROOM: usize = 1 + 8;

// Where the room stands in an answer: behind a number and a length.
pub(crate) const HEAD: usize = 1 + 2;

pub(crate) fn is_call(first: u8) -> bool {
    matches!(first, 0x01..=0x08)
}

// Fills the room that a record lends, where it is tested.
pub(crate) fn fill_room(first: u8, s: &[u8], out: &mut [u8], is_tested: bool)
    requires { most_answer ≤ length out.old }
{
    if !is_tested {
        return;
    }
    let end = HEAD + room_of(first, s);
    rooms::fill(&mut out[HEAD..end]);
}

// Makes the call of a record on the core and the tables. Where the record has a room, the call's answer then stands in it.
pub(crate) fn call(
    e: Core,
    words: &mut Words,
    numbers: &mut Numbers,
    first: u8,
    s: &[u8],
    out: &mut [u8],
) -> Told
    requires { most_answer ≤ length out.old }
{
    let end = HEAD + room_of(first, s);
    let room = &mut out[HEAD..end];
    match first {
        0x01 => Told {
            core: Core::new(packet_fields::node(s, 0)),
            number: DONE,
        },
        0x02 => engine::packet_in(
            e,
            words,
            numbers,
            interface(s),
            packet_fields::addr(s, 4),
            fields::counted(s, PACKET),
            fields::time(s, 10),
            room,
        ),
        0x03 => engine::timer_in(e, words, numbers, fields::time(s, 0), room),
        0x04 => engine::commit_in(
            e,
            words,
            numbers,
            fields::state(s, COMMITTED),
            fields::time(s, 0),
            room,
        ),
        0x05 => engine::switch_in(
            e,
            words,
            numbers,
            fields::flag(s, 0),
            fields::time(s, 1),
            room,
        ),
        0x06 => engine::add_interface_in(e, interface(s), packet_fields::addr(s, 4)),
        0x07 => engine::remove_interface_in(e, interface(s)),
        _ => engine::io_error_in(e, interface(s), io_error(s)),
    }
}

pub(crate) fn interface(s: &[u8]) -> InterfaceId {
    InterfaceId(big_endian::read::<u32>(s, 0))
}

pub(crate) fn io_error(s: &[u8]) -> IoErrorKind {
    match fields::byte(s, 4) % 3 {
        0 => IoErrorKind::JoinMulticastFailed,
        1 => IoErrorKind::OpenUnicastFailed,
        _ => IoErrorKind::SendFailed,
    }
}

// The room that a record lends, which is none but of 02 to 05.
pub(crate) fn room_of(first: u8, s: &[u8]) -> usize
    ensures { result ≤ most_room }
{
    match first {
        0x02 => rooms::room(s, PACKET_ROOM),
        0x03 => rooms::room(s, TICK_ROOM),
        0x04 => rooms::room(s, COMMIT_ROOM),
        0x05 => rooms::room(s, SWITCH_ROOM),
        _ => 0,
    }
}

// Puts what stands around a call's answer, and tells how many bytes all of it has.
pub(crate) fn put_called(out: &mut [u8], first: u8, s: &[u8], number: u8, is_tested: bool) -> usize
    requires { most_answer ≤ length out.old }
    ensures { result ≤ most_answer }
{
    match first {
        0x02..=0x05 => put_around(out, HEAD + room_of(first, s), number, is_tested),
        _ => fields::put_u8(out, 0, number),
    }
}

// The room ends at `end`. Where it is not tested, nothing follows its answer.
fn put_around(out: &mut [u8], end: usize, number: u8, is_tested: bool) -> usize
    requires le_end { 3 ≤ end }
    requires end_lt_most_answer { end < most_answer }
    requires most_answer_in_bounds { most_answer ≤ length out.old }
    ensures { result ≤ most_answer }
{
    let size = answer_size(number, &out[HEAD..end]);
    let rest = HEAD + size;
    big_endian::write::<u8>(out, 0, number);
    big_endian::write::<u16>(out, 1, size as u16);
    if !is_tested {
        return rest;
    }
    let is_untouched = rooms::is_untouched(&out[rest..end]);
    fields::put_u8(out, rest, is_untouched as u8)
}

// How many bytes of the room are the call's answer, which says so itself: none where the call was refused.
fn answer_size(number: u8, room: &[u8]) -> usize
    ensures { result ≤ length room.now }
{
    if number != DONE {
        return 0;
    }
    let count = big_endian::read::<u16>(room, 0) as usize;
    let length = big_endian::read::<u16>(room, 2) as usize;
    (4 + 3 * count + length).min(room.len())
}
