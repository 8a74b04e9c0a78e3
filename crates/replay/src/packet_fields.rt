// The fields whose types are of the crate wire, and optional fields: a byte 0, or another byte and the field.
ghost use Rattle.std.specs.Prelude.{ℕ, ◌+◌, ◌≤◌, ◌<◌, ◌≡◌};

use crate::fields;
use time::HostTime;
use timeline::{StartStopState, Timeline};
use wire::{NodeId, SocketAddrPlain};

pub(crate) fn node(s: &[u8], at: usize) -> NodeId {
    NodeId(big_endian::read::<u64>(s, at))
}

// The 6 bytes of an address, from `at` on.
pub(crate) fn addr(s: &[u8], at: usize) -> SocketAddrPlain
    requires { at < 65536 }
{
    SocketAddrPlain {
        ip: big_endian::read::<u32>(s, at),
        port: big_endian::read::<u16>(s, at + 4),
    }
}

// Each of these puts a value at `at` and answers the place behind it.
pub(crate) fn put_node(out: &mut [u8], at: usize, node: NodeId) -> usize
    requires { at < 65536 }
    ensures { result ≡ at + 8 }
{
    big_endian::write::<u64>(out, at, node.0);
    at + 8
}

pub(crate) fn put_addr(out: &mut [u8], at: usize, addr: SocketAddrPlain) -> usize
    requires { at < 65536 }
    ensures { result ≡ at + 6 }
{
    big_endian::write::<u32>(out, at, addr.ip);
    big_endian::write::<u16>(out, at + 4, addr.port);
    at + 6
}

// What an optional field can hold: how many bytes it has, how it is read and how it is put.
pub(crate) trait Field: Copy {
    ghost width: { ℕ };

    fn read_at(s: &[u8], at: usize) -> Self
        requires { at < 65536 };

    fn put_at(self, out: &mut [u8], at: usize) -> usize
        requires { at < 65536 }
        ensures { result ≡ at + width };
}

impl Field for NodeId {
    ghost width = { 8 };

    fn read_at(s: &[u8], at: usize) -> NodeId {
        node(s, at)
    }

    fn put_at(self, out: &mut [u8], at: usize) -> usize {
        put_node(out, at, self)
    }
}

impl Field for SocketAddrPlain {
    ghost width = { 6 };

    fn read_at(s: &[u8], at: usize) -> SocketAddrPlain {
        addr(s, at)
    }

    fn put_at(self, out: &mut [u8], at: usize) -> usize {
        put_addr(out, at, self)
    }
}

impl Field for HostTime {
    ghost width = { 8 };

    fn read_at(s: &[u8], at: usize) -> HostTime {
        fields::time(s, at)
    }

    fn put_at(self, out: &mut [u8], at: usize) -> usize {
        fields::put_i64(out, at, self.0)
    }
}

impl Field for Timeline {
    ghost width = { 24 };

    fn read_at(s: &[u8], at: usize) -> Timeline {
        fields::line(s, at)
    }

    fn put_at(self, out: &mut [u8], at: usize) -> usize {
        fields::put_line(out, at, self)
    }
}

impl Field for StartStopState {
    ghost width = { 17 };

    fn read_at(s: &[u8], at: usize) -> StartStopState {
        fields::start_stop(s, at)
    }

    fn put_at(self, out: &mut [u8], at: usize) -> usize {
        fields::put_start_stop(out, at, self)
    }
}

// An optional field.
pub(crate) fn optional<T: Field>(s: &[u8], at: usize) -> Option<T>
    requires { at < 65535 }
{
    if fields::flag(s, at) {
        Some(T::read_at(s, at + 1))
    } else {
        None
    }
}

pub(crate) fn put_optional<T: Field>(out: &mut [u8], at: usize, value: Option<T>) -> usize
    requires { at < 65535 }
    ensures { result ≤ at + 1 + T.width }
{
    let Some(value) = value else {
        return fields::put_u8(out, at, 0);
    };
    let at = fields::put_u8(out, at, 1);
    value.put_at(out, at)
}
