// Why a call is turned down, the numbers that hosts read of it, and when it is for the call's time or its answer buffer.
ghost use Rattle.std.specs.Prelude.{◌≡◌};
ghost use Rattle.model.specs.Calls.{timely};
ghost use Rattle.call.specs.Inner.Refusal.{refusal, number_of, number_told};

use time::HostTime;

#[derive(Clone, Copy, PartialEq, Eq)]
pub enum Refusal {
    TimeOutOfRange,
    BufferTooSmall,
    PacketTooLong,
    InterfacesFull,
}

pub const DONE: u8 = 0;

// A time outside 0 to 10^15.
pub const TIME_OUT_OF_RANGE: u8 = 1;

// An answer buffer under 4,096 bytes.
pub const BUFFER_TOO_SMALL: u8 = 2;

// A packet over 512 bytes.
pub const PACKET_TOO_LONG: u8 = 3;

// A new interface with 4 held.
pub const INTERFACES_FULL: u8 = 6;

const FIRST_TIME: HostTime = HostTime(0);

const LAST_TIME: HostTime = HostTime(1_000_000_000_000_000);

const SMALLEST_BUFFER: usize = 4096;

pub const LONGEST_PACKET: usize = 512;

impl Refusal {
    // The number that a host reads.
    pub fn number(self) -> u8
        ensures { result ≡ number_of self }
    {
        match self {
            Refusal::TimeOutOfRange => TIME_OUT_OF_RANGE,
            Refusal::BufferTooSmall => BUFFER_TOO_SMALL,
            Refusal::PacketTooLong => PACKET_TOO_LONG,
            Refusal::InterfacesFull => INTERFACES_FULL,
        }
    }
}

// 0 to 10^15.
pub fn is_timely(at: HostTime) -> bool
    ensures { result ≡ timely at }
{
    FIRST_TIME <= at && at <= LAST_TIME
}

// Turns a call down for its time, or else for the size of its answer buffer.
pub fn admit(at: HostTime, size: usize) -> Result<(), Refusal>
    ensures { number_told result ≡ refusal at size }
{
    if !is_timely(at) {
        return Err(Refusal::TimeOutOfRange);
    }
    if size < SMALLEST_BUFFER {
        return Err(Refusal::BufferTooSmall);
    }
    Ok(())
}
