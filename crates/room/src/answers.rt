// What a call put out: packets go to the network, timers are set, states and counts are printed.
ghost use Rattle.std.specs.Prelude.{◌<◌, ◌^◌};

use crate::print::{Clock, Head, Line};
use room_world::World;
use std::io;

// What an output is.
#[derive(Clone, Copy)]
enum Kind {
    Send,
    State,
    Count,
    Timer,
}

// A kind that is none of these.
#[derive(Clone, Copy)]
struct UnknownKind;

impl TryFrom<u8> for Kind {
    type Error = UnknownKind;

    fn try_from(kind: u8) -> Result<Kind, UnknownKind> {
        match kind {
            1 => Ok(Kind::Send),
            2 => Ok(Kind::State),
            3 => Ok(Kind::Count),
            4 => Ok(Kind::Timer),
            _ => Err(UnknownKind),
        }
    }
}

// An output of an answer: its kind, and where its content begins and ends.
#[derive(Clone, Copy)]
struct Output {
    kind: Kind,
    at: usize,
    end: usize,
}

// What stands before the packet in a send: interface, address and port.
const SEND_HEAD: usize = 4 + 4 + 2;

// The box whose call is taken: its number, its name, and the name of its session after the call.
#[derive(Clone, Copy)]
struct Caller {
    number: usize,
    name: u8,
    session: u8,
}

// The world after a call of a box: the call was refused, or its outputs are taken. `session` is the engine's after it.
pub(crate) fn take_answer(
    rt: &impl Print,
    world: World,
    queue: &mut [u8],
    answer: &[u8; 4096],
    number: usize,
    refusal: u8,
    session: u64,
) -> io::Result<World> {
    let name = world.box_of(number).name;
    if refusal != 0 {
        let head = Head {
            now: world.now,
            name,
        };
        println!(rt; "{head} refused: {refusal}")?;
        return Ok(world);
    }
    let caller = Caller {
        number,
        name,
        session: world.session_name(session),
    };
    take_outputs(rt, world, queue, answer, caller)
}

fn take_outputs(
    rt: &impl Print,
    world: World,
    queue: &mut [u8],
    answer: &[u8],
    caller: Caller,
) -> io::Result<World> {
    let mut world = world;
    let count = big_endian::read::<u16>(answer, 0) as usize;
    let mut at = 4 + 3 * count;
    for k in 0..count {
        let length = big_endian::read::<u16>(answer, 4 + count + 2 * k) as usize;
        let end = at + length;
        let kind = answer.get(4 + k).copied().unwrap_or(0);
        if let Ok(kind) = Kind::try_from(kind) {
            world = take(rt, world, queue, answer, Output { kind, at, end }, caller)?;
        }
        at = end;
    }
    Ok(world)
}

fn take(
    rt: &impl Print,
    world: World,
    queue: &mut [u8],
    answer: &[u8],
    output: Output,
    caller: Caller,
) -> io::Result<World>
    requires { output.at < 2 ^ 33 }
{
    let at = output.at;
    let head = Head {
        now: world.now,
        name: caller.name,
    };
    match output.kind {
        Kind::Send => return send_packet(rt, world, queue, answer, output, caller),
        Kind::State => print_state(rt, head, caller, answer, at)?,
        Kind::Count => print_count(rt, head, caller, big_endian::read::<u32>(answer, at))?,
        Kind::Timer => return Ok(world.set_timer(
            caller.number,
            big_endian::read::<u64>(answer, at),
        )),
    }
    Ok(world)
}

fn send_packet(
    rt: &impl Print,
    world: World,
    queue: &mut [u8],
    answer: &[u8],
    output: Output,
    caller: Caller,
) -> io::Result<World>
    requires { output.at < 2 ^ 33 }
{
    let at = output.at;
    let start = at + SEND_HEAD;
    let end = output.end;
    if world.is_silent(caller.number) || start > end || end > answer.len() {
        return Ok(world);
    }
    if world.network.is_full() {
        let now = Clock(world.now);
        let name = caller.name as char;
        println!(rt; "{now}the network is full: a packet of {name} is lost")?;
        return Ok(world);
    }
    let head = room_network::Head {
        sender: caller.number,
        interface: big_endian::read::<u32>(answer, at),
        ip: big_endian::read::<u32>(answer, at + 4),
        port: big_endian::read::<u16>(answer, at + 8),
    };
    Ok(world.send(queue, head, &answer[start..end]))
}

fn print_state(
    rt: &impl Print,
    head: Head,
    caller: Caller,
    answer: &[u8],
    at: usize,
) -> io::Result<()>
    requires { at < 2 ^ 33 }
{
    let line = Line {
        tempo: big_endian::read::<i64>(answer, at),
        beat_origin: big_endian::read::<i64>(answer, at + 8),
        time_origin: big_endian::read::<i64>(answer, at + 16),
    };
    let session = caller.session as char;
    println!(rt; "{head} reports session {session}, {line}")
}

fn print_count(rt: &impl Print, head: Head, caller: Caller, count: u32) -> io::Result<()> {
    let others = if count == 1 { "other" } else { "others" };
    let session = caller.session as char;
    println!(rt; "{head} counts {count} {others} in session {session}")
}
