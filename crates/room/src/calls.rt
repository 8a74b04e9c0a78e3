// The engines' calls: they are made on the boxes that they are for, and what each put out is taken.
ghost use Rattle.std.specs.Prelude.{◌<◌};

use crate::print::Head;
use crate::{answers, previews};
use engine::{Called, Engine, InterfaceId, SocketAddrPlain};
use room_world::World;
use std::io;

// The engine of each box, and all else of the room.
#[derive(Clone, Copy)]
pub(crate) struct Room {
    pub engines: [Engine; 16],
    pub world: World,
}

// What is asked of an engine. A packet has the address that it comes from; its bytes stand beside it.
#[derive(Clone, Copy)]
pub(crate) enum Call {
    Tick,
    Switch(bool),
    Tempo(u64),
    Preview(u64),
    Packet(SocketAddrPlain),
}

// Who is asked: a box, or the ports that a packet is for.
#[derive(Clone, Copy)]
pub(crate) enum To {
    Box(usize),
    Ports(room_network::Head),
}

// What is asked of whom, with a packet's bytes.
// An array and a length: a Vec would bring to each turn an allocation that can fail.
#[derive(Clone, Copy)]
pub(crate) struct Request {
    pub to: To,
    pub call: Call,
    pub packet: [u8; 512],
    pub length: usize,
}

// The world after something happened, and what is then asked of the engines.
#[derive(Clone, Copy)]
pub(crate) struct Turn {
    pub world: World,
    pub request: Option<Request>,
}

// Makes the calls of a turn, by box number, then by interface.
pub(crate) fn make(
    rt: &impl Print,
    room: &mut Room,
    queue: &mut [u8],
    turn: Turn,
) -> io::Result<()> {
    let world = turn.world;
    room.world = world;
    match turn.request {
        None => Ok(()),
        Some(request) => make_each(rt, room, queue, request),
    }
}

fn make_each(
    rt: &impl Print,
    room: &mut Room,
    queue: &mut [u8],
    request: Request,
) -> io::Result<()> {
    // No packet is longer than its array.
    let packet = &request.packet[..request.length.min(512)];
    for number in 0..16 {
        for interface in 1..=4 {
            if is_for(request.to, room.world, number, interface) {
                made(
                    rt,
                    room,
                    queue,
                    number,
                    InterfaceId(interface),
                    request.call,
                    packet,
                )?;
            }
        }
    }
    Ok(())
}

// Whether a call is made at this port. One of a box is made at its first.
fn is_for(to: To, world: World, number: usize, interface: u32) -> bool {
    match to {
        To::Box(of) => number == of && interface == 1,
        To::Ports(head) => world.receives(number, interface, head),
    }
}

// Makes a call of a box's engine, and takes what it put out.
fn made(
    rt: &impl Print,
    room: &mut Room,
    queue: &mut [u8],
    number: usize,
    interface: InterfaceId,
    call: Call,
    packet: &[u8],
) -> io::Result<()>
    requires { number < 16 }
{
    let mut answer = [0u8; 4096];
    let called = asked(rt, room, number, call, interface, packet, &mut answer)?;
    let engine = called.engine;
    room.engines[number] = engine;
    let session = engine.core.session_id.0;
    let world = answers::take_answer(
        rt,
        room.world,
        queue,
        &answer,
        number,
        called.number,
        session,
    )?;
    room.world = world;
    Ok(())
}

// A preview leaves the engine as it is, and the answer empty.
fn asked(
    rt: &impl Print,
    room: &Room,
    number: usize,
    call: Call,
    interface: InterfaceId,
    packet: &[u8],
    answer: &mut [u8],
) -> io::Result<Called>
    requires { number < 16 }
{
    let e = room.engines[number];
    let world = room.world;
    let at = world.host_time(number);
    let called = match call {
        Call::Tick => engine::handle_timer(e, at, answer),
        Call::Switch(enabled) => engine::set_enabled(e, enabled, at, answer),
        Call::Tempo(bpm) => {
            engine::commit_app_state(e, previews::with_tempo(e, bpm, at), at, answer)
        }
        Call::Preview(bpm) => {
            let head = Head {
                now: world.now,
                name: world.box_of(number).name,
            };
            let refusal = previews::preview(rt, e, head, bpm, at)?;
            Called {
                number: refusal,
                engine: e,
            }
        }
        Call::Packet(from) => engine::handle_packet(e, interface, from, packet, at, answer),
    };
    Ok(called)
}
