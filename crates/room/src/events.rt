// What happens in the room: `at` lines, packets that arrive, and timers that fire. Each changes the world, and tells what is
// then asked of the engines.
use crate::calls::{Call, Request, To, Turn};
use crate::print::Head;
use room_scenario::{Action, Event};
use room_world::{NEVER, World};
use std::io;

// A call of a box, without a packet.
fn asks(world: World, number: usize, call: Call) -> Turn {
    let packet = [0u8; 512];
    Turn {
        world,
        request: Some(Request {
            to: To::Box(number),
            call,
            packet,
            length: 0,
        }),
    }
}

// A change that no engine hears of.
fn asks_nobody(world: World) -> Turn {
    Turn {
        world,
        request: None,
    }
}

pub(crate) fn happen(rt: &impl Print, mut world: World, event: Event) -> io::Result<Turn> {
    let number = event.number;
    let action = event.action;
    let head = Head {
        now: world.now,
        name: world.box_of(number).name,
    };
    print_event(rt, head, action)?;
    world.done = world.done % 64 + 1;
    let turn = match action {
        Action::On => asks(world, number, Call::Switch(true)),
        Action::Off => asks(world, number, Call::Switch(false)),
        Action::Tempo(bpm) => asks(world, number, Call::Tempo(bpm)),
        Action::Preview(bpm) => asks(world, number, Call::Preview(bpm)),
        Action::Silent => asks_nobody(world.with_silence(number, true)),
        Action::Heard => asks_nobody(world.with_silence(number, false)),
    };
    Ok(turn)
}

fn print_event(rt: &impl Print, head: Head, action: Action) -> io::Result<()> {
    match action {
        Action::On => println!(rt; "{head} is switched on"),
        Action::Off => println!(rt; "{head} is switched off"),
        Action::Silent => println!(rt; "{head} is silent"),
        Action::Heard => println!(rt; "{head} is heard again"),
        Action::Tempo(bpm) => println!(rt; "{head} commits {bpm} beats a minute"),
        Action::Preview(bpm) => println!(rt; "{head} previews {bpm} beats a minute"),
    }
}

pub(crate) fn fire(world: World, number: usize) -> Turn {
    asks(world.with_timer(number, NEVER), number, Call::Tick)
}

// Takes the first packet off the network.
pub(crate) fn arrive(world: World, queue: &[u8]) -> Turn {
    let mut packet = [0u8; 512];
    let head = world.network.head(queue);
    let length = world.network.packet(queue, &mut packet);
    let from = room_world::port_addr(head.sender, head.interface);
    Turn {
        world: world.without_first(),
        request: Some(Request {
            to: To::Ports(head),
            call: Call::Packet(from),
            packet,
            length,
        }),
    }
}
