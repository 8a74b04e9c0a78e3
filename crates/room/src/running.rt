// A run of a scenario: what is earliest happens next, until the end.
use crate::calls::{Room, Turn};
use crate::{calls, distances, events};
use engine::{Engine, InterfaceId};
use room_scenario::Scenario;
use room_world::{Kind, Next, World, next_up};
use std::io;

// Runs a scenario with this space for the network's queue: 1,024 slots of 544 bytes.
pub(crate) fn run(rt: &impl Print, scenario: Scenario, queue: &mut [u8; 557056]) -> io::Result<()> {
    run_until_end(rt, scenario, queue)
}

// A proved loop has to end. So the loop counts its turns, up to a number that no run uses up.
fn run_until_end(rt: &impl Print, scenario: Scenario, queue: &mut [u8]) -> io::Result<()> {
    let mut room = new_room(scenario);
    for _ in 0..u64::MAX {
        let next = next_up(scenario, room.world, queue);
        if next.time > scenario.end {
            break;
        }
        let turn = begin_turn(rt, scenario, room.world, next, queue)?;
        calls::make(rt, &mut room, queue, turn)?;
    }
    distances::print_distances(rt, &room)
}

// What happens next, at its time: the world changes, and calls are asked for.
fn begin_turn(
    rt: &impl Print,
    scenario: Scenario,
    mut world: World,
    next: Next,
    queue: &[u8],
) -> io::Result<Turn> {
    let kind = next.kind;
    let i = world.done % 64;
    world.now = next.time;
    match kind {
        Kind::Event => events::happen(rt, world, scenario.events[i]),
        Kind::Packet => Ok(events::arrive(world, queue)),
        Kind::Timer(number) => Ok(events::fire(world, number)),
    }
}

// ---- the start

// All boxes are off, with their ports added and their cables in.
fn new_room(scenario: Scenario) -> Room {
    let mut engines = [Engine::new(room_world::node_id(0)); 16];
    for number in 0..16 {
        engines[number] = new_engine(number, scenario.boxes[number].ports);
    }
    let world = World::new(scenario);
    Room { engines, world }
}

fn new_engine(number: usize, ports: u64) -> Engine {
    let mut e = Engine::new(room_world::node_id(number));
    for interface in 1..=4 {
        if u64::from(interface) <= ports {
            let addr = room_world::port_addr(number, interface);
            e = engine::add_interface(e, InterfaceId(interface), addr).engine;
        }
    }
    e
}
