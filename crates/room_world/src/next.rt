// What happens next.
ghost use Rattle.std.specs.Prelude.{◌≡◌};
ghost use Rattle.room_world.specs.World.{timer};
ghost use Rattle.room_world.specs.Next.{event_time, arrival_time, IsFirst, IsNext};

use super::{NEVER, World};
use room_network::Network;
use room_scenario::Scenario;

// What can happen next: an `at` line, a packet that arrives, or the timer of a box.
#[derive(Clone, Copy, PartialEq, Eq, Debug)]
pub enum Kind {
    Event,
    Packet,
    Timer(usize),
}

// What happens next, and when.
#[derive(Clone, Copy)]
pub struct Next {
    pub kind: Kind,
    pub time: u64,
}

// The earliest. At one time first `at` lines, then packets, then timers, by the boxes' numbers.
pub fn next_up(scenario: Scenario, world: World, queue: &[u8]) -> Next
    ensures { IsNext (event_time scenario world.done) (arrival_time world.network queue.now) (timer world) result.time result.kind }
{
    let event = event_at(scenario, world.done);
    let packet = arrival_at(world.network, queue);
    let number = first_timer(world);
    let timer = world.timer_of(number);
    if event <= packet && event <= timer {
        Next {
            kind: Kind::Event,
            time: event,
        }
    } else if packet <= timer {
        Next {
            kind: Kind::Packet,
            time: packet,
        }
    } else {
        Next {
            kind: Kind::Timer(number),
            time: timer,
        }
    }
}

fn event_at(scenario: Scenario, done: usize) -> u64
    ensures { result ≡ event_time scenario done }
{
    let i = done % 64;
    if done < scenario.event_count {
        scenario.events[i].time
    } else {
        NEVER
    }
}

fn arrival_at(network: Network, queue: &[u8]) -> u64
    ensures { result ≡ arrival_time network queue.now }
{
    if network.count == 0 {
        NEVER
    } else {
        network.arrival(queue)
    }
}

// The box whose timer is the earliest, the first of several.
fn first_timer(world: World) -> usize
    ensures { IsFirst (timer world) 16 result }
{
    let mut first = 0;
    for number in 1..16 {
        if world.timer_of(number) < world.timer_of(first) {
            first = number;
        }
    }
    first
}
