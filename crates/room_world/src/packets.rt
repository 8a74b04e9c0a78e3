// The packets under way.
ghost use Rattle.std.specs.Prelude.{◌≡◌, ◌+◌, ◌%◌, ◌^◌, length};
ghost use Rattle.room_network.specs.Queue.{after_send, queue_after_send, without_first};
ghost use Rattle.room_world.specs.World.{with_network};

use super::World;
use room_network::Head;

impl World {
    // One more, which arrives after the delay.
    pub fn send(mut self, queue: &mut [u8], head: Head, packet: &[u8]) -> World
        ensures value { result ≡ with_network self (after_send self.network (length queue.old) (length packet.now)) }
        ensures queue_after { queue.new ≡ queue_after_send self.network (record { arrival = (self.now + self.delay) % 2 ^ 64; head = head; bytes = packet.now }) queue.old }
    {
        let arrival = std::num::wrapping_add_u64(self.now, self.delay);
        let network = self.network.send(queue, arrival, head, packet);
        self.network = network;
        self
    }

    // The first has arrived.
    pub fn without_first(mut self) -> World
        ensures { result ≡ with_network self (without_first self.network) }
    {
        let network = self.network.without_first();
        self.network = network;
        self
    }
}
