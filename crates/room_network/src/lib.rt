// The packets under way on a simulated network, in the order in which they were sent. They stand in a queue that the caller lends: a
// ring of 1,024 slots of 544 bytes.
// When a packet arrives and where it goes is kept here; what it says, and whom it is for, is not.
#![tactic(auto)]

ghost use Rattle.std.specs.Prelude.{◌≡◌, ◌&&◌, ◌+◌, ◌≤◌, leb, ltb, length};
ghost use Rattle.big_endian.specs.Bytes.{put};
ghost use Rattle.room_network.specs.Queue.{slot_place, slot_bytes, packet_at, after_send, queue_after_send, without_first};

// Where a packet comes from, by the box and its interface, and where it goes.
#[derive(Clone, Copy)]
pub struct Head {
    pub sender: usize,
    pub interface: u32,
    pub ip: u32,
    pub port: u16,
}

// Which slots hold packets: `count` of them, from `first` on.
// A ring in lent bytes: fixed memory, no heap, and nothing that can fail for want of it.
#[derive(Clone, Copy)]
pub struct Network {
    pub first: usize,
    pub count: usize,
}

// What stands in a slot before the packet: when it arrives, the head's four numbers, and the packet's length.
const SENDER: usize = 8;

const INTERFACE: usize = 16;

const IP: usize = 20;

const PORT: usize = 24;

const LENGTH: usize = 26;

const PACKET: usize = 28;

fn slot_at(number: usize) -> usize
    ensures { result ≡ slot_place number }
{
    number % Network::MOST * Network::SLOT
}

impl Network {
    pub const MOST: usize = 1024;

    pub const SLOT: usize = 544;

    pub const QUEUE: usize = 557_056;

    pub const MOST_PACKET: usize = 512;

    pub fn none() -> Network
        ensures { result ≡ record { first = 0; count = 0 } }
    {
        Network { first: 0, count: 0 }
    }

    pub fn is_full(self) -> bool
        ensures { result ≡ leb 1024 self.count }
    {
        self.count >= Network::MOST
    }

    // Puts a packet behind the others, where there is room for it.
    pub fn send(self, queue: &mut [u8], arrival: u64, head: Head, packet: &[u8]) -> Network
        ensures value { result ≡ after_send self (length queue.old) (length packet.now) }
        ensures queue_after { queue.new ≡ queue_after_send self (record { arrival = arrival; head = head; bytes = packet.now }) queue.old }
    {
        if !can_take(self.count, queue.len(), packet.len()) {
            return self;
        }
        let slot = slot_at(self.first % Network::MOST + self.count);
        write_slot(queue, slot, arrival, head, packet);
        Network {
            first: self.first,
            count: self.count + 1,
        }
    }

    // When the first packet arrives.
    #[tactic(auto, unfolding(crate::specs::Queue::packet_at))]
    pub fn arrival(self, queue: &[u8]) -> u64
        ensures { result ≡ (packet_at (slot_place self.first) queue.now).arrival }
    {
        big_endian::read::<u64>(queue, slot_at(self.first))
    }

    #[tactic(auto, unfolding(crate::specs::Queue::packet_at))]
    pub fn head(self, queue: &[u8]) -> Head
        ensures { result ≡ (packet_at (slot_place self.first) queue.now).head }
    {
        let slot = slot_at(self.first);
        Head {
            sender: big_endian::read::<u64>(queue, slot + SENDER) as usize,
            interface: big_endian::read::<u32>(queue, slot + INTERFACE),
            ip: big_endian::read::<u32>(queue, slot + IP),
            port: big_endian::read::<u16>(queue, slot + PORT),
        }
    }

    // Copies the first packet to the front of `part`, if it fits, and tells how long it is.
    pub fn packet(self, queue: &[u8], part: &mut [u8]) -> usize
        ensures value { result ≡ length (packet_at (slot_place self.first) queue.now).bytes }
        ensures part_after { part.new ≡ put 0 (packet_at (slot_place self.first) queue.now).bytes part.old }
    {
        let slot = slot_at(self.first);
        let size = big_endian::read::<u16>(queue, slot + LENGTH) as usize;
        let start = slot + PACKET;
        let end = start + size;
        if size > Network::MOST_PACKET || end > queue.len() {
            return 0;
        }
        big_endian::write_bytes(part, 0, &queue[start..end]);
        size
    }

    // Takes the first packet off.
    #[tactic(auto, unfolding(crate::specs::Queue::without_first))]
    pub fn without_first(self) -> Network
        ensures { result ≡ without_first self }
    {
        if self.count == 0 {
            return self;
        }
        Network {
            first: (self.first % Network::MOST + 1) % Network::MOST,
            count: self.count - 1,
        }
    }
}

// Whether there is a free slot, the queue has all its slots, and the packet fits one.
fn can_take(count: usize, room: usize, size: usize) -> bool
    ensures { result ≡ ltb count 1024 && (leb 557056 room && leb size 512) }
{
    count < Network::MOST && room >= Network::QUEUE && size <= Network::MOST_PACKET
}

fn write_slot(queue: &mut [u8], slot: usize, arrival: u64, head: Head, packet: &[u8])
    requires slot_in_bounds { slot + 544 ≤ length queue.old }
    requires packet_len_bound { length packet.now ≤ 512 }
    ensures { queue.new ≡ put slot (slot_bytes (record { arrival = arrival; head = head; bytes = packet.now })) queue.old }
{
    big_endian::write::<u64>(queue, slot, arrival);
    big_endian::write::<u64>(queue, slot + SENDER, head.sender as u64);
    big_endian::write::<u32>(queue, slot + INTERFACE, head.interface);
    big_endian::write::<u32>(queue, slot + IP, head.ip);
    big_endian::write::<u16>(queue, slot + PORT, head.port);
    big_endian::write::<u16>(queue, slot + LENGTH, packet.len() as u16);
    big_endian::write_bytes(queue, slot + PACKET, packet);
}
