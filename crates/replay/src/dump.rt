// First byte 09: all that the engine holds. Each function puts a part of it at `at` and answers the place behind it.
ghost use Rattle.std.specs.Prelude.{◌≡◌, ◌+◌, ◌*◌, ◌≤◌, ◌<◌};

use crate::{fields, packet_fields};
use engine::{Core, Numbers, Words};
use interface_map::{Interface, Interfaces};
use lists::held;
use peer::PeerState;
use peer_table::{MOST, peer_at, ping_time_at, sample_at, sample_count};

pub(crate) fn put_engine(out: &mut [u8], e: Core, words: &Words, numbers: &Numbers) -> usize
    ensures { result ≤ 6648 }
{
    let at = put_session(out, e);
    let at = put_state(out, at, e);
    let at = put_interfaces(out, at, e.interfaces);
    put_peers(out, at, words, numbers, e.count)
}

// Who the engine is and its session, from the front on.
fn put_session(out: &mut [u8], e: Core) -> usize
    ensures { result ≡ 25 }
{
    let at = packet_fields::put_node(out, 0, e.node_id);
    let at = fields::put_u8(out, at, e.enabled as u8);
    let at = packet_fields::put_node(out, at, e.session_id);
    fields::put_i64(out, at, e.session_offset.0)
}

fn put_state(out: &mut [u8], at: usize, e: Core) -> usize
    requires { at < 1000 }
    ensures { result ≡ at + 53 }
{
    let at = fields::put_state(out, at, e.state);
    let at = fields::put_i64(out, at, e.next_broadcast.0);
    fields::put_u32(out, at, e.num_session_peers)
}

fn put_interfaces(out: &mut [u8], at: usize, interfaces: Interfaces) -> usize
    requires { at < 1000 }
    ensures { result ≤ at + 41 }
{
    let held = interfaces.list();
    let mut at = fields::put_u8(out, at, held.len() as u8);
    for interface in held {
        at = put_interface(out, at, interface);
    }
    at
}

fn put_interface(out: &mut [u8], at: usize, interface: &Interface) -> usize
    requires { at < 65000 }
    ensures { result ≡ at + 10 }
{
    let at = fields::put_u32(out, at, interface.id.0);
    packet_fields::put_addr(out, at, interface.addr)
}

fn put_peers(out: &mut [u8], at: usize, words: &Words, numbers: &Numbers, count: usize) -> usize
    requires { at < 1000 }
    ensures { result ≤ at + 6529 }
{
    let peers = held(count, MOST);
    let mut at = fields::put_u8(out, at, peers as u8);
    for i in 0..peers {
        at = put_peer(out, at, words, numbers, i);
    }
    at
}

fn put_peer(out: &mut [u8], at: usize, words: &Words, numbers: &Numbers, i: usize) -> usize
    requires { at < 65000 }
    ensures { result ≤ at + 408 }
{
    let peer = peer_at(words, numbers, i);
    let at = put_said(out, at, peer);
    let at = fields::put_i64(out, at, peer.last_seen.0);
    let at = packet_fields::put_addr(out, at, peer.addr);
    let at = put_samples(out, at, words, numbers, i);
    put_measuring(out, at, peer)
}

// What a neighbour said of itself.
fn put_said(out: &mut [u8], at: usize, peer: PeerState) -> usize
    requires { at < 65000 }
    ensures { result ≤ at + 60 }
{
    let at = packet_fields::put_node(out, at, peer.id);
    let at = packet_fields::put_optional(out, at, peer.session_id);
    let at = packet_fields::put_optional(out, at, peer.timeline_ghost);
    packet_fields::put_optional(out, at, peer.start_stop_ghost)
}

// The samples in the order in which they were taken, and then the time of the ping that each of them answers.
fn put_samples(out: &mut [u8], at: usize, words: &Words, numbers: &Numbers, i: usize) -> usize
    requires { at < 65100 }
    ensures { result ≤ at + 321 }
{
    let count = samples_held(words, i);
    let at = fields::put_u8(out, at, count as u8);
    let at = put_each(out, at, count, |j| sample_at(words, numbers, i, j).0);
    put_each(out, at, count, |j| ping_time_at(words, numbers, i, j).0)
}

fn samples_held(words: &Words, i: usize) -> usize
    ensures { result ≤ 20 }
{
    sample_count(words, i)
}

// The number of each place below `count`.
fn put_each<F: Fn(usize) -> i64>(out: &mut [u8], at: usize, count: usize, number: F) -> usize
    requires at_bound { at < 65300 }
    requires count_bound { count ≤ 20 }
    requires callable { F.IsAlwaysCallable number }
    ensures { result ≤ at + 8 * count }
{
    let mut at = at;
    for j in 0..count {
        at = fields::put_i64(out, at, number(j));
    }
    at
}

// How far its measuring is.
fn put_measuring(out: &mut [u8], at: usize, peer: PeerState) -> usize
    requires { at < 65500 }
    ensures { result ≡ at + 13 }
{
    let at = fields::put_i64(out, at, peer.next_ping_time.0);
    let at = fields::put_u32(out, at, peer.ping_timeouts);
    fields::put_u8(out, at, peer.measuring as u8)
}
