// Who is pinged: the addresses go into a lent list.
ghost use Rattle.std.specs.Prelude.{◌≡◌, map};
ghost use Rattle.model.specs.Produce.{after_ping, asks};
ghost use Rattle.peer_walks.specs.Inner.Asked.{asked, addrs_of};
ghost use Rattle.peer_table.specs.Rows.{peer_at, peers_of};
ghost use Rattle.peer_table.specs.Inner.Changed.{Changed};

use lists::held;
use peer::ping_due;
use peer_table::{
    Asked, MOST, Numbers, Words, addr_at, is_measuring, next_ping_at, peer_at, put_peer,
};
use time::HostTime;

// Whether a ping goes out to the one at i, which it changes. One whose ping is not due is not stored again.
fn poll_at(words: &mut Words, numbers: &mut Numbers, i: usize, at: HostTime) -> bool
    ensures changed { Changed words.old words.new numbers.old numbers.new i (after_ping at (peer_at words.old numbers.old i)) }
    ensures value { result ≡ asks at (peer_at words.old numbers.old i) }
{
    let measuring = is_measuring(words, i);
    let next = next_ping_at(numbers, i);
    if !ping_due(measuring, next, at) {
        return false;
    }
    let p = peer_at(words, numbers, i);
    put_peer(words, numbers, i, p.after_ping(at));
    p.asks(at)
}

// How many are asked.
pub fn poll(
    words: &mut Words,
    numbers: &mut Numbers,
    to: &mut Asked,
    count: usize,
    at: HostTime,
) -> usize
    ensures numbers_after { peers_of count words.new numbers.new ≡ map (after_ping at) (peers_of count words.old numbers.old) }
    ensures to_after { addrs_of result to.new ≡ asked at (peers_of count words.old numbers.old) }
{
    let n = held(count, MOST);
    let mut k = 0;
    for i in 0..n {
        if poll_at(words, numbers, i, at) {
            to[k] = addr_at(words, i);
            k += 1;
        }
    }
    k
}
