// The place of a neighbour.
ghost use Rattle.std.specs.Prelude.{◌≡◌, List, Bool, ltb, ℤ};
ghost use Rattle.lists.specs.Lists.{has_key};
ghost use Rattle.wire.specs.Same.{same_addr};
ghost use Rattle.model.specs.Peers.{Peer, peer_key};
ghost use Rattle.lists.specs.Inner.Places.{place_of};
ghost use Rattle.peer_table.specs.Rows.{peers_of};
ghost use Rattle.peer_walks.specs.Inner.Tests.{FitsBy};

use lists::held;
use peer_table::{MOST, Words, addr_at, id_at};
use wire::{NodeId, SocketAddrPlain};

// The first whose id and address fit.
fn lookup<F: Fn(NodeId, SocketAddrPlain) -> bool>(
    words: &Words,
    count: usize,
    fits: F,
) -> Option<usize>
    requires { F.IsAlwaysCallable fits }
    ensures { (test : Peer → Bool) → FitsBy (F.post fits) test → (numbers : List ℤ) → result ≡ place_of test (peers_of count words.now numbers) }
{
    let n = held(count, MOST);
    for i in 0..n {
        let id = id_at(words, i);
        let addr = addr_at(words, i);
        if fits(id, addr) {
            return Some(i);
        }
    }
    None
}

// The first with this id.
pub fn find(words: &Words, count: usize, id: NodeId) -> Option<usize>
    ensures { (numbers : List ℤ) → result ≡ place_of (has_key peer_key id.0) (peers_of count words.now numbers) }
{
    lookup(words, count, |x, _| x == id)
}

// The first with this address.
pub fn find_addr(words: &Words, count: usize, addr: SocketAddrPlain) -> Option<usize>
    ensures { (numbers : List ℤ) → result ≡ place_of (λ p. same_addr p.addr addr) (peers_of count words.now numbers) }
{
    lookup(words, count, |_, x| x == addr)
}

// The first with a larger id.
pub(crate) fn find_above(words: &Words, count: usize, id: NodeId) -> Option<usize>
    ensures { (numbers : List ℤ) → result ≡ place_of (λ p. ltb id.0 (peer_key p)) (peers_of count words.now numbers) }
{
    lookup(words, count, |x, _| id.0 < x.0)
}
