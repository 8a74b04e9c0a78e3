// Some neighbours go, and the rows of the others move down to the front.
ghost use Rattle.std.specs.Prelude.{◌≡◌, Bool};
ghost use Rattle.std.specs.Int.Signed.{le_z};
ghost use Rattle.lists.specs.Lists.{keep, without};
ghost use Rattle.model.specs.Peers.{Peer, peer_key};
ghost use Rattle.peer_table.specs.Rows.{peer_at, peers_of};
ghost use Rattle.peer_table.specs.Inner.Changed.{Changed};
ghost use Rattle.peer_walks.specs.Inner.Tests.{StaysBy};

use lists::held;
use peer_table::{MOST, Numbers, Words, id_at, move_row, seen_at};
use time::HostTime;
use wire::NodeId;

// One that stays where it is is not copied.
fn move_down(words: &mut Words, numbers: &mut Numbers, from: usize, to: usize)
    ensures { Changed words.old words.new numbers.old numbers.new to (peer_at words.old numbers.old from) }
{
    if from == to {
        return;
    }
    move_row(words, numbers, from, to);
}

// Those whose id and time stay are kept. How many are left.
fn retain<F: Fn(NodeId, HostTime) -> bool>(
    words: &mut Words,
    numbers: &mut Numbers,
    count: usize,
    stays: F,
) -> usize
    requires { F.IsAlwaysCallable stays }
    ensures { (test : Peer → Bool) → StaysBy (F.post stays) test → peers_of result words.new numbers.new ≡ keep test (peers_of count words.old numbers.old) }
{
    let n = held(count, MOST);
    let mut kept = 0;
    for i in 0..n {
        let id = id_at(words, i);
        let seen = seen_at(numbers, i);
        if stays(id, seen) {
            move_down(words, numbers, i, kept);
            kept += 1;
        }
    }
    kept
}

// Those last seen before t go. How many are left.
pub fn retain_since(words: &mut Words, numbers: &mut Numbers, count: usize, t: HostTime) -> usize
    ensures { peers_of result words.new numbers.new ≡ keep (λ p. le_z t.0 p.last_seen.0) (peers_of count words.old numbers.old) }
{
    retain(words, numbers, count, |_, seen| t <= seen)
}

// Those with this id go. How many are left.
#[tactic(auto, unfolding(lists::specs::Lists::without))]
pub fn remove(words: &mut Words, numbers: &mut Numbers, count: usize, id: NodeId) -> usize
    ensures { peers_of result words.new numbers.new ≡ without peer_key id.0 (peers_of count words.old numbers.old) }
{
    retain(words, numbers, count, |x, _| x != id)
}
