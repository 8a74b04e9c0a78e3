// All that upkeep wants to know of the neighbours, from one walk over them.
ghost use Rattle.std.specs.Prelude.{◌<◌, ◌≡◌, pos, length};
ghost use Rattle.model.specs.Sums.{never, minus};
ghost use Rattle.model.specs.Peers.{peers_in};
ghost use Rattle.model.specs.Produce.{min_last_seen, earliest_ping};
ghost use Rattle.peer_table.specs.Rows.{peers_of};
ghost use Rattle.peer_walks.specs.Inner.Calm.{calm, with_one};

use super::Overview;
use lists::held;
use peer::{PeerState, ping_due};
use peer_table::{MOST, Numbers, Words, is_measuring, next_ping_at, seen_at, session_at};
use time::HostTime;
use wire::{NodeId, is_node};

// A neighbour that was last seen before this time goes.
pub fn oldest_kept(now: HostTime) -> HostTime
    ensures { result ≡ minus now (pos 6_000_000) }
{
    HostTime(signed::wrapping_sub(now.0, PeerState::TIMEOUT.0))
}

// With one more neighbour.
fn surveyed(
    s: Overview,
    rests: bool,
    measuring: bool,
    ping: HostTime,
    seen: HostTime,
    counts: bool,
) -> Overview
    requires { s.count < 16 }
    ensures { result ≡ with_one s rests measuring ping seen counts }
{
    Overview {
        is_calm: s.is_calm && rests,
        ping: if measuring { s.ping.min(ping) } else { s.ping },
        seen: s.seen.min(seen),
        count: s.count + u32::from(counts),
    }
}

pub fn survey<'a>(
    words: &'a Words,
    numbers: &'a Numbers,
    count: usize,
    next: HostTime,
    session: NodeId,
    at: HostTime,
) -> Overview
    ensures is_calm_value { result.is_calm ≡ calm at (peers_of count words.now numbers.now) }
    ensures ping_value { result.ping ≡ earliest_ping next (peers_of count words.now numbers.now) }
    ensures seen_value { result.seen ≡ min_last_seen never (peers_of count words.now numbers.now) }
    ensures count_value { result.count ≡ length (peers_in session (peers_of count words.now numbers.now)) }
{
    let cutoff = oldest_kept(at);
    let n = held(count, MOST);
    let mut s = Overview {
        is_calm: true,
        ping: next,
        seen: HostTime::NEVER,
        count: 0,
    };
    for i in 0..n {
        let ping = next_ping_at(numbers, i);
        let seen = seen_at(numbers, i);
        let other = session_at(words, i);
        let measuring = is_measuring(words, i);
        let rests = !ping_due(measuring, ping, at) && cutoff <= seen;
        let counts = is_node(other, session);
        s = surveyed(s, rests, measuring, ping, seen, counts);
    }
    s
}
