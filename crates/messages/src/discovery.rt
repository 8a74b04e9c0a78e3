// The messages of discovery: an alive inserts or updates a neighbour, and a bye removes it.
ghost use Rattle.std.specs.Prelude.{◌<◌, ◌≡◌, cond, List, ℤ, length};
ghost use Rattle.time.specs.declared.HostTime.{HostTime};
ghost use Rattle.wire.specs.declared.SocketAddrPlain.{SocketAddrPlain};
ghost use Rattle.wire.specs.declared.Message.TheVariants.{Discovery};
ghost use Rattle.lists.specs.Lists.{has_key};
ghost use Rattle.model.specs.Peers.{Samples, Peer, no_samples, peer_key};
ghost use Rattle.model.specs.Packet.{after_alive, handle_alive_of};
ghost use Rattle.peer.specs.Held.{peer};
ghost use Rattle.peer.specs.Inner.Said.{alive_msg};
ghost use Rattle.lists.specs.Inner.Places.{place_of};
ghost use Rattle.interface_map.specs.declared.Interfaces.{Interfaces};
ghost use Rattle.peer_table.specs.Rows.{peer_at, peers_of};
ghost use Rattle.peer_table.specs.Inner.Changed.{Changed};
ghost use Rattle.engine_state.specs.declared.OwnState.{OwnState};
ghost use Rattle.messages.specs.Inner.Heard.{arrival_of, box_of, Tells, Hears, HearsAlive, HearsByeBye};

use super::{Arrival, Heard, Refusal};
use answer::Reply;
use engine_state::OwnState;
use interface_map::{InterfaceId, Interfaces};
use peer::{AliveMsg, PeerState};
use peer_table::{MOST, Numbers, Words, clear_samples, peer_at, put_peer, sample_count};
use peer_walks::{find, insert, remove};
use wire::{DiscoveryMsg, NodeId};

#[tactic(auto, unfolding(model::specs::Calls::refusal_by, model::specs::Packet::handle_message, peer::specs::Inner::Said::alive_msg, crate::specs::Inner::Heard::box_of))]
pub(crate) fn handle_discovery(
    own: OwnState,
    interfaces: Interfaces,
    words: &mut Words,
    numbers: &mut Numbers,
    count: usize,
    arrival: Arrival,
    m: DiscoveryMsg,
) -> Result<Heard, Refusal>
    ensures { Hears result own interfaces count words.old words.new numbers.old numbers.new arrival (Some (Discovery m)) }
{
    match m {
        DiscoveryMsg::Alive {
            node_id,
            timeline,
            start_stop,
            session_id,
            mep4,
        } => {
            // The five fields stand in a variant of the wire's enum, whose shape its definitions fix, and have no type of their own there.
            let said = AliveMsg {
                node_id,
                timeline,
                start_stop,
                session_id,
                mep4,
            };
            handle_alive(own, interfaces, words, numbers, count, arrival, said)
        }
        DiscoveryMsg::ByeBye { node_id } => Ok(handle_byebye(words, numbers, count, node_id)),
    }
}

// The neighbour is updated where it stands, or inserted where it is new.
fn handle_alive(
    own: OwnState,
    interfaces: Interfaces,
    words: &mut Words,
    numbers: &mut Numbers,
    count: usize,
    arrival: Arrival,
    said: AliveMsg,
) -> Result<Heard, Refusal>
    ensures { HearsAlive result own interfaces count words.old words.new numbers.old numbers.new arrival (alive_msg said) }
{
    match find(words, count, said.node_id) {
        Some(i) => Ok(handle_alive_at(own, interfaces, words, numbers, count, i, arrival, said)),
        None => handle_new(own, interfaces, words, numbers, count, arrival, said),
    }
}

// From the one at i. Another session clears its samples.
fn handle_alive_at(
    own: OwnState,
    interfaces: Interfaces,
    words: &mut Words,
    numbers: &mut Numbers,
    count: usize,
    i: usize,
    arrival: Arrival,
    said: AliveMsg,
) -> Heard
    requires { i < 16 }
    ensures changed { Changed words.old words.new numbers.old numbers.new i (after_alive arrival.from (alive_msg said) arrival.now (peer_at words.old numbers.old i)) }
    ensures tells { (ps : List Peer) → Tells result count (handle_alive_of (box_of own interfaces ps) (arrival_of arrival) (alive_msg said) (peer_at words.old numbers.old i)) }
{
    let p = peer_at(words, numbers, i);
    let heard = p.after_alive(arrival.from, said, arrival.now);
    if p.session_changed(said) {
        clear_samples(words, i);
    }
    put_peer(words, numbers, i, heard);
    let samples = sample_count(words, i);
    answer_alive(
        own,
        interfaces,
        count,
        arrival.iface,
        p,
        heard,
        said,
        samples,
    )
}

// There is no room for a 17th: it is turned down, and nothing is done.
fn handle_new(
    own: OwnState,
    interfaces: Interfaces,
    words: &mut Words,
    numbers: &mut Numbers,
    count: usize,
    arrival: Arrival,
    said: AliveMsg,
) -> Result<Heard, Refusal>
    requires { place_of (has_key peer_key said.node_id.0) (peers_of count words.old numbers.old) ≡ None }
    ensures { HearsAlive result own interfaces count words.old words.new numbers.old numbers.new arrival (alive_msg said) }
{
    let is_full = MOST <= count;
    if is_full {
        return Err(Refusal::PeersFull);
    }
    let fresh = PeerState::new(said.node_id, arrival.from, arrival.now);
    let heard = fresh.after_alive(arrival.from, said, arrival.now);
    let grown = insert(words, numbers, count, heard);
    Ok(answer_alive(own, interfaces, grown, arrival.iface, fresh, heard, said, 0))
}

// From p, which became `heard` and has so many samples then: what is new is answered by our own alive, and calls for an election where there are any.
#[tactic(auto, using(crate::specs::Laws::Owner::some_held), unfolding(model::specs::Packet::handle_alive_of, model::specs::Packet::response, answer::specs::Inner::Planned::reply_outputs, model::specs::Engine::our_alive, engine_state::specs::Inner::OwnBox::own_box, crate::specs::Inner::Heard::box_of, peer::specs::Held::peer))]
fn answer_alive(
    own: OwnState,
    interfaces: Interfaces,
    count: usize,
    iface: InterfaceId,
    p: PeerState,
    heard: PeerState,
    said: AliveMsg,
    samples: usize,
) -> Heard
    ensures { (from : SocketAddrPlain) (at : HostTime) (ps : List Peer) (s t : Samples) → peer heard t ≡ after_alive from (alive_msg said) at (peer p s) → samples ≡ length t.offsets → Tells result count (handle_alive_of (box_of own interfaces ps) (record { iface = iface.0; from = from; now = at }) (alive_msg said) (peer p s)) }
{
    if !p.news(said) {
        return Heard {
            count,
            reply: None,
            needs_resolution: false,
        };
    }
    Heard {
        count,
        reply: Some(Reply::Response {
            iface,
            to: heard.addr,
            own,
            mep4: interfaces.addr_of(iface),
        }),
        needs_resolution: 0 < samples,
    }
}

#[tactic(auto, using(crate::specs::Laws::Owner::is_held), unfolding(crate::specs::Inner::Heard::heard, crate::specs::Inner::Heard::box_of, model::specs::Engine::with_peers, answer::specs::Inner::Planned::reply_outputs, model::specs::Packet::handle_byebye))]
fn handle_byebye(words: &mut Words, numbers: &mut Numbers, count: usize, id: NodeId) -> Heard
    ensures { (own : OwnState) (is : Interfaces) → HearsByeBye result own is count words.old words.new numbers.old numbers.new id }
{
    let place = find(words, count, id);
    let left = remove(words, numbers, count, id);
    Heard {
        count: left,
        reply: None,
        needs_resolution: place.is_some(),
    }
}
