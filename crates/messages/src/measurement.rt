// The messages of measurement: a ping is answered, and a pong gives a sample of the neighbour that it is from.
ghost use Rattle.std.specs.Prelude.{ℕ, ◌<◌, ◌≡◌, ◌&&◌, not, List, ℤ, length};
ghost use Rattle.wire.specs.declared.Message.TheVariants.{Measurement};
ghost use Rattle.model.specs.Peers.{Samples};
ghost use Rattle.model.specs.Engine.{Box};
ghost use Rattle.model.specs.Packet.{moves, after_pong, handle_pong_of};
ghost use Rattle.model.specs.Calls.{sampled_before};
ghost use Rattle.peer.specs.Held.{peer};
ghost use Rattle.peer.specs.Inner.Said.{pong_msg};
ghost use Rattle.interface_map.specs.declared.Interfaces.{Interfaces};
ghost use Rattle.peer_table.specs.Rows.{peer_at};
ghost use Rattle.peer_table.specs.Inner.Changed.{Changed};
ghost use Rattle.engine_state.specs.declared.OwnState.{OwnState};
ghost use Rattle.messages.specs.Inner.Heard.{arrival_of, Tells, Hears, HearsPing, HearsPong};

use super::{Arrival, Heard, Refusal};
use answer::Reply;
use engine_state::OwnState;
use peer::{PeerState, PongMsg, sample};
use peer_table::{
    Numbers, Words, clear_samples, has_ping_time, peer_at, push_sample, put_peer, sample_count,
};
use peer_walks::find_addr;
use wire::{MeasurementMsg, NodeId};

#[tactic(auto, unfolding(model::specs::Calls::refusal_by, model::specs::Packet::handle_message, peer::specs::Inner::Said::pong_msg))]
pub(crate) fn handle_measurement(
    own: OwnState,
    words: &mut Words,
    numbers: &mut Numbers,
    count: usize,
    arrival: Arrival,
    m: MeasurementMsg,
) -> Result<Heard, Refusal>
    ensures { (is : Interfaces) → Hears result own is count words.old words.new numbers.old numbers.new arrival (Some (Measurement m)) }
{
    match m {
        MeasurementMsg::Ping { .. } => Ok(handle_ping(own, count, arrival)),
        MeasurementMsg::Pong {
            session_id,
            ghost_time,
            ping_host_time,
            ping_prev_ghost_time,
        } => {
            let said = PongMsg {
                session_id,
                ghost_time,
                ping_host_time,
                ping_prev_ghost_time,
            };
            handle_pong(words, numbers, count, arrival, said)
        }
    }
}

// The pong has our shared time. What it echoes is lent to the writer later.
#[tactic(auto, unfolding(crate::specs::Inner::Heard::heard, crate::specs::Inner::Heard::box_of, model::specs::Engine::with_peers, answer::specs::Inner::Planned::reply_outputs, model::specs::Packet::handle_ping))]
fn handle_ping(own: OwnState, count: usize, arrival: Arrival) -> Heard
    ensures { (is : Interfaces) (words : List ℕ) (numbers : List ℤ) → HearsPing result own is count words numbers arrival }
{
    Heard {
        count,
        reply: Some(Reply::Pong {
            iface: arrival.iface,
            to: arrival.from,
            session_id: own.session_id,
            ghost_time: arrival.now.wrapping_add(own.session_offset),
        }),
        needs_resolution: false,
    }
}

// Whether a pong of p that gives this session may be in answer to a ping that was answered before: p is measured, and stays in its session.
#[tactic(auto, unfolding(peer::specs::Held::peer))]
fn may_be_doubled(p: PeerState, session: Option<NodeId>) -> bool
    ensures { (s : Samples) → result ≡ ((peer p s).measuring && not (moves session (peer p s))) }
{
    let stays = !p.moves(session);
    p.measuring && stays
}

// Whether the pong is in answer to a ping of which the one at i has a sample.
fn sampled_before<'a>(words: &'a Words, numbers: &'a Numbers, i: usize, said: PongMsg) -> bool
    ensures { result ≡ sampled_before said.session_id said.ping_host_time (peer_at words.now numbers.now i) }
{
    may_be_doubled(peer_at(words, numbers, i), said.session_id)
        && has_ping_time(words, numbers, i, said.ping_host_time)
}

// It belongs to the first neighbour with the sender's address, and does nothing where there is none. A ping time counts once.
fn handle_pong(
    words: &mut Words,
    numbers: &mut Numbers,
    count: usize,
    arrival: Arrival,
    said: PongMsg,
) -> Result<Heard, Refusal>
    ensures { (own : OwnState) (is : Interfaces) → HearsPong result own is count words.old words.new numbers.old numbers.new arrival (pong_msg said) }
{
    let Some(i) = find_addr(words, count, arrival.from) else {
        return Ok(Heard {
            count,
            reply: None,
            needs_resolution: false,
        });
    };
    if sampled_before(words, numbers, i, said) {
        return Err(Refusal::PongDoubled);
    }
    Ok(handle_pong_at(words, numbers, count, i, arrival, said))
}

// From the one at i: the session that it gives, and then its sample.
fn handle_pong_at(
    words: &mut Words,
    numbers: &mut Numbers,
    count: usize,
    i: usize,
    arrival: Arrival,
    said: PongMsg,
) -> Heard
    requires { i < 16 }
    ensures changed { Changed words.old words.new numbers.old numbers.new i (after_pong (pong_msg said) arrival.now (peer_at words.old numbers.old i)) }
    ensures tells { (e : Box) → Tells result count (handle_pong_of e (arrival_of arrival) (pong_msg said) (Some (peer_at words.old numbers.old i))) }
{
    let p = peer_at(words, numbers, i);
    let moved = p.moved(said.session_id);
    if p.moves(said.session_id) {
        clear_samples(words, i);
    }
    if moved.measuring {
        let offset = sample(
            said.ping_prev_ghost_time,
            said.ghost_time,
            said.ping_host_time,
            arrival.now,
        );
        push_sample(words, numbers, i, said.ping_host_time, offset);
    }
    let samples = sample_count(words, i);
    let heard = moved.measured(samples, arrival.now);
    put_peer(words, numbers, i, heard);
    answer_pong(count, arrival, p, heard, said, samples)
}

// From p, which became `heard` and has so many samples then. While it is measured the next ping goes out at once. The first sample calls for an election,
// and so does the last.
#[tactic(auto, unfolding(model::specs::Packet::handle_pong_of, answer::specs::Inner::Planned::reply_outputs, peer::specs::Held::peer, peer::specs::Inner::Said::pong_msg, model::specs::Packet::after_pong, model::specs::Packet::measured, model::specs::Packet::still_measuring, model::specs::Packet::moved))]
fn answer_pong(
    count: usize,
    arrival: Arrival,
    p: PeerState,
    heard: PeerState,
    said: PongMsg,
    samples: usize,
) -> Heard
    ensures { (e : Box) (s t : Samples) → peer heard t ≡ after_pong (pong_msg said) arrival.now (peer p s) → samples ≡ length t.offsets → Tells result count (handle_pong_of e (arrival_of arrival) (pong_msg said) (Some (peer p s))) }
{
    if !heard.measuring {
        return Heard {
            count,
            reply: None,
            needs_resolution: p.measuring,
        };
    }
    Heard {
        count,
        reply: Some(Reply::Ping {
            iface: arrival.iface,
            to: p.addr,
            host_time: arrival.now,
            prev_ghost_time: said.ghost_time,
        }),
        needs_resolution: samples == 1,
    }
}
