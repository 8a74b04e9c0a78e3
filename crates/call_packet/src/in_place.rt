// A packet that came in on an interface, in place: the core of the engine by value, its neighbours in lent tables.
ghost use Rattle.std.specs.Prelude.{◌≡◌, length, drop};
ghost use Rattle.model.specs.Produce.{produce_outputs};
ghost use Rattle.model.specs.Calls.{packet, step, resolved_if_needed};
ghost use Rattle.model.specs.Answer.{buffer_after};
ghost use Rattle.peer_table.specs.Rows.{peers_of};
ghost use Rattle.engine_state.specs.Held.{held_in, own_in};
ghost use Rattle.election.specs.Inner.Resolution.{resolution_if};
ghost use Rattle.messages.specs.Inner.Heard.{heard};
ghost use Rattle.call.specs.Inner.Answered.{written_answer};
ghost use Rattle.call.specs.Called.{ReturnsIn};
ghost use Rattle.call_packet.specs.Inner.Received.{after_message, decided_core};

use super::hears;
use call::{DONE, LONGEST_PACKET, Refusal, Told, admit, then_produce, write_empty};
use election::{Resolved, resolve_session, unresolved};
use engine_state::Core;
use interface_map::InterfaceId;
use messages::{Arrival, Heard, handle_message};
use peer_table::{Numbers, Words};
use time::HostTime;
use wire::SocketAddrPlain;
use wire_reader::parse_message;

// The core with so many neighbours and what an election may have decided.
fn decided_core(e: Core, count: usize, elected: Resolved) -> Core
    ensures { result ≡ decided_core e count elected }
{
    Core {
        session_id: elected.own.session_id,
        session_offset: elected.own.session_offset,
        state: elected.own.state,
        count,
        next_broadcast: elected.next_broadcast,
        ..e
    }
}

// The election that a message may call for.
#[tactic(auto, unfolding(election::specs::Inner::Resolution::resolution_if))]
fn elected_after<'a>(
    e: Core,
    taken: Heard,
    words: &'a Words,
    numbers: &'a Numbers,
    at: HostTime,
) -> Resolved
    ensures { result ≡ resolution_if taken.needs_resolution at (own_in e) e.next_broadcast (peers_of taken.count words.now numbers.now) }
{
    if taken.needs_resolution {
        resolve_session(e.own(), words, numbers, taken.count, e.next_broadcast, at)
    } else {
        unresolved(e.own(), e.next_broadcast)
    }
}

// After a message: the election that it may call for, and upkeep.
fn take_heard(
    e: Core,
    taken: Heard,
    words: &mut Words,
    numbers: &mut Numbers,
    packet: &[u8],
    at: HostTime,
    buf: &mut [u8],
) -> Core
    ensures numbers_after { held_in result words.new numbers.new ≡ (produce_outputs at (resolved_if_needed at (heard taken (peers_of taken.count words.old numbers.old) packet.now (held_in e words.old numbers.old))).box).box }
    ensures buf_after { buf.new ≡ written_answer (drop 9 packet.now) (after_message at (heard taken (peers_of taken.count words.old numbers.old) packet.now (held_in e words.old numbers.old))) buf.old }
{
    let elected = elected_after(e, taken, words, numbers, at);
    let core = decided_core(e, taken.count, elected);
    then_produce(
        core,
        words,
        numbers,
        taken.reply,
        elected.report,
        packet,
        at,
        buf,
    )
}

pub fn packet_in(
    e: Core,
    words: &mut Words,
    numbers: &mut Numbers,
    iface: InterfaceId,
    from: SocketAddrPlain,
    bytes: &[u8],
    at: HostTime,
    buf: &mut [u8],
) -> Told
    ensures returns_in { ReturnsIn e words.old numbers.old (packet iface.0 from bytes.now at (length buf.old)) result words.new numbers.new }
    ensures buf_after { buf.new ≡ buffer_after (step (held_in e words.old numbers.old) (packet iface.0 from bytes.now at (length buf.old))) buf.old }
{
    if let Err(refusal) = admit(at, buf.len()) {
        return Told {
            core: e,
            number: refusal.number(),
        };
    }
    if LONGEST_PACKET < bytes.len() {
        return Told {
            core: e,
            number: Refusal::PacketTooLong.number(),
        };
    }
    let m = parse_message(bytes);
    if !hears(e.enabled, e.node_id, m) {
        write_empty(buf);
        return Told {
            core: e,
            number: DONE,
        };
    }
    let arrival = Arrival {
        iface,
        from,
        now: at,
    };
    match handle_message(e.own(), e.interfaces, words, numbers, e.count, arrival, m) {
        Err(turned_down) => Told {
            core: e,
            number: turned_down.number(),
        },
        Ok(taken) => {
            let core = take_heard(e, taken, words, numbers, bytes, at, buf);
            Told { core, number: DONE }
        }
    }
}
