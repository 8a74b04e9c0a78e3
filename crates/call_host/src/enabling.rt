// Switching on and off.
ghost use Rattle.std.specs.Prelude.{ℕ, ◌≡◌, cond, [], ◌∷◌, List, eqb, ℤ, length};
ghost use Rattle.model.specs.Sums.{neg64};
ghost use Rattle.model.specs.Engine.{state_changed, num_peers_changed};
ghost use Rattle.model.specs.Calls.{started, next_node_id, unstarted, switch, step, switched_on, switched_off, switch_on, outputs_of};
ghost use Rattle.model.specs.Produce.{produce_outputs};
ghost use Rattle.model.specs.Answer.{buffer_after};
ghost use Rattle.interface_map.specs.Held.{interfaces_of};
ghost use Rattle.answer.specs.Inner.Planned.{state_outputs, count_output};
ghost use Rattle.engine_state.specs.Held.{held_in};
ghost use Rattle.call.specs.Inner.Answered.{written_answer};
ghost use Rattle.call.specs.Called.{ReturnsIn};
ghost use Rattle.call_host.specs.Inner.Bye.{bye, SaysBye};

use answer::{CallPlan, Multicast, Plan};
use call::{DONE, NOBODY, Told, admit, then_produce, write_call, write_empty};
use engine_state::Core;
use peer_table::{Numbers, Words};
use time::{Duration, HostTime};
use timeline::{SessionState, Timeline};
use wire::NodeId;

// ---- on

fn is_unstarted(s: SessionState) -> bool
    ensures { result ≡ unstarted s }
{
    s.timeline.time_origin == HostTime(0)
}

// A line whose time origin is 0 begins now.
#[tactic(auto, unfolding(model::specs::Calls::started))]
fn started(at: HostTime, s: SessionState) -> SessionState
    ensures { result ≡ started at s }
{
    SessionState {
        timeline: Timeline {
            time_origin: at,
            ..s.timeline
        },
        ..s
    }
}

fn state_on(at: HostTime, s: SessionState) -> SessionState
    ensures { result ≡ cond (unstarted s) (started at s) s }
{
    if is_unstarted(s) { started(at, s) } else { s }
}

#[tactic(auto, unfolding(answer::specs::Inner::Planned::state_outputs))]
fn report_on(at: HostTime, s: SessionState) -> Option<SessionState>
    ensures { state_outputs result ≡ cond (unstarted s) (state_changed (started at s) ∷ []) [] }
{
    is_unstarted(s).then(|| started(at, s))
}

// An engine that is alone is in a session of its own, whose shared time is 0 now.
fn session_on(is_alone: bool, node_id: NodeId, session_id: NodeId) -> NodeId
    ensures { result ≡ cond is_alone node_id session_id }
{
    if is_alone { node_id } else { session_id }
}

fn offset_on(is_alone: bool, at: HostTime, offset: Duration) -> Duration
    ensures { result.0 ≡ cond is_alone (neg64 at.0) offset.0 }
{
    if is_alone {
        Duration(signed::wrapping_neg(at.0))
    } else {
        offset
    }
}

#[tactic(auto, using(crate::specs::Laws::SwitchedOn::no_rows_held), unfolding(model::specs::Calls::switched_on, engine_state::specs::Held::core_box))]
fn switched_on(e: Core, at: HostTime) -> Core
    ensures { (words : List ℕ) (numbers : List ℤ) → held_in result words numbers ≡ switched_on (held_in e words numbers) at }
{
    let is_alone = e.count == 0;
    Core {
        enabled: true,
        session_id: session_on(is_alone, e.node_id, e.session_id),
        session_offset: offset_on(is_alone, at, e.session_offset),
        state: state_on(at, e.state),
        next_broadcast: at,
        ..e
    }
}

#[tactic(auto, unfolding(model::specs::Calls::switch_on, model::specs::Calls::then_produce, engine_state::specs::Held::core_box, answer::specs::Inner::Planned::reply_outputs))]
fn switch_on(
    e: Core,
    words: &mut Words,
    numbers: &mut Numbers,
    at: HostTime,
    buf: &mut [u8],
) -> Core
    ensures numbers_after { held_in result words.new numbers.new ≡ (produce_outputs at (switched_on (held_in e words.old numbers.old) at)).box }
    ensures buf_after { buf.new ≡ written_answer [] (outputs_of (switch_on (held_in e words.old numbers.old) at)) buf.old }
{
    let report = report_on(at, e.state);
    let on = switched_on(e, at);
    then_produce(on, words, numbers, None, report, &[], at, buf)
}

// ---- off

// One more; the largest becomes 0.
#[tactic(auto, unfolding(model::specs::Calls::next_node_id))]
fn next_node_id(node_id: NodeId) -> NodeId
    ensures { result ≡ next_node_id node_id }
{
    NodeId(node_id.0.wrapping_add(1))
}

#[tactic(auto, unfolding(answer::specs::Inner::Planned::count_output))]
fn lost_count(reported: u32) -> Option<u32>
    ensures { count_output result ≡ cond (eqb reported 0) [] (num_peers_changed 0 ∷ []) }
{
    (reported != 0).then_some(0)
}

// The rows stay as they are: with a count of 0 they mean nobody.
#[tactic(auto, unfolding(model::specs::Calls::switched_off, engine_state::specs::Held::core_box, peer_table::specs::Rows::peers_of, peer_table::specs::Rows::upto))]
fn switched_off(e: Core) -> Core
    ensures { (words : List ℕ) (numbers : List ℤ) → held_in result words numbers ≡ switched_off (held_in e words numbers) }
{
    let node_id = next_node_id(e.node_id);
    Core {
        node_id,
        enabled: false,
        session_id: node_id,
        count: 0,
        num_session_peers: 0,
        ..e
    }
}

// A bye on every interface, and the count where it was not 0. Nobody is asked.
fn goodbye(node_id: NodeId, reported: u32, at: HostTime) -> CallPlan
    ensures { SaysBye result node_id reported }
{
    CallPlan {
        reply: None,
        report: None,
        plan: Plan {
            multicast: Some(Multicast::ByeBye(node_id)),
            now: at,
            asked: 0,
            report: None,
            timer: None,
            count: lost_count(reported),
        },
    }
}

fn switch_off(e: Core, at: HostTime, buf: &mut [u8]) -> Core
    ensures by_index { (words : List ℕ) (numbers : List ℤ) → held_in result words numbers ≡ switched_off (held_in e words numbers) }
    ensures buf_after { buf.new ≡ written_answer [] (bye e.node_id e.num_session_peers (interfaces_of e.interfaces)) buf.old }
{
    let outputs = goodbye(e.node_id, e.num_session_peers, at);
    write_call(outputs, e.interfaces, &NOBODY, &[], buf);
    switched_off(e)
}

// ---- the call

pub fn switch_in(
    e: Core,
    words: &mut Words,
    numbers: &mut Numbers,
    enabled: bool,
    at: HostTime,
    buf: &mut [u8],
) -> Told
    ensures returns_in { ReturnsIn e words.old numbers.old (switch enabled at (length buf.old)) result words.new numbers.new }
    ensures buf_after { buf.new ≡ buffer_after (step (held_in e words.old numbers.old) (switch enabled at (length buf.old))) buf.old }
{
    if let Err(refusal) = admit(at, buf.len()) {
        return Told {
            core: e,
            number: refusal.number(),
        };
    }
    if e.enabled == enabled {
        write_empty(buf);
        return Told {
            core: e,
            number: DONE,
        };
    }
    let core = if enabled {
        switch_on(e, words, numbers, at, buf)
    } else {
        switch_off(e, at, buf)
    };
    Told { core, number: DONE }
}
