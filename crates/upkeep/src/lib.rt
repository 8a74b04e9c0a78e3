// Upkeep: broadcasts, pings, neighbours that are dropped, the timer, the count (produce_outputs of engine.rs).
// What is due at a time goes in here; what a call does before it is of the calls.
#![tactic(auto)]

mod due;
mod settle;

ghost use Rattle.std.specs.Prelude.{◌≡◌, List, []};
ghost use Rattle.wire.specs.declared.SocketAddrPlain.{SocketAddrPlain};
ghost use Rattle.model.specs.Peers.{Interface};
ghost use Rattle.model.specs.Produce.{produce_outputs};
ghost use Rattle.interface_map.specs.Held.{interfaces_of};
ghost use Rattle.peer_walks.specs.Inner.Asked.{addrs_of};
ghost use Rattle.engine_state.specs.Held.{held_in};
ghost use Rattle.answer.specs.Inner.Planned.{plan_of};

use answer::Plan;
use due::{broadcast, changed_count, next_after};
use engine_state::Core;
use peer_table::{Asked, Numbers, Words};
use settle::settle;
use time::HostTime;
use timeline::SessionState;

// The core after upkeep, and what upkeep puts out: the addresses that it asks stand in the lent list.
#[derive(Clone, Copy)]
pub struct Produced {
    pub core: Core,
    pub plan: Plan,
}

pub fn produce_outputs(
    e: Core,
    words: &mut Words,
    numbers: &mut Numbers,
    asked: &mut Asked,
    at: HostTime,
) -> Produced
    ensures numbers_after { held_in result.core words.new numbers.new ≡ (produce_outputs at (held_in e words.old numbers.old)).box }
    ensures interfaces_after { plan_of result.plan (addrs_of result.plan.asked asked.new) (interfaces_of e.interfaces) ≡ (produce_outputs at (held_in e words.old numbers.old)).outputs }
{
    if !e.enabled {
        return Produced {
            core: e,
            plan: no_plan(at),
        };
    }
    // A broadcast says what the engine is as it came in.
    let own = e.own();
    let next = next_after(e.next_broadcast, at);
    let settled = settle(own, words, numbers, asked, e.count, next, at);
    let resolved = settled.resolved;
    Produced {
        core: Core {
            session_id: resolved.own.session_id,
            session_offset: resolved.own.session_offset,
            state: resolved.own.state,
            count: settled.left,
            num_session_peers: settled.count,
            next_broadcast: resolved.next_broadcast,
            ..e
        },
        plan: Plan {
            multicast: broadcast(own, e.next_broadcast, at),
            now: at,
            asked: settled.asked,
            report: resolved.report,
            timer: settled.timer,
            count: changed_count(settled.count, e.num_session_peers),
        },
    }
}

// A plan that puts out nothing.
fn no_plan(at: HostTime) -> Plan
    ensures { (to : List SocketAddrPlain) (is : List Interface) → plan_of result (addrs_of result.asked to) is ≡ [] }
{
    Plan {
        multicast: None,
        now: at,
        asked: 0,
        report: None,
        timer: None,
        count: None,
    }
}
