// How a call in place that is done ends: with upkeep, whose outputs follow the call's own.
ghost use Rattle.std.specs.Prelude.{◌≡◌, drop};
ghost use Rattle.model.specs.Produce.{produce_outputs};
ghost use Rattle.engine_state.specs.Held.{held_in};
ghost use Rattle.call.specs.Inner.Answered.{written_answer, before_upkeep};

use super::answers::{NOBODY, write_call};
use answer::{CallPlan, Reply};
use engine_state::Core;
use peer_table::{Numbers, Words};
use time::HostTime;
use timeline::SessionState;
use upkeep::produce_outputs;

// Upkeep, and the answer: the reply to a packet, the report, and what upkeep puts out.
#[tactic(auto, unfolding(answer::specs::Inner::Planned::call_of))]
pub fn then_produce(
    e: Core,
    words: &mut Words,
    numbers: &mut Numbers,
    reply: Option<Reply>,
    report: Option<SessionState>,
    packet: &[u8],
    at: HostTime,
    buf: &mut [u8],
) -> Core
    ensures numbers_after { held_in result words.new numbers.new ≡ (produce_outputs at (held_in e words.old numbers.old)).box }
    ensures buf_after { buf.new ≡ written_answer (drop 9 packet.now) (before_upkeep (drop 9 packet.now) reply report (produce_outputs at (held_in e words.old numbers.old)).outputs) buf.old }
{
    let mut asked = NOBODY;
    let produced = produce_outputs(e, words, numbers, &mut asked, at);
    let outputs = CallPlan {
        reply,
        report,
        plan: produced.plan,
    };
    write_call(outputs, e.interfaces, &asked, packet, buf);
    produced.core
}
