//! From the bytes of a delivered frame to the plan of the node.
ghost use Rattle.std.specs.Prelude.{◌≡◌, Ok, Option, false, option_map};
ghost use Rattle.zb_delivery.specs.Receiving.{IsDrawOf, IsFitting, asked, place_of, received_plan};
ghost use Rattle.zb_model.specs.Answer.{answer};
ghost use Rattle.zb_model.specs.Data.{Bytes, Received as Delivered};
ghost use Rattle.zb_model.specs.State.{is_centre};
ghost use Rattle.zb_model_real.specs.Real.{real};
ghost use Rattle.zb_plan.specs.Answers.{IsAnswer, answer_to, terms};
ghost use Rattle.zb_plan.specs.Deciding.{IsAps, IsNwk};
ghost use Rattle.zb_rules.specs.Hearing.{heard_of};
ghost use Rattle.zb_rules.specs.Outcomes.{decided, told, Keeps};

use crate::judging::judge;
use crate::received::{Content, Received};
use zb_base::Key;
use zb_centre_rules::take_command as take_at_centre;
use zb_host::{Outcome, Plan};
use zb_judge::Known;
use zb_keys::Tables;
use zb_member_rules::{take_command as take_at_member, take_leave};
use zb_node_types::Refusal;
use zb_plan::{plan_of, plan_refusal};
use zb_rules::Effect;
use zb_seal::{KeyMemo, Term};
use zb_setting::Network;

/// Takes what was received by its rule, which for a command is that of the node's role. Data asks for nothing.
///
/// # Errors
/// Those of the rule.
fn take(network: &Network, tables: &Tables, received: &Received) -> Result<Effect, Refusal>
    requires { IsFitting received.now.content }
    ensures rule { (d : Option Bytes) → IsDrawOf network.now received.now.draw d → decided result
        ≡ told (asked network.now tables.now d (heard_of received.now.came) received.now.content) }
    ensures keeps { Keeps (place_of received.now.content) result }
{
    let heard = &received.came;
    match &received.content {
        Content::Leave(options) => return take_leave(network, heard.sender(), *options),
        Content::Command(command) => {
            if network.is_centre() {
                return take_at_centre(network, tables, heard, command, received.draw);
            }
            return take_at_member(network, tables, heard, command);
        }
        Content::Data => {}
    }
    Ok(Effect::nothing())
}

/// Plans what was received, after the terms that were accepted of its frame and are in `plan`. The effect has its
/// place here, so that a refusal clears none.
fn plan_taken(known: &Known<'_>, received: &Received, plan: &mut Plan<Outcome<Term, Refusal>>)
    requires fits { IsFitting received.now.content }
    requires nwk { IsNwk plan.old.out.accepted_nwk }
    requires aps { IsAps plan.old.out.accepted_aps }
    ensures { (d : Option Bytes) → IsDrawOf known.now.network.now received.now.draw d
        → IsAnswer plan.new (answer_to real known.now.network.now known.now.tables.now
        (received_plan known.now.network.now known.now.tables.now d
        (terms plan.old.out.accepted_nwk plan.old.out.accepted_aps) (Ok received.now))) }
{
    let effect = take(known.network, known.tables, received);
    plan_of(known.network, known.tables, known.memo, &effect, plan);
}

/// Writes the plan of what a delivered frame leads to. `draw`: the next key of the centre's supply.
///
/// The frame is judged, then its command is taken by the rule of the node's role. If it is refused after an
/// acceptance, that and its floor stay. A node that isn't the centre never draws. A key that the memo lacks is
/// expanded.
pub fn plan_received(
    network: &Network,
    tables: &Tables,
    memo: &KeyMemo,
    bytes: &[u8],
    draw: Option<Key>,
    plan: &mut Plan<Outcome<Term, Refusal>>,
)
    ensures answer { IsAnswer plan.new (answer real network.now tables.now
        (Delivered bytes.now (option_map (λ k. k.0) draw))) }
    ensures any_draw { is_centre network.now.me.role ≡ false → (d : Option Bytes)
        → IsAnswer plan.new (answer real network.now tables.now (Delivered bytes.now d)) }
{
    let known = Known {
        network,
        tables,
        memo,
    };
    match &judge(&known, bytes, draw, &mut plan.out) {
        Err(refusal) => plan_refusal(network, tables, *refusal, plan),
        Ok(received) => plan_taken(&known, received, plan),
    }
}
