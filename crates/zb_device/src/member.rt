//! The plan of a router or device for each of its own events.
ghost use Rattle.std.specs.Prelude.{◌≡◌, false};
ghost use Rattle.zb_base.specs.declared.place.Place.TheVariants.{Event};
ghost use Rattle.zb_core.specs.Events.{task_of};
ghost use Rattle.zb_model.specs.Answer.{answer};
ghost use Rattle.zb_model.specs.OwnEvents.{own_at_member};
ghost use Rattle.zb_model.specs.State.{is_centre};
ghost use Rattle.zb_model_real.specs.Real.{real};
ghost use Rattle.zb_plan.specs.Answers.{IsAnswer, answer_to};
ghost use Rattle.zb_plan.specs.Storing.{own_plan};
ghost use Rattle.zb_delivery.specs.Outcomes.{Keeps, decided, told};

use crate::event::DeviceEvent;
use zb_base::Place;
use zb_core::NodeCore;
use zb_delivery::{
    Effect, ask, child_of_router, knock, member_timer, plan_received, rejoin, say, tell,
};
use zb_host::{Outcome, Plan};
use zb_keys::Tables;
use zb_node_types::Refusal;
use zb_plan::{plan_own, plan_say};
use zb_seal::{KeyMemo, Term};
use zb_send::copied;
use zb_setting::Network;

// Decides an event of the node's own by its rule, and refuses those of the centre. Each arm returns its value, so that
// it is copied once.
fn decide(network: &Network, tables: &Tables, event: &DeviceEvent) -> Result<Effect, Refusal>
    ensures rule { decided result ≡ told (own_at_member real network.now tables.now (task_of event.now)) }
    ensures keeps { Keeps Event result }
{
    match event {
        DeviceEvent::Say { to, bytes } => return say(tables, *to, copied(bytes)),
        DeviceEvent::Tell { partner, bytes } => {
            return tell(network, tables, *partner, copied(bytes));
        }
        DeviceEvent::Ask { partner } => return ask(network, tables, *partner),
        DeviceEvent::Knock => return knock(network, tables),
        DeviceEvent::Rejoin => return rejoin(tables),
        DeviceEvent::Timer => return member_timer(network, tables),
        DeviceEvent::Child { device, rejoin } => {
            return child_of_router(network, tables, *device, *rejoin);
        }
        DeviceEvent::Provision { .. }
        | DeviceEvent::Remove { .. }
        | DeviceEvent::Roll { .. }
        | DeviceEvent::Switch
        | DeviceEvent::Again { .. }
        | DeviceEvent::Share { .. }
        | DeviceEvent::Deliver { .. } => {}
    }
    Err(Refusal::Policy {
        place: Place::Event,
    })
}

// Plans an event of the node's own by its rule. The decision has its place here, so that others clear none.
fn plan_by_rule(
    network: &Network,
    tables: &Tables,
    memo: &KeyMemo,
    event: &DeviceEvent,
    plan: &mut Plan<Outcome<Term, Refusal>>,
)
    ensures { IsAnswer plan.new (answer_to real network.now tables.now
        (own_plan (own_at_member real network.now tables.now (task_of event.now)))) }
{
    plan_own(network, tables, memo, &decide(network, tables, event), plan);
}

/// Plans an event by its rule, from what the node knows of its network, its tables and its base keys.
///
/// Requires a node that isn't the centre.
fn plan_event(
    network: &Network,
    tables: &Tables,
    memo: &KeyMemo,
    event: &DeviceEvent,
    plan: &mut Plan<Outcome<Term, Refusal>>,
)
    requires { is_centre network.now.me.role ≡ false }
    ensures { IsAnswer plan.new (answer real network.now tables.now (task_of event.now)) }
{
    match event {
        DeviceEvent::Deliver { bytes, draw } => plan_received(
            network,
            tables,
            memo,
            bytes.as_slice(),
            *draw,
            plan,
        ),
        DeviceEvent::Say { to, bytes } => plan_say(network, tables, memo, *to, bytes, plan),
        _ => plan_by_rule(network, tables, memo, event, plan),
    }
}

/// Plans an event of a router or device, by the rule of the event.
///
/// Requires a node that isn't the centre.
pub fn plan_member(node: &NodeCore, event: &DeviceEvent, plan: &mut Plan<Outcome<Term, Refusal>>)
    requires { is_centre node.now.setting.me.role ≡ false }
    ensures { IsAnswer plan.new (answer real node.now.setting node.now.tables (task_of event.now)) }
{
    plan_event(node.network(), node.tables(), node.memo(), event, plan);
}
