//! The plan of the trust centre for each of its events.
ghost use Rattle.std.specs.Prelude.{◌≡◌, true};
ghost use Rattle.zb_base.specs.declared.place.Place.TheVariants.{Event};
ghost use Rattle.zb_core.specs.Events.{task_of};
ghost use Rattle.zb_model.specs.Answer.{answer};
ghost use Rattle.zb_model.specs.OwnEvents.{own_at_centre};
ghost use Rattle.zb_model.specs.State.{is_centre};
ghost use Rattle.zb_model_real.specs.Real.{real};
ghost use Rattle.zb_core.specs.Answers.{IsAnswer, answer_to};
ghost use Rattle.zb_core.specs.Storing.{own_plan};
ghost use Rattle.zb_delivery.specs.Outcomes.{Keeps, decided, told};

use crate::event::CentreEvent;
use zb_base::Place;
use zb_core::{NodeCore, plan_own, plan_say};
use zb_delivery::{
    Effect, again, centre_timer, child_of_centre, plan_received, provision, remove_device, roll,
    say, share, switch_over,
};
use zb_host::{Outcome, Plan};
use zb_keys::Tables;
use zb_node_types::Refusal;
use zb_seal::{KeyMemo, Term};
use zb_send::copied;
use zb_setting::Network;

// Decides an event of the centre's own by its rule, and refuses those of routers and devices. Each arm returns its
// value, so that it is copied once.
fn decide(network: &Network, tables: &Tables, event: &CentreEvent) -> Result<Effect, Refusal>
    ensures rule { decided result ≡ told (own_at_centre network.now tables.now (task_of event.now)) }
    ensures keeps { Keeps Event result }
{
    match event {
        CentreEvent::Say { to, bytes } => return say(tables, *to, copied(bytes)),
        CentreEvent::Timer => return centre_timer(network, tables),
        CentreEvent::Child { device, .. } => return child_of_centre(network, tables, *device),
        CentreEvent::Provision { device, key } => return provision(tables, *device, key),
        CentreEvent::Remove { device, via } => return remove_device(network, tables, *device, *via),
        CentreEvent::Roll { draw } => return roll(tables, *draw),
        CentreEvent::Switch => return switch_over(tables),
        CentreEvent::Again { device } => return again(tables, *device),
        CentreEvent::Share { device, partner } => return share(network, tables, *device, *partner),
        CentreEvent::Tell { .. }
        | CentreEvent::Ask { .. }
        | CentreEvent::Knock
        | CentreEvent::Rejoin
        | CentreEvent::Deliver { .. } => {}
    }
    Err(Refusal::Policy {
        place: Place::Event,
    })
}

// Plans an event of the centre's own by its rule. The decision has its place here, so that others clear none.
fn plan_by_rule(
    network: &Network,
    tables: &Tables,
    memo: &KeyMemo,
    event: &CentreEvent,
    plan: &mut Plan<Outcome<Term, Refusal>>,
)
    ensures { IsAnswer plan.new (answer_to real network.now tables.now
        (own_plan (own_at_centre network.now tables.now (task_of event.now)))) }
{
    plan_own(network, tables, memo, &decide(network, tables, event), plan);
}

// Plans an event from what the centre knows of its network, its tables and its base keys.
fn plan_event(
    network: &Network,
    tables: &Tables,
    memo: &KeyMemo,
    event: &CentreEvent,
    plan: &mut Plan<Outcome<Term, Refusal>>,
)
    requires { is_centre network.now.me.role ≡ true }
    ensures { IsAnswer plan.new (answer real network.now tables.now (task_of event.now)) }
{
    match event {
        CentreEvent::Deliver { bytes, draw } => plan_received(
            network,
            tables,
            memo,
            bytes.as_slice(),
            *draw,
            plan,
        ),
        CentreEvent::Say { to, bytes } => plan_say(network, tables, memo, *to, bytes, plan),
        _ => plan_by_rule(network, tables, memo, event, plan),
    }
}

// Plans an event of the trust centre.
pub(crate) fn plan_centre(
    node: &NodeCore,
    event: &CentreEvent,
    plan: &mut Plan<Outcome<Term, Refusal>>,
)
    requires { is_centre node.now.setting.me.role ≡ true }
    ensures { IsAnswer plan.new (answer real node.now.setting node.now.tables (task_of event.now)) }
{
    plan_event(node.network(), node.tables(), node.memo(), event, plan);
}
