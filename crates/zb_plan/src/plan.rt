//! What was decided of an event becomes its plan.
ghost use Rattle.std.specs.Prelude.{◌≡◌, ◌≤◌, ◌++◌, [], Err, None, Ok, length, option_map};
ghost use Rattle.zb_base.specs.declared.place.Place.TheVariants.{Event};
ghost use Rattle.zb_model.specs.Answer.{Counting, out_of};
ghost use Rattle.zb_model.specs.OwnEvents.{say};
ghost use Rattle.zb_model.specs.Rules.{Outcome as Coming, Plan as Planned};
ghost use Rattle.zb_model_real.specs.Real.{real};
ghost use Rattle.zb_node_types.specs.Changes.{edits};
ghost use Rattle.zb_plan.specs.Answers.{IsAnswer, answer_to, terms};
ghost use Rattle.zb_plan.specs.Deciding.{CanBePlanned, IsAps, IsDecision, IsNwk, IsSmall, decision_in, only_sends};
ghost use Rattle.zb_plan.specs.Storing.{own_plan, stored_edits};
ghost use Rattle.zb_rules.specs.Outcomes.{Keeps, decided, told, most_changes};
ghost use Rattle.zb_rules.specs.Sendings.{CanBeSent, sending_of};
ghost use Rattle.zb_rules.specs.Sent.{IsCounting, sent_seen};

use crate::floors::add_floors;
use crate::reserves::add_reserve;
use crate::settling::{activated, add_all_settled, start_for};
use zb_base::{Layer, Short};
use zb_host::{Outcome, Plan};
use zb_keys::Tables;
use zb_node_types::{Changes, Refusal};
use zb_rules::{Effect, Sending, may_say, send_out, sending_data};
use zb_seal::{KeyMemo, Term};
use zb_send::{Payload, copied};
use zb_setting::Network;

/// Empties a place. One that is empty already isn't cleared again, which would cost a write of all its bytes.
pub fn forget<T: Drop>(place: &mut Option<T>)
    ensures { place.new ≡ None }
{
    if place.is_some() {
        *place = None;
    }
}

/// Lists all that an effect stores: reserves, floors, and the changes that change something.
fn store(
    changes: &mut Changes,
    network: &Network,
    tables: &Tables,
    nwk: &Option<Term>,
    aps: &Option<Term>,
    effect: &Effect,
)
    requires few { length effect.now.changes.items ≤ most_changes }
    ensures { edits changes.new.items ≡ stored_edits network.now tables.now (terms nwk.now aps.now)
        (edits effect.now.changes.items) (option_map sending_of effect.now.sending) }
{
    let made = effect.changes.as_slice();
    let start = start_for(tables, activated(tables, made));
    changes.clear();
    add_reserve(changes, network, tables, &effect.sending, Layer::Nwk);
    add_reserve(changes, network, tables, &effect.sending, Layer::Aps);
    add_floors(changes, network, tables, nwk, aps);
    add_all_settled(changes, tables, start, made);
}

/// Lists what a refusal stores: the floors of what was accepted before it.
#[tactic(auto, using(crate::proofs::Stored::kept_is))]
fn keep(
    changes: &mut Changes,
    network: &Network,
    tables: &Tables,
    nwk: &Option<Term>,
    aps: &Option<Term>,
)
    ensures { edits changes.new.items ≡ stored_edits network.now tables.now (terms nwk.now aps.now) [] None }
{
    changes.clear();
    add_floors(changes, network, tables, nwk, aps);
}

/// Plans a refusal, after the terms that were accepted and are in `plan`.
///
/// These and their floors stay, and nothing else changes. Requires terms of their layers.
pub fn plan_refusal(
    network: &Network,
    tables: &Tables,
    refusal: Refusal,
    plan: &mut Plan<Outcome<Term, Refusal>>,
)
    requires nwk { IsNwk plan.old.out.accepted_nwk }
    requires aps { IsAps plan.old.out.accepted_aps }
    ensures { (p : Planned) → IsDecision (decision_in plan.old (Err refusal)) p
        → IsAnswer plan.new (answer_to real network.now tables.now p) }
{
    let out = &mut plan.out;
    keep(
        &mut plan.changes,
        network,
        tables,
        &out.accepted_nwk,
        &out.accepted_aps,
    );
    out.refused = Some(refusal);
    forget(&mut out.sealed_aps);
    forget(&mut out.sealed_nwk);
    forget(&mut out.frame);
}

/// Plans an effect, after the terms that were accepted.
fn plan_effect(
    network: &Network,
    tables: &Tables,
    memo: &KeyMemo,
    effect: &Effect,
    plan: &mut Plan<Outcome<Term, Refusal>>,
)
    requires nwk { IsNwk plan.old.out.accepted_nwk }
    requires aps { IsAps plan.old.out.accepted_aps }
    requires small { IsSmall (Ok effect.now) }
    ensures { (p : Planned) → IsDecision (decision_in plan.old (Ok effect.now)) p
        → IsAnswer plan.new (answer_to real network.now tables.now p) }
{
    let out = &mut plan.out;
    store(
        &mut plan.changes,
        network,
        tables,
        &out.accepted_nwk,
        &out.accepted_aps,
        effect,
    );
    out.refused = None;
    send_out(network, tables, memo, &effect.sending, out);
}

/// Plans an event, after the terms that were accepted of its frame and stand in `plan`.
///
/// Where it is refused, these and their floors stay, and nothing else changes. What else stood in `plan` is gone. A
/// key that the memo lacks is expanded. Requires few changes, a frame that fits, and terms of their layers.
pub fn plan_of(
    network: &Network,
    tables: &Tables,
    memo: &KeyMemo,
    effect: &Result<Effect, Refusal>,
    plan: &mut Plan<Outcome<Term, Refusal>>,
)
    requires { CanBePlanned (decision_in plan.old effect.now) }
    ensures { (p : Planned) → IsDecision (decision_in plan.old effect.now) p
        → IsAnswer plan.new (answer_to real network.now tables.now p) }
{
    match effect {
        Err(refusal) => plan_refusal(network, tables, *refusal, plan),
        Ok(effect) => plan_effect(network, tables, memo, effect, plan),
    }
}

/// Plans an event by which nothing is accepted. A key that the memo lacks is expanded.
///
/// What stood in `plan` is gone. Requires few changes, and a frame that fits.
pub fn plan_own(
    network: &Network,
    tables: &Tables,
    memo: &KeyMemo,
    effect: &Result<Effect, Refusal>,
    plan: &mut Plan<Outcome<Term, Refusal>>,
)
    requires { Keeps Event effect.now }
    ensures { (o : Coming) → decided effect.now ≡ told o
        → IsAnswer plan.new (answer_to real network.now tables.now (own_plan o)) }
{
    forget(&mut plan.out.accepted_nwk);
    forget(&mut plan.out.accepted_aps);
    plan_of(network, tables, memo, effect, plan);
}

/// Lists all that a frame stores which is sent with no changes, and nothing accepted before: reserves.
#[tactic(auto, using(crate::proofs::Stored::reserves_alone))]
fn store_sending(
    changes: &mut Changes,
    network: &Network,
    tables: &Tables,
    sending: &Option<Sending>,
)
    ensures { edits changes.new.items
        ≡ stored_edits network.now tables.now [] [] (option_map sending_of sending.now) }
{
    changes.clear();
    add_reserve(changes, network, tables, sending, Layer::Nwk);
    add_reserve(changes, network, tables, sending, Layer::Aps);
}

/// Plans that something is sent, where nothing changes and nothing was accepted.
fn plan_sending(
    network: &Network,
    tables: &Tables,
    memo: &KeyMemo,
    sending: &Option<Sending>,
    plan: &mut Plan<Outcome<Term, Refusal>>,
)
    requires nwk { plan.old.out.accepted_nwk ≡ None }
    requires aps { plan.old.out.accepted_aps ≡ None }
    requires fits { CanBeSent sending.now }
    ensures { (p : Planned) → IsDecision (record { nwk = None; aps = None; effect = Ok (only_sends sending.now) }) p
        → IsAnswer plan.new (answer_to real network.now tables.now p) }
{
    let out = &mut plan.out;
    store_sending(&mut plan.changes, network, tables, sending);
    out.refused = None;
    send_out(network, tables, memo, sending, out);
}

/// Plans that a node says application data to a short address. What stood in `plan` is gone.
pub fn plan_say(
    network: &Network,
    tables: &Tables,
    memo: &KeyMemo,
    to: Short,
    bytes: &Payload,
    plan: &mut Plan<Outcome<Term, Refusal>>,
)
    ensures { IsAnswer plan.new (answer_to real network.now tables.now
        (own_plan (say tables.now to.0 bytes.now.items))) }
{
    forget(&mut plan.out.accepted_nwk);
    forget(&mut plan.out.accepted_aps);
    match may_say(tables) {
        Err(refusal) => plan_refusal(network, tables, refusal, plan),
        Ok(()) => plan_sending(
            network,
            tables,
            memo,
            &sending_data(to, copied(bytes)),
            plan,
        ),
    }
}
