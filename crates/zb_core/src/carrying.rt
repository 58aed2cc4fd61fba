//! Carries out a plan over a node's tables.
ghost use Rattle.std.specs.Prelude.{◌≡◌};
ghost use Rattle.std.specs.List.{AllByRecursion};
ghost use Rattle.zb_core.specs.Carrying.{IsBelowLast, after_aps, after_heard, after_plan, one};
ghost use Rattle.zb_model.specs.Answer.{accepted_all, sealed_all};
ghost use Rattle.zb_model.specs.Fits.{AllFit};
ghost use Rattle.law_answer_seals.specs.Sealing.{SealsNext};
ghost use Rattle.zb_node_types.specs.Changes.{edits};
ghost use Rattle.zb_record.specs.Ranges.{InRange};

use zb_base::Label;
use zb_host::{Outcome, Plan};
use zb_node_types::Refusal;
use zb_seal::{KeyMemo, Term};
use zb_stored_tables::StoredTables;

// Keeps what was accepted.
#[tactic(auto, unfolding(zb_model::specs::State::after_accepting))]
fn hear(tables: &mut StoredTables, accepted: &Option<Term>)
    requires { IsBelowLast accepted.now }
    ensures heard { tables.new ≡ accepted_all (one accepted.now) tables.old }
    ensures role { tables.new.role ≡ tables.old.role }
{
    if let Some(term) = accepted {
        tables.heard(term.layer, &term.base, term.source, term.counter);
    }
}

// Counts what was sealed.
fn count(tables: &mut StoredTables, sealed: &Option<Term>)
    requires { SealsNext tables.old (one sealed.now) }
    ensures sealed { tables.new ≡ sealed_all (one sealed.now) tables.old }
    ensures role { tables.new.role ≡ tables.old.role }
{
    if let Some(term) = sealed {
        tables.sealed_under(term.layer, &term.base);
    }
}

// Makes the changes of a plan, keeps what it accepted, and counts what it sealed.
pub(crate) fn carry_out(tables: &mut StoredTables, plan: &Plan<Outcome<Term, Refusal>>)
    requires fit { AllFit (edits plan.now.changes.items) tables.old }
    requires range { AllByRecursion InRange plan.now.changes.items }
    requires nwk { IsBelowLast plan.now.out.accepted_nwk }
    requires aps { IsBelowLast plan.now.out.accepted_aps }
    requires first { SealsNext (after_heard plan.now tables.old) (one plan.now.out.sealed_aps) }
    requires second { SealsNext (after_aps plan.now tables.old) (one plan.now.out.sealed_nwk) }
    ensures made { tables.new ≡ after_plan plan.now tables.old }
    ensures role { tables.new.role ≡ tables.old.role }
{
    tables.apply(&plan.changes);
    hear(tables, &plan.out.accepted_nwk);
    hear(tables, &plan.out.accepted_aps);
    count(tables, &plan.out.sealed_aps);
    count(tables, &plan.out.sealed_nwk);
}

// Keeps the derived key that seals a term for later frames, but not a key that seals keys. Those are rarely used
// again, and deriving one again takes only as long as opening a frame.
pub(crate) fn remember(memo: &mut KeyMemo, term: &Option<Term>) {
    if let Some(term) = term {
        match term.label {
            Label::Data | Label::Network => memo.keep(term.label, &term.base),
            Label::Transport | Label::Load => {}
        }
    }
}
