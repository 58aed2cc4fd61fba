//! The lines of each run keep the third claim of the audit: only stored keys are confirmed. The law is the
//! contract of a function with an empty body; docs/THEOREMS.md says it in words.
ghost use Rattle.std.specs.Prelude.{◌≡◌, true};
ghost use Rattle.law_audit_sound.specs.ConfirmsKeeping.{KeepsThird};
ghost use Rattle.zb_model.specs.Play.{Schedule, stations};
ghost use Rattle.law_run.specs.Premises.{Premises};
ghost use Rattle.law_tables_suffice.specs.Along.{euis_differ};
ghost use Rattle.zb_trace_model.specs.Naming.{AreNamed};

/// States that no line of a run breaks the third claim of the audit: only stored keys are confirmed.
///
/// Only the centre confirms a key, which it has stored as the device's verified one.
#[tactic(auto, using(crate::proofs::Confirmable::keeps_third))]
pub fn runs_keep_the_third_claim()
    ensures { (w : Schedule) → Premises w → euis_differ w ≡ true → AreNamed (stations w) → KeepsThird w }
{}
