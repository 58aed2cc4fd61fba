//! No line of a run breaks the fourth claim of the audit. The law is the contract of a function with an empty body;
//! docs/THEOREMS.md says it in words.
ghost use Rattle.std.specs.Prelude.{◌≡◌, true};
ghost use Rattle.law_audit_sound.specs.CountersKeeping.{KeepsFourth};
ghost use Rattle.zb_model.specs.Play.{Schedule, stations};
ghost use Rattle.zb_model.specs.Schedules.{IsSchedule};
ghost use Rattle.zb_model.specs.Tools.{Tools};
ghost use Rattle.law_run.specs.Commanding.{OneCentre};
ghost use Rattle.law_run.specs.Opening.{Opens};
ghost use Rattle.law_tables_suffice.specs.Along.{euis_differ};
ghost use Rattle.law_answer_storable.specs.Storing.{OpensAsJudged};
ghost use Rattle.zb_trace_model.specs.Naming.{AreNamed};

/// States that no line of a run breaks the fourth claim of the audit: all its counters add up.
///
/// Each seal has the next counter, and each reserve, floor and start is exactly where it must be, with its value.
/// This is true whatever is delivered, and whichever disk stops or fails.
#[tactic(auto, using(crate::proofs::Runs::keeps_fourth))]
pub fn runs_keep_the_fourth_claim()
    ensures { (tools : Tools) → Opens tools → OpensAsJudged tools → (w : Schedule) → IsSchedule w
        → euis_differ w ≡ true → OneCentre w → AreNamed (stations w) → KeepsFourth tools w }
{}
