//! The lines of each run keep the sixth claim of the audit: the last one is the only end line, and sums up the
//! others. The law is the contract of a function with an empty body; docs/THEOREMS.md says it in words.
ghost use Rattle.std.specs.Prelude.{◌≡◌, true};
ghost use Rattle.law_audit_sound.specs.EndKeeping.{KeepsSixth};
ghost use Rattle.zb_model.specs.Play.{Schedule, stations};
ghost use Rattle.zb_model.specs.Schedules.{IsSchedule};
ghost use Rattle.zb_model.specs.Tools.{Tools};
ghost use Rattle.law_run.specs.Commanding.{OneCentre};
ghost use Rattle.law_tables_suffice.specs.Along.{euis_differ};
ghost use Rattle.law_answer_storable.specs.Storing.{OpensAsJudged};
ghost use Rattle.zb_trace_model.specs.Naming.{AreNamed};

/// States that no line of a run breaks the sixth claim of the audit: its end is right.
///
/// The last line ends it, and no other does. Its number of events is at least that of each event, its counts are
/// right, and its two words are those that the audit reads by names.
#[tactic(auto, using(crate::proofs::Endings::keeps_sixth))]
pub fn runs_keep_the_sixth_claim()
    ensures { (tools : Tools) → OpensAsJudged tools → (w : Schedule) → IsSchedule w → euis_differ w ≡ true
        → OneCentre w → AreNamed (stations w) → KeepsSixth tools w }
{}
