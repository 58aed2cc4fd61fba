//! What the audit reads from the printed lines of a run is what the states of its nodes say. The law is the
//! contract of a function with an empty body; docs/THEOREMS.md says it in words.
ghost use Rattle.std.specs.Prelude.{◌≡◌, true};
ghost use Rattle.zb_model.specs.Play.{Schedule, stations};
ghost use Rattle.zb_model.specs.Schedules.{IsSchedule};
ghost use Rattle.zb_model.specs.Tools.{Tools};
ghost use Rattle.law_run.specs.Commanding.{OneCentre};
ghost use Rattle.law_run.specs.Opening.{Opens};
ghost use Rattle.law_tables_suffice.specs.Along.{euis_differ};
ghost use Rattle.law_answer_storable.specs.Storing.{OpensAsJudged};
ghost use Rattle.law_audit_sound.specs.Reading.{RunReads};
ghost use Rattle.zb_trace_model.specs.Naming.{AreNamed};

/// States that the audit's readings of a run agree with the model.
///
/// This is true after the start and after each whole group. What is read of a declared node from the printed lines is
/// what its state says: the active network key, the stored limits and the stored floors. If the node has power, it is
/// also the next counters.
#[tactic(auto, using(crate::proofs::Reading::run_reads))]
pub fn readings_of_a_run_are_its_states()
    ensures { (tools : Tools) → Opens tools → OpensAsJudged tools → (w : Schedule) → IsSchedule w
        → euis_differ w ≡ true → OneCentre w → AreNamed (stations w) → RunReads tools w }
{}
