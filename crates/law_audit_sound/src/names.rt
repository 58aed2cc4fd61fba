//! The audit reads by names, from the printed lines of a run, what the model reads by addresses. That is which node
//! is which, which keys the lines show and which nodes hold them, and the two words of the end line. The law is the
//! contract of a function with an empty body; docs/THEOREMS.md says it in words.
ghost use Rattle.std.specs.Prelude.{◌≡◌, true};
ghost use Rattle.law_audit_sound.specs.Agreeing.{RunReadSame};
ghost use Rattle.zb_model.specs.Play.{Schedule, stations};
ghost use Rattle.zb_model.specs.Schedules.{IsSchedule};
ghost use Rattle.zb_model.specs.Tools.{Tools};
ghost use Rattle.law_run.specs.Commanding.{OneCentre};
ghost use Rattle.law_tables_suffice.specs.Along.{euis_differ};
ghost use Rattle.law_answer_storable.specs.Storing.{OpensAsJudged};
ghost use Rattle.zb_trace_model.specs.Naming.{AreNamed};

/// States that the audit reads a run by names as the model reads it by addresses.
///
/// This is true for each prefix of the run's printed lines. Both readings agree on these:
/// - the declared nodes and the centre
/// - the terms, and the keys that become known
/// - what devices ever held and sealed
/// - live network keys that are known outside
/// - the two words of the end line
pub fn a_run_is_read_by_names_as_by_addresses()
    ensures { (tools : Tools) → OpensAsJudged tools → (w : Schedule) → IsSchedule w → euis_differ w ≡ true
        → OneCentre w → AreNamed (stations w) → RunReadSame tools w }
{}
