//! Removed devices are locked out of the printed lines of each run, as the audit reads them. The laws are the
//! contracts of functions with empty bodies; docs/THEOREMS.md says them in words.
ghost use Rattle.std.specs.Prelude.{◌≡◌, true, List};
ghost use Rattle.law_audit_sound.specs.Beginnings.{RunBegins};
ghost use Rattle.law_audit_sound.specs.Fronts.{LocksFronts};
ghost use Rattle.law_audit_sound.specs.LockoutKeeping.{KeepsFifth};
ghost use Rattle.zb_model.specs.Play.{Schedule, stations};
ghost use Rattle.zb_model.specs.Schedules.{IsSchedule};
ghost use Rattle.zb_model.specs.Tools.{Tools};
ghost use Rattle.law_run.specs.Commanding.{OneCentre, ShowsKeys};
ghost use Rattle.law_run.specs.KeysApart.{KeysApart};
ghost use Rattle.law_run.specs.Opening.{Opens};
ghost use Rattle.law_tables_suffice.specs.Along.{euis_differ};
ghost use Rattle.law_answer_storable.specs.Storing.{OpensAsJudged};
ghost use Rattle.zb_trace_model.specs.Naming.{AreNamed};
ghost use Rattle.zb_trace.specs.declared.line.Line.{Line};

/// States that lockout of any lines, whoever wrote them, implies lockout of each prefix of them.
///
/// So lockout is true of all lines exactly if no line is the first with which it fails.
#[tactic(auto, using(crate::proofs::Prefixes::locks_fronts))]
pub fn fronts_of_locked_lines_are_locked()
    ensures { (tools : Tools) (lines : List Line) → LocksFronts tools lines }
{}

/// States that the lines before a group, as an audit finds them, are the run before the group's event.
#[tactic(auto, using(crate::proofs::Events::begins))]
pub fn groups_of_a_run_begin_with_their_events()
    ensures { (tools : Tools) (w : Schedule) → RunBegins tools w }
{}

/// States that no line of a run breaks the fifth claim of the audit, which is lockout.
///
/// If both words of the end line hold, removed devices are locked out of the printed lines and of each prefix of
/// them. `ShowsKeys` is about the frames: if a node's own frame shows a key, it is the key of the command in that
/// frame. `KeysApart` is about the schedule: its keys are different keys.
#[tactic(auto, using(crate::proofs::Fifth::keeps_fifth))]
pub fn runs_keep_the_fifth_claim()
    ensures { (tools : Tools) → Opens tools → OpensAsJudged tools → ShowsKeys tools → (w : Schedule) → IsSchedule w
        → euis_differ w ≡ true → OneCentre w → KeysApart w → AreNamed (stations w) → KeepsFifth tools w }
{}
