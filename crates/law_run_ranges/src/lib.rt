//! The values in the lines of a run are in the ranges of their fields. The law is the contract of a function
//! with an empty body; docs/THEOREMS.md says it in words.
#![tactic(auto)]

ghost use Rattle.std.specs.Prelude.{◌≡◌, true};
ghost use Rattle.zb_model.specs.Play.{Schedule};
ghost use Rattle.zb_model.specs.Schedules.{IsSchedule};
ghost use Rattle.zb_model.specs.Tools.{Tools};
ghost use Rattle.law_run_ranges.specs.Asking.{AreInRange, KeepsRanges, ScheduleInRange};
ghost use Rattle.law_tables_suffice.specs.Along.{euis_differ};
ghost use Rattle.law_answer_storable.specs.Storing.{OpensAsJudged};

/// States that in each line of a run the values are in the ranges of their fields.
///
/// This is so if the schedule's values are in their ranges.
///
/// Counters, limits, floors, numbers and addresses fit; keys have 16 bytes; frames, headers and contents consist of
/// bytes, at most 127 each.
#[tactic(auto, using(crate::proofs::Runs::in_range))]
pub fn the_values_of_lines_are_in_their_ranges()
    ensures { (tools : Tools) → OpensAsJudged tools → KeepsRanges tools → (w : Schedule) → IsSchedule w
        → euis_differ w ≡ true → ScheduleInRange w → AreInRange tools w }
{}
