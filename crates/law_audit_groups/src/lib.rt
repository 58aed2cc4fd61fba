//! The groups of a run's printed lines are the lines of its events. The law is the contract of a function with
//! an empty body; docs/THEOREMS.md says it in words.
#![tactic(auto)]

ghost use Rattle.law_audit_groups.specs.Grouping.{IsGrouped};
ghost use Rattle.zb_model.specs.Play.{Schedule};
ghost use Rattle.zb_model.specs.Tools.{Tools};

/// States that the groups of a run's lines are its start lines, its events, and the end line.
///
/// A group is a longest run of lines with one event number. Each event that has lines is one group.
#[tactic(auto, using(crate::proofs::Grouped::is_grouped))]
pub fn groups_of_a_run_are_its_events()
    ensures { (tools : Tools) → (w : Schedule) → IsGrouped tools w }
{}
