//! Laws: the text of a run determines its lines. All numbers in the lines of a run with real frames are in the ranges
//! of their fields, and the text reads back as exactly these lines. docs/THEOREMS.md says the laws in words.
#![tactic(auto)]

mod run_lines;

ghost use Rattle.std.specs.Prelude.{◌≡◌, Ok, ◌<◌, ◌^◌, length};
ghost use Rattle.law_run_ranges.specs.Asking.{KeepsRanges, ScheduleInRange};
ghost use Rattle.zb_model_real.specs.Real.{real};
ghost use Rattle.law_schedules.specs.Schedules.{schedule_of};
ghost use Rattle.law_run_text.specs.Proper.{AreTheirOwn};
ghost use Rattle.zb_sched.specs.Reading.{schedule_in};
ghost use Rattle.zb_sched.specs.Schedules.{Schedule};
ghost use Rattle.zb_sched.specs.Valid.{IsSchedule};
ghost use Rattle.law_run_text.specs.Back.{IsReadBack, ReadsBack, text_of_run};

use law_schedules::texts_read_as_schedules;
pub use run_lines::{lines_of_a_run_are_of_its_nodes, the_text_of_a_run_is_of_no_other_lines};
use std::alloc::Global;
use zb_base::OrMemory;
use zb_trace::Line;
use zb_trace_read::{TraceError, read_lines};

/// States that real frames keep to the ranges.
///
/// What is sealed, spelled and hashed consists of bytes and has the right length; what is read from bytes, and what
/// they open to, is in its range.
#[tactic(auto, using(crate::proofs::Tools::real_keeps))]
pub fn real_frames_keep_to_the_ranges()
    ensures { KeepsRanges real }
{}

/// States that the values that a schedule declares and its events bring are in their ranges.
#[tactic(auto, using(crate::proofs::Schedules::schedule_in_range))]
pub fn schedules_are_in_their_ranges()
    ensures { (p : Schedule) → IsSchedule p → ScheduleInRange (schedule_of p) }
{}

/// States that the lines of each schedule's run are proper, and that no other proper lines have their text.
#[tactic(auto, using(crate::proofs::Wide::are_their_own))]
pub fn the_lines_of_each_run_are_proper()
    ensures { (p : Schedule) → IsSchedule p → AreTheirOwn (schedule_of p) }
{}

/// States that the lines of the run are proper, for each text that is a schedule.
///
/// No other proper lines have their text.
pub fn the_lines_of_each_text_are_proper(text: &[u8])
    ensures { (p : Schedule) → schedule_in text.now ≡ Ok p → AreTheirOwn (schedule_of p) }
{
    texts_read_as_schedules(text);
    the_lines_of_each_run_are_proper();
}

/// States that the text of each schedule's run is that of its printed lines, and of no others.
///
/// These lines are proper, so a reader finds them, whatever the length of the text.
#[tactic(auto, using(crate::proofs::Back::reads_back))]
pub fn the_text_of_a_run_reads_back()
    ensures { (p : Schedule) → IsSchedule p → ReadsBack (schedule_of p) }
{}

/// Reads lines as `read_lines` does, and so the text of a run as exactly the lines of that run.
///
/// # Errors
/// Those of `read_lines`; for the text of a run, only out of memory.
pub fn read_run(alloc: Global, bytes: &[u8]) -> Result<Vec<Line>, OrMemory<TraceError>>
    requires { length bytes.now < 2 ^ 32 }
    ensures { (p : Schedule) → IsSchedule p → bytes.now ≡ text_of_run (schedule_of p)
        → IsReadBack (schedule_of p) result }
{
    the_text_of_a_run_reads_back();
    read_lines(alloc, bytes)
}
