//! Laws of schedules, each on a function that does nothing. Each line keeps what every schedule keeps, and what is
//! printed of a schedule is that schedule.

ghost use Rattle.std.specs.Prelude.{◌≡◌, Ok, true};
ghost use Rattle.zb_sched_line.specs.Fits.{FitsSentence};
ghost use Rattle.zb_sched_line.specs.Said.{Sentence};
ghost use Rattle.zb_sched.specs.Judge.{after_sentence, Seen};
ghost use Rattle.zb_sched.specs.Schedules.{Node, Schedule};
ghost use Rattle.zb_sched.specs.Printed.{printed};
ghost use Rattle.zb_sched.specs.Reading.{finished, is_centre, schedule_in};
ghost use Rattle.zb_sched.specs.Valid.{IsSchedule, IsSoFar, Pairwise};

/// States that a line that may stand after others keeps what they keep.
pub fn lines_keep_schedules()
    ensures { (seen next : Seen) (sentence : Sentence) → FitsSentence sentence → after_sentence seen sentence ≡ Ok next
        → IsSoFar (finished seen) → IsSoFar (finished next) }
{}

/// States that the printed text of a schedule reads as that schedule.
pub fn printed_schedule_reads()
    ensures { (schedule : Schedule) → IsSchedule schedule → schedule_in (printed schedule) ≡ Ok schedule }
{}

/// States that no two nodes of a schedule are centres.
pub fn schedules_have_one_centre()
    ensures { (schedule : Schedule) → IsSchedule schedule
        → Pairwise (λ (m n : Node). is_centre m.role ≡ true → is_centre n.role ≡ true → ⊥) schedule.nodes }
{}
