//! Laws for each schedule, on functions that do nothing.

ghost use Rattle.law_run.specs.Premises.{Premises};
ghost use Rattle.law_schedules.specs.Schedules.{schedule_of};
ghost use Rattle.zb_sched.specs.Schedules.{Schedule};
ghost use Rattle.zb_sched.specs.Valid.{IsSchedule};
ghost use Rattle.law_real_runs.specs.Headline.{Holds};

/// States that the model of each schedule meets what the laws over runs ask.
///
/// Its numbers are in their ranges, its events are of declared nodes, it has one centre, and its keys are different
/// keys.
pub fn schedules_meet_the_premises()
    ensures { (p : Schedule) → IsSchedule p → Premises (schedule_of p) }
{}

/// States that all laws over runs hold for the run of each schedule.
///
/// The run is lawful and counted, and no other lines are. No nonce is used twice, no counter is accepted twice, and
/// only stored keys are confirmed. If the end line says `yes yes`, removed devices are locked out.
pub fn each_schedule_holds()
    ensures { (p : Schedule) → IsSchedule p → Holds (schedule_of p) }
{}
