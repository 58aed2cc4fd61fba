//! No line of the run of a schedule breaks a claim of the audit, so the audit returns the verdict on the run. The
//! laws are the contracts of functions that do nothing; docs/THEOREMS.md says them in words.
#![tactic(auto)]

mod confirms;
mod counters;
mod end;
mod lockout;
mod names;
mod nonces;
mod readings;

ghost use Rattle.std.specs.Prelude.{◌≡◌, Ok};
ghost use Rattle.law_schedules.specs.Schedules.{schedule_of};
ghost use Rattle.zb_sched.specs.Reading.{schedule_in};
ghost use Rattle.zb_sched.specs.Schedules.{Schedule};
ghost use Rattle.zb_sched.specs.Valid.{IsSchedule};
ghost use Rattle.law_audit_sound.specs.Sound.{IsSound};

pub use confirms::runs_keep_the_third_claim;
pub use counters::runs_keep_the_fourth_claim;
pub use end::runs_keep_the_sixth_claim;
use law_real_runs::frames_show_their_own_keys;
use law_schedules::texts_read_as_schedules;
pub use lockout::{
    fronts_of_locked_lines_are_locked, groups_of_a_run_begin_with_their_events,
    runs_keep_the_fifth_claim,
};
pub use names::a_run_is_read_by_names_as_by_addresses;
pub use nonces::{runs_keep_the_first_claim, runs_keep_the_second_claim};
pub use readings::readings_of_a_run_are_its_states;

/// States that no line of the run of a schedule is bad, with real frames, whatever happens in it.
///
/// So an audit of its printed lines returns exactly the verdict on the run, unless it runs out of memory. The verdict
/// has the seals and accepts that the end line counts, and lockout if both words of that line hold.
pub fn runs_are_sound()
    ensures { (p : Schedule) → IsSchedule p → IsSound (schedule_of p) }
{
    frames_show_their_own_keys();
}

/// States that no line of the run is bad, for each text that is a schedule.
///
/// So an audit returns the verdict on it.
pub fn runs_of_texts_are_sound(text: &[u8])
    ensures { (p : Schedule) → schedule_in text.now ≡ Ok p → IsSound (schedule_of p) }
{
    texts_read_as_schedules(text);
    runs_are_sound();
}
