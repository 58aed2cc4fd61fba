//! The laws over every run hold for each schedule that a text gives. Here a schedule, as zb_sched reads it, is
//! converted to the schedule of the model: `specs/Schedules.antt` has one clause for each form of line, with its
//! meaning there. What every schedule keeps implies what the laws ask, so they hold for each with no premise left.
#![tactic(auto)]

mod laws;
mod texts;

pub use laws::{each_schedule_holds, schedules_meet_the_premises};
pub use texts::{each_text_holds, texts_read_as_schedules};
