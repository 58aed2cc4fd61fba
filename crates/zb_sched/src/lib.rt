//! Schedules: what a network is made of and what happens in it, as a text. `read` takes exactly the texts that are
//! schedules, and reports of others the first bad line and why; `write` prints the one text of a schedule.
#![tactic(auto)]

mod draft;
mod entry;
mod error;
mod hints;
mod laws;
mod reader;
mod schedule;
mod supply;
mod writer;

pub use draft::Draft;
pub use error::{SchedCause, SchedError};
pub use laws::{lines_keep_schedules, printed_schedule_reads, schedules_have_one_centre};
pub use reader::read;
pub use schedule::{Node, Schedule};
pub use writer::write;
pub use zb_sched_line::Event;
