//! The reader.

ghost use Rattle.std.specs.Prelude.{◌≡◌, ◌-◌, ◌^◌, ◌<◌, length, IfOk, Ok};
ghost use Rattle.zb_sched.specs.Schedules.{schedule_of};
ghost use Rattle.zb_sched.specs.Printed.{printed};
ghost use Rattle.zb_sched.specs.Reading.{Reads, schedule_in};
ghost use Rattle.zb_sched.specs.Valid.{IsSchedule};

use crate::draft::Draft;
use crate::error::{SchedCause, SchedError};
use crate::schedule::Schedule;
use std::alloc::Global;
use zb_base::OrMemory;
use zb_text::lines::next_line;

/// Reads a schedule. What is read and then printed reads as itself. Requires a text shorter than 4 GiB - 1.
///
/// # Errors
/// The first bad line, with the first of its causes; or out of memory.
pub fn read(alloc: Global, text: &[u8]) -> Result<Schedule, OrMemory<SchedError>>
    requires { length text.now < 2 ^ 32 - 1 }
    ensures exact { Reads result (schedule_in text.now) }
    ensures valid { IfOk result (λ schedule. IsSchedule (schedule_of schedule)) }
    ensures again { IfOk result (λ schedule. schedule_in (printed (schedule_of schedule))
        ≡ Ok (schedule_of schedule)) }
{
    let mut draft = Draft::new(alloc);
    let mut rest = text;
    let mut number: u32 = 1;
    while let Some((line, after)) = next_line(rest) {
        match draft.take(line) {
            Ok(()) => {}
            Err(OrMemory::Fault(cause)) => return Err(OrMemory::Fault(SchedError {
                line: number,
                cause,
            })),
            Err(OrMemory::NoMemory) => return Err(OrMemory::NoMemory),
        }
        rest = after;
        number += 1;
    }
    if !draft.has_centre() {
        return Err(OrMemory::Fault(SchedError {
            line: number,
            cause: SchedCause::NoCentre,
        }));
    }
    match draft.finish(alloc) {
        Ok(schedule) => Ok(schedule),
        Err(_) => Err(OrMemory::NoMemory),
    }
}
