//! The command `make`.
ghost use Rattle.std.specs.Prelude.{◌≡◌, ◌≢◌, ◌≤◌, Some};
ghost use Rattle.zb_base.specs.Outside.{Unrisen};
ghost use Rattle.zb_gen.specs.Made.{made_schedule};
ghost use Rattle.zb_sched.specs.Schedules.{schedule_of};
ghost use Rattle.zb_sched.specs.Printed.{printed};
ghost use Rattle.zb_command.specs.Answers.{make_answer, Writes};
ghost use Rattle.zb_command.specs.Outcomes.{Ends, Made};
ghost use Rattle.zb_base.specs.Limits.{most_made};

use crate::status::{Cause, Status};
use std::alloc::Global;
use zb_base::{OrMemory, Sink};
use zb_gen::{GenFault, make};
use zb_sched::{Schedule, write};

/// Writes the made schedule of start value 0 for `count` routers and devices.
pub(crate) fn make_schedule<W: Sink>(alloc: Global, count: u32, output: &mut W) -> Status
    requires { (1 ≤ count) × (count ≤ most_made) }
    ensures ends { Ends result (Some (make_answer (made_schedule 0 count))) (W.taken output.old) (W.taken output.new)
        (W.faults output.old) (W.faults output.new) }
    ensures made { result ≡ Status.Ok → Made count (W.taken output.old) (W.taken output.new) }
    ensures read_fault { result ≡ Status.ReadFault → ⊥ }
    ensures no_write_fault { result ≢ Status.WriteFault → Unrisen (W.faults output.old) (W.faults output.new) }
{
    match make(alloc, 0, count) {
        Ok(schedule) => print_schedule(alloc, &schedule, output),
        Err(GenFault::Clash { line, cause }) => Status::Refused {
            line,
            cause: Cause::from(cause),
        },
        Err(GenFault::NoMemory) => Status::NoMemory,
    }
}

/// Writes the text of a schedule.
fn print_schedule<W: Sink>(alloc: Global, schedule: &Schedule, output: &mut W) -> Status
    ensures ends { Ends result (Some (Writes (printed (schedule_of schedule.now)))) (W.taken output.old)
        (W.taken output.new) (W.faults output.old) (W.faults output.new) }
    ensures read_fault { result ≡ Status.ReadFault → ⊥ }
    ensures no_write_fault { result ≢ Status.WriteFault → Unrisen (W.faults output.old) (W.faults output.new) }
{
    match write(alloc, schedule, output) {
        Ok(()) => Status::Ok,
        Err(OrMemory::Fault(_)) => Status::WriteFault,
        Err(OrMemory::NoMemory) => Status::NoMemory,
    }
}
