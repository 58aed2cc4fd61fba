//! The command `play`.
ghost use Rattle.std.specs.Prelude.{◌≡◌, ◌≢◌, Some, IfSome};
ghost use Rattle.std.specs.Io.KnownBytes.{IsAtEnd};
ghost use Rattle.zb_base.specs.Outside.{Rose, Unrisen};
ghost use Rattle.zb_command.specs.Answers.{wanted, Writes};
ghost use Rattle.zb_command.specs.Commands.{Playing};
ghost use Rattle.zb_input.specs.Inputs.{TakesAtMost};
ghost use Rattle.zb_command.specs.Outcomes.{Ends, Played};
ghost use Rattle.zb_campaign.specs.Runs.{transcript_text};
ghost use Rattle.zb_sched.specs.Schedules as sched;
ghost use Rattle.zb_sched.specs.Valid.{IsSchedule};
ghost use Rattle.zb_base.specs.Limits.{first_too_long};

use crate::input::whole_input;
use crate::status::{Cause, Status};
use law_real_nodes::{lines_of_each_run_agree, nodes_are_sound_in_each_run};
use law_schedules::each_schedule_holds;
use std::alloc::Global;
use zb_base::{OrMemory, Sink, Source};
use zb_campaign::{PlayFault, Still, play};
use zb_sched::{Schedule, read};

/// Plays the schedule on the input, and writes its transcript.
pub(crate) fn play_input<R: Source, W: Sink>(alloc: Global, input: &mut R, output: &mut W) -> Status
    ensures ends { Ends result (wanted Playing (R.rest input.old)) (W.taken output.old) (W.taken output.new)
        (W.faults output.old) (W.faults output.new) }
    ensures end { result ≡ Status.Ok → IsAtEnd (R.rest input.new) }
    ensures few { TakesAtMost (R.rest input.old) (R.rest input.new) first_too_long }
    ensures played { result ≡ Status.Ok → IfSome (R.rest input.old)
        (λ bytes. Played bytes (W.taken output.old) (W.taken output.new)) }
    ensures read_fault { result ≡ Status.ReadFault → Rose (R.faults input.old) (R.faults input.new) }
    ensures no_read_fault { result ≢ Status.ReadFault → Unrisen (R.faults input.old) (R.faults input.new) }
    ensures no_write_fault { result ≢ Status.WriteFault → Unrisen (W.faults output.old) (W.faults output.new) }
{
    let bytes = whole_input!(alloc, input);
    each_schedule_holds();
    nodes_are_sound_in_each_run();
    lines_of_each_run_agree();
    match read(alloc, bytes.as_slice()) {
        Ok(schedule) => play_schedule(alloc, &schedule, output),
        Err(OrMemory::Fault(fault)) => Status::Refused {
            line: fault.line,
            cause: Cause::from(fault.cause),
        },
        Err(OrMemory::NoMemory) => Status::NoMemory,
    }
}

/// Plays a schedule on disks of its own.
fn play_schedule<W: Sink>(alloc: Global, schedule: &Schedule, output: &mut W) -> Status
    requires { IsSchedule (sched.schedule_of schedule.now) }
    ensures ends { Ends result (Some (Writes (transcript_text (sched.schedule_of schedule.now)))) (W.taken output.old)
        (W.taken output.new) (W.faults output.old) (W.faults output.new) }
    ensures read_fault { result ≡ Status.ReadFault → ⊥ }
    ensures no_write_fault { result ≢ Status.WriteFault → Unrisen (W.faults output.old) (W.faults output.new) }
{
    let mut disks = Vec::new(alloc);
    match play(alloc, schedule, &mut disks, &mut Still, output) {
        Ok(_) => Status::Ok,
        Err(PlayFault::Write) => Status::WriteFault,
        Err(PlayFault::NoMemory) => Status::NoMemory,
    }
}
