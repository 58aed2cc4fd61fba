//! The command `inspect`.
ghost use Rattle.std.specs.Prelude.{◌≡◌, ◌≢◌, ◌≤◌, Some};
ghost use Rattle.std.specs.Io.KnownBytes.{IsAtEnd};
ghost use Rattle.zb_base.specs.Outside.{Rose, Unrisen};
ghost use Rattle.zb_capture.specs.Grammar.{IsCapture};
ghost use Rattle.zb_inspect.specs.Report.{report_of};
ghost use Rattle.zb_command.specs.Answers.{wanted, Writes};
ghost use Rattle.zb_command.specs.Commands.{Inspecting};
ghost use Rattle.zb_input.specs.Inputs.{TakesAtMost};
ghost use Rattle.zb_command.specs.Outcomes.{Ends};
ghost use Rattle.zb_base.specs.Limits.{first_too_long};

use crate::status::{Cause, Status};
use std::alloc::Global;
use std::thread::Threads;
use zb_base::{Sink, Source};
use zb_capture::Capture;
use zb_input::{CaptureFault, InputFault, LONGEST, read_capture_on};
use zb_inspect::{InspectFault, report};
use zb_parallel::NoGate;

/// Writes the report on the capture on the input, read and worked out by `jobs` jobs.
pub(crate) fn inspect_input<T: Threads + Sync, R: Source, W: Sink>(
    rt: &T,
    alloc: Global,
    jobs: u32,
    input: &mut R,
    output: &mut W,
) -> Status
    requires { 1 ≤ jobs }
    ensures ends { Ends result (wanted (Inspecting jobs) (R.rest input.old)) (W.taken output.old)
        (W.taken output.new) (W.faults output.old) (W.faults output.new) }
    ensures end { result ≡ Status.Ok → IsAtEnd (R.rest input.new) }
    ensures few { TakesAtMost (R.rest input.old) (R.rest input.new) first_too_long }
    ensures read_fault { result ≡ Status.ReadFault → Rose (R.faults input.old) (R.faults input.new) }
    ensures no_read_fault { result ≢ Status.ReadFault → Unrisen (R.faults input.old) (R.faults input.new) }
    ensures no_write_fault { result ≢ Status.WriteFault → Unrisen (W.faults output.old) (W.faults output.new) }
{
    match read_capture_on(rt, alloc, jobs, input) {
        Ok(capture) => report_on(rt, alloc, &capture, jobs, output),
        Err(CaptureFault::Input(InputFault::Read)) => Status::ReadFault,
        Err(CaptureFault::Input(InputFault::TooLong)) => Status::TooLong { limit: LONGEST },
        Err(CaptureFault::Input(InputFault::NoMemory)) => Status::NoMemory,
        Err(CaptureFault::Text(fault)) => Status::Refused {
            line: fault.line,
            cause: Cause::from(fault.cause),
        },
    }
}

/// Writes the report on a capture.
pub(crate) fn report_on<T: Threads + Sync, W: Sink>(
    rt: &T,
    alloc: Global,
    capture: &Capture,
    jobs: u32,
    output: &mut W,
) -> Status
    requires capture { IsCapture capture.now }
    requires jobs { 1 ≤ jobs }
    ensures ends { Ends result (Some (Writes (report_of capture.now))) (W.taken output.old) (W.taken output.new)
        (W.faults output.old) (W.faults output.new) }
    ensures read_fault { result ≡ Status.ReadFault → ⊥ }
    ensures no_write_fault { result ≢ Status.WriteFault → Unrisen (W.faults output.old) (W.faults output.new) }
{
    match report(rt, alloc, capture, jobs, &NoGate, output) {
        Ok(()) => Status::Ok,
        Err(InspectFault::Write) => Status::WriteFault,
        Err(InspectFault::NoMemory) => Status::NoMemory,
    }
}
