//! The command `admin`.
ghost use Rattle.std.specs.Prelude.{◌≡◌, ◌≢◌};
ghost use Rattle.std.specs.Io.KnownBytes.{IsAtEnd};
ghost use Rattle.zb_admin.specs.Serving.{outside};
ghost use Rattle.zb_base.specs.Outside.{Rose, Unrisen};
ghost use Rattle.zb_input.specs.Inputs.{TakesAtMost};
ghost use Rattle.zb_command.specs.Serving.{Serviced, ServesOut};
ghost use Rattle.zb_command.specs.Statuses.{served_status};
ghost use Rattle.zb_base.specs.Limits.{first_too_long};

use crate::input::whole_input;
use crate::status::{Cause, Status};
use std::alloc::Global;
use zb_admin::{AdminFault, serve};
use zb_base::{OrMemory, Sink, Source};
use zb_disk::Disk;
use zb_script::read;

/// Serves the script on the input over a store.
pub(crate) fn serve_input<R: Source, W: Sink, D: Disk>(
    alloc: Global,
    input: &mut R,
    output: &mut W,
    store: &mut D,
) -> Status
    ensures served { Serviced (outside D.tells D.state W.taken W.faults) result (R.rest input.old) store.old output.old
        store.new output.new }
    ensures out { ServesOut result (W.taken output.old) (W.taken output.new) (W.faults output.old)
        (W.faults output.new) }
    ensures end { result ≡ Status.Ok → IsAtEnd (R.rest input.new) }
    ensures few { TakesAtMost (R.rest input.old) (R.rest input.new) first_too_long }
    ensures read_fault { result ≡ Status.ReadFault → Rose (R.faults input.old) (R.faults input.new) }
    ensures no_read_fault { result ≢ Status.ReadFault → Unrisen (R.faults input.old) (R.faults input.new) }
    ensures no_write_fault { result ≢ Status.WriteFault → Unrisen (W.faults output.old) (W.faults output.new) }
    ensures no_store_fault { result ≢ Status.DiskFault
        → Unrisen (D.state store.old).faults (D.state store.new).faults }
{
    let bytes = whole_input!(alloc, input);
    match read(alloc, bytes.as_slice()) {
        Ok(script) => ended(serve(alloc, &script, store, output)),
        Err(OrMemory::Fault(fault)) => Status::Refused {
            line: fault.line,
            cause: Cause::from(fault.cause),
        },
        Err(OrMemory::NoMemory) => Status::NoMemory,
    }
}

/// Returns the status of a script that was served so far.
fn ended(served: Result<(), AdminFault>) -> Status
    ensures { result ≡ served_status served }
{
    match served {
        Ok(()) => Status::Ok,
        Err(AdminFault::Disk) => Status::DiskFault,
        Err(AdminFault::NoStore) => Status::NoStore,
        Err(AdminFault::BadStore { at }) => Status::BadStore { at },
        Err(AdminFault::Worn) => Status::Worn,
        Err(AdminFault::Write) => Status::WriteFault,
        Err(AdminFault::NoMemory) => Status::NoMemory,
    }
}
