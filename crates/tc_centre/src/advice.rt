//! What standard error says to people when a session doesn't end well. Standard output has the exact words for
//! programs.
use crate::asked::USAGE;
use crate::process::Ending;
use crate::status::Status;
use std::io;
use zb_disk::{FileCall, FileFault};

/// Prints on standard error how a session ended that didn't end well. Who has closed standard error misses it.
pub fn advise(rt: &HostRuntime, ending: &Ending) {
    let _ = match &ending.status {
        Status::Ok => Ok(()),
        Status::Usage => eprintln!(rt; "{USAGE}"),
        Status::ReadFault => eprintln!(rt; "tc_centre: standard input can't be read"),
        Status::WriteFault => eprintln!(rt;
            "tc_centre: standard output can't be written; start again: `list` shows whether the last event is stored"
        ),
        Status::NoMemory => eprintln!(rt;
            "tc_centre: out of memory; start again, and `list` shows whether the last event is stored"
        ),
        Status::DiskFault => store_failed(rt, ending.first_fault),
        Status::NoStore => eprintln!(rt;
            "tc_centre: the file has bytes, and no store: it is another file, or an init was cut off"
        ),
        Status::TooLong => eprintln!(rt; "tc_centre: a line has more than 1048576 bytes"),
        Status::BadStore { at } => eprintln!(rt;
            "tc_centre: the store's record is wrong at place {at}; keep a copy of the file before the next run"
        ),
        Status::Worn => eprintln!(rt;
            "tc_centre: the store's last generation is used up: restore its backup into a new one by `tc admin`"
        ),
        Status::Busy => eprintln!(rt; "tc_centre: another process has the store open"),
    };
}

/// Prints which call on the store's file failed first, and the system's number for the error.
fn store_failed(rt: &HostRuntime, first: Option<FileFault>) -> io::Result<()> {
    match first {
        Some(fault) => call_failed(rt, fault.call, fault.errno)?,
        None => eprintln!(rt; "tc_centre: the store can't be used")?,
    }
    eprintln!(rt; "tc_centre: start again: `list` shows what is stored")
}

/// Prints which call failed, and the system's number for the error, if the system refused the call.
fn call_failed(rt: &HostRuntime, call: FileCall, errno: Option<i32>) -> io::Result<()> {
    let call = name_of(call);
    match errno {
        Some(number) => eprintln!(rt;
            "tc_centre: the store can't be used: {call} failed (error {number} of the system)"
        ),
        None => eprintln!(rt;
            "tc_centre: the store can't be used: {call} failed (the path names no file of a store, or another one)"
        ),
    }
}

/// Returns the name of a call.
fn name_of(call: FileCall) -> &'static str {
    match call {
        FileCall::Open => "open",
        FileCall::Size => "size",
        FileCall::Read => "read",
        FileCall::Write => "write",
        FileCall::Sync => "sync",
    }
}
