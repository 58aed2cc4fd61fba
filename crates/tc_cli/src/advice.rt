//! What standard error says to people when a run doesn't end well. Standard output has the exact words for programs.
use std::io;
use zb_command::{Cause, Ending, ExitStatus, Status};
use zb_disk::{FileCall, FileFault};

/// The commands and their words.
const USAGE: &str = "\
usage: tc COMMAND [WORD ..] < INPUT > OUTPUT
  play                        plays a schedule and writes its transcript
  install CODE                writes the link key of an install code
  make N                      writes a made schedule for N routers and devices, 1 to 60
  campaign COUNT START JOBS   plays COUNT made schedules, from the start value START on, by 1 to 64 jobs
  audit                       judges a transcript that anybody wrote
  admin PATH                  carries out a script on the centre's store in the file PATH
  inspect JOBS                writes what the frames of a capture show, by 1 to 64 jobs
  sniff JOBS KEY ..           does so for a capture file (pcap), under these keys and install codes";

/// Prints on standard error how a process ended that didn't end well. Who has closed standard error misses it.
pub fn advise(rt: &HostRuntime, ending: &Ending) {
    let _ = match &ending.status {
        ExitStatus::Run(status) => run_ended(rt, status, ending.first_fault),
        ExitStatus::Busy => eprintln!(rt; "tc: another process has the store open"),
    };
}

/// Prints how a run ended that didn't end well.
fn run_ended(rt: &HostRuntime, status: &Status, first: Option<FileFault>) -> io::Result<()> {
    match status {
        Status::Ok => Ok(()),
        Status::Usage => eprintln!(rt; "{USAGE}"),
        Status::Refused { line, cause } => refused(rt, *line, cause),
        Status::Broken { line, clause } => {
            eprintln!(rt;
                "tc: line {line} of the transcript breaks claim {clause}: {}",
                claim(*clause)
            )
        }
        Status::TooLong { limit } => eprintln!(rt; "tc: the input has more than {limit} bytes"),
        Status::BadStore { at } => {
            eprintln!(rt;
                "tc: the store's record is wrong at place {at}; keep a copy of the file before the next run"
            )
        }
        Status::ReadFault => eprintln!(rt; "tc: standard input can't be read"),
        Status::WriteFault => eprintln!(rt;
            "tc: standard output can't be written; what was written is a prefix"
        ),
        Status::NoMemory => eprintln!(rt; "tc: out of memory"),
        Status::DiskFault => store_failed(rt, first),
        Status::NoStore => eprintln!(rt;
            "tc: the file has bytes, and no store: it is another file, or an init was cut off"
        ),
        Status::Worn => eprintln!(rt;
            "tc: the store's last generation is used up: restore its backup into a new one"
        ),
    }
}

/// Prints which call on the store's file failed first, and the system's number for the error.
fn store_failed(rt: &HostRuntime, first: Option<FileFault>) -> io::Result<()> {
    match first {
        Some(fault) => call_failed(rt, fault.call, fault.errno),
        None => eprintln!(rt; "tc: the store can't be used"),
    }
}

/// Prints which call failed, and the system's number for the error, if the system refused the call.
fn call_failed(rt: &HostRuntime, call: FileCall, errno: Option<i32>) -> io::Result<()> {
    let call = name_of(call);
    match errno {
        Some(number) => eprintln!(rt;
            "tc: the store can't be used: {call} failed (error {number} of the system)"
        ),
        None => eprintln!(rt;
            "tc: the store can't be used: {call} failed (the path names no file of a store, or another one)"
        ),
    }
}

/// Returns the name of a call.
fn name_of(call: FileCall) -> &'static str {
    match call {
        FileCall::Open => "open",
        FileCall::Size => "size",
        FileCall::Read => "read",
        FileCall::Write => "write",
        FileCall::Sync => "sync",
    }
}

/// Prints why an input is refused, and where its format is described.
fn refused(rt: &HostRuntime, line: u32, cause: &Cause) -> io::Result<()> {
    match cause {
        Cause::NotHex { .. } | Cause::Length { .. } | Cause::Crc { .. } => {
            eprintln!(rt; "tc: this is no install code: {}", reason(cause))
        }
        Cause::Magic | Cause::Version | Cause::Link | Cause::Cut => {
            eprintln!(rt; "tc: record {line} of the capture file: {}", reason(cause))
        }
        _ => eprintln!(rt;
            "tc: line {line}: {}; docs/FORMATS.md describes the lines",
            reason(cause)
        ),
    }
}

/// Returns the reason in words.
fn reason(cause: &Cause) -> &'static str {
    match cause {
        Cause::Syntax =>
            "it has no form that this input may have, or a declaration comes after an event",
        Cause::DuplicateNode =>
            "its name, EUI or short address is taken, or the declaration comes twice for one node",
        Cause::DuplicateCode => "the link key of its install code is known to others",
        Cause::DrawRepeated => "its key is known already",
        Cause::UnknownNode => "its node isn't declared, or isn't of the role that this line is for",
        Cause::NoCentre => "no node is the centre",
        Cause::BadCode => "its install code is wrong",
        Cause::Block => "its block of counters is out of range (1 to 65536 and 1 to 1024)",
        Cause::TooMany => "there are more lines or records of this kind than are taken",
        Cause::AddressTaken => "its network address is in an earlier line",
        Cause::Backup => "its text is no backup; docs/BACKUP.md describes one",
        Cause::Magic => "this is no pcap file; `gabzetu open` reads other kinds",
        Cause::Version => "the version of the file isn't 2.4",
        Cause::Link => "its link type is neither 195 nor 230; `gabzetu open` reads others",
        Cause::Cut => "the file ends within it",
        Cause::NotHex { .. } =>
            "it has an odd number of characters, or one that is no hexadecimal digit",
        Cause::Length { .. } => "an install code has 8, 10, 14 or 18 bytes",
        Cause::Crc { .. } => "its last two bytes aren't the check sequence of the others",
    }
}

/// Returns a claim of the audit in words.
fn claim(number: u8) -> &'static str {
    match number {
        1 => "no node seals twice under one key and nonce",
        2 => "no receiver accepts a sender's counter twice under one key",
        3 => "only stored keys are confirmed",
        4 => "counters are reserved before they are used, and floors never fall",
        5 => "removed devices stay locked out",
        _ => "the last line says what the others show",
    }
}
