//! The run of the process: the words of its command line, its standard input and its standard output.
ghost use Rattle.std.specs.Io.KnownBytes.{Appends};
ghost use Rattle.std.specs.Prelude.{◌≡◌, ◌⊎◌, OnErr, OnOk, map, string_bytes};
ghost use Rattle.zb_base.specs.Outside.{HasCause, Rose, Unrisen};
ghost use Rattle.zb_command.specs.Process.{held_back, store_path};
ghost use Rattle.zb_command.specs.Exits.{exit_text};
ghost use Rattle.zb_command.specs.Statuses.{line_of};

use crate::exit::{ExitStatus, exit_after};
use crate::program::run;
use crate::status::Status;
use std::env;
use std::io::{self, BufWriter, Write};
use std::rt::Env;
use std::thread::Threads;
use zb_base::{Failed, Sink, StdSink, StdSource};
use zb_disk::{FileDisk, FileFault, StoreFiles};

/// How many bytes of output are held back, but for those of `admin`.
const HELD_BACK: usize = 65_536;

/// How the process ended, and what it knows of the store's file for the people who read standard error.
#[derive(Clone, Copy, Debug)]
pub struct Ending {
    /// How it ended.
    pub status: ExitStatus,
    /// What failed first on the store's file, if anything did.
    pub first_fault: Option<FileFault>,
}

/// Runs the command that the words of the process are, over its standard input and output.
///
/// If it didn't end well, it says so on standard output. What standard output holds back is handed on at the end, and
/// fails as a write does. Of `admin` it holds back nothing.
pub fn run_process<H: Env + Input + Print + StoreFiles + AllocGlobal + Threads + Sync + Drop>(
    rt: &H,
) -> Ending {
    let words = match words_after_name(rt) {
        Ok(words) => words,
        Err(error) => return end_at_once(rt, without_words(&error)),
    };
    let room = room_for(words.as_slice());
    let Ok(writer) = BufWriter::with_capacity(rt.alloc(), room, io::writer(rt)) else {
        return end_at_once(rt, Status::NoMemory);
    };
    let mut output = StdSink::new(writer);
    let Ending {
        status,
        first_fault,
    } = run_words(rt, words.as_slice(), &mut output);
    Ending {
        status: ended(status, &mut output),
        first_fault,
    }
}

/// Returns the status of the process.
///
/// It is that of the command, unless its text can't be written, or what is held back can't be handed on.
fn ended<W: Write>(status: ExitStatus, output: &mut StdSink<W>) -> ExitStatus
    ensures { ((result ≡ status) × Unrisen output.old output.new)
        ⊎ ((result ≡ ExitStatus.Run Status.WriteFault) × Rose output.old output.new) }
{
    match finish(&status, output) {
        Ok(()) => status,
        Err(_) => ExitStatus::Run(Status::WriteFault),
    }
}

/// Writes how the process ended, and hands on what is held back.
fn finish<W: Write>(status: &ExitStatus, output: &mut StdSink<W>) -> Result<(), Failed>
    ensures unrisen { OnOk result (Unrisen output.old output.new) }
    ensures failed { OnErr result (Rose output.old output.new) }
{
    match tell(status, output) {
        Ok(()) => output.flush(),
        Err(_) => Err(Failed),
    }
}

/// Returns how many bytes of output are held back.
///
/// Of `admin` there are none: its lines go out as their commands are stored.
fn room_for(words: &[String]) -> usize
    ensures { result ≡ held_back (map string_bytes words.now) }
{
    match words {
        [word, ..] => {
            if word.as_str() == "admin" {
                0
            } else {
                HELD_BACK
            }
        }
        [] => HELD_BACK,
    }
}

/// Returns how a process ended before it wrote anything, and holds nothing back.
fn end_at_once<H: Print>(rt: &H, status: Status) -> Ending
    ensures { (result.status ≡ ExitStatus.Run status) ⊎ (result.status ≡ ExitStatus.Run Status.WriteFault) }
{
    match tell(&ExitStatus::Run(status), &mut StdSink::new(io::writer(rt))) {
        Ok(()) => without_store(status),
        Err(_) => without_store(Status::WriteFault),
    }
}

/// Returns how a process ends that opened no store.
fn without_store(status: Status) -> Ending
    ensures { result.status ≡ ExitStatus.Run status }
{
    Ending {
        status: ExitStatus::Run(status),
        first_fault: None,
    }
}

/// Runs the command, and writes into `output`.
fn run_words<H: Input + StoreFiles + AllocGlobal + Threads + Sync + Drop, W: Write>(
    rt: &H,
    words: &[String],
    output: &mut StdSink<W>,
) -> Ending {
    let Ok(mut store) = FileDisk::new(rt, path_in(words)) else {
        return without_store(Status::NoMemory);
    };
    let mut input = StdSource::new(rt.reader());
    let status = run(rt, rt.alloc(), words, &mut input, output, &mut store);
    Ending {
        status: exit_after(status, store.first_fault),
        first_fault: store.first_fault,
    }
}

/// Returns the status if the words can't be read. A word that isn't UTF-8 is no word of a command.
fn without_words(error: &io::Error) -> Status {
    if error.kind() == io::ErrorKind::InvalidData {
        Status::Usage
    } else {
        Status::NoMemory
    }
}

/// Returns the path of the store: the second word, or an empty path.
fn path_in(words: &[String]) -> &str
    ensures { result.now ≡ store_path (map string_bytes words.now) }
{
    match words {
        [_, path, ..] => path.as_str(),
        _ => "",
    }
}

/// Returns the words after the program's name.
fn words_after_name<H: Env + AllocGlobal>(rt: &H) -> io::Result<Vec<String>> {
    let mut words = Vec::new(rt.alloc());
    for word in env::args(rt)?.skip(1) {
        words.push(word)?;
    }
    Ok(words)
}

/// Writes the text of a status, with a line feed, but for those of which nothing is said.
fn tell<W: Sink>(status: &ExitStatus, output: &mut W) -> Result<(), Failed>
    ensures told { OnOk result (Appends (W.taken output.old) (W.taken output.new) (line_of (exit_text status.now))) }
    ensures cause { HasCause (W.faults output.old) (W.faults output.new) result }
{
    let text = status.text();
    if text.is_empty() {
        return Ok(());
    }
    output.write(text.as_str().as_bytes())?;
    output.write(b"\n")
}
