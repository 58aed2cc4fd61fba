//! The run of the process: its words, its standard input and output, and the store in the file that is named.
ghost use Rattle.std.specs.Io.KnownBytes.{Appends};
ghost use Rattle.std.specs.Prelude.{◌≡◌, ◌⊎◌, OnOk, map, option_map, string_bytes};
ghost use Rattle.zb_base.specs.Outside.{HasCause, Rose, Unrisen};
ghost use Rattle.tc_centre.specs.Asking.{version_text};
ghost use Rattle.tc_centre.specs.Statuses.{line_of, only_word, text_of};

use crate::asked::{Asked, asked_by};
use crate::status::{Status, status_after};
use std::env;
use std::io::{self, ErrorKind};
use std::rt::Env;
use zb_base::{Failed, Sink, StdSink, StdSource};
use zb_disk::{FileDisk, FileFault, StoreFiles};
use zb_live::live;

/// How the process ended, and what it knows of the store's file for the people who read standard error.
#[derive(Clone, Copy, Debug)]
pub struct Ending {
    /// How it ended.
    pub status: Status,
    /// What failed first on the store's file, if anything did.
    pub first_fault: Option<FileFault>,
}

/// Serves the lines of standard input over the store that the one word of the process names.
///
/// Each answer goes out before the next line is read. Where the session didn't end well, it says so on standard
/// output. The words `--version` and `--help` name no store: of these it writes a text, and reads nothing.
pub fn run_process<H: Env + Input + Print + StoreFiles + AllocGlobal + Drop>(rt: &H) -> Ending {
    let mut output = StdSink::new(io::writer(rt));
    let Ending {
        status,
        first_fault,
    } = carry_out(rt, &mut output);
    Ending {
        status: ended(status, &mut output),
        first_fault,
    }
}

/// Carries out what the words of the process ask for.
fn carry_out<H: Env + Input + StoreFiles + AllocGlobal + Drop, W: Sink>(
    rt: &H,
    output: &mut W,
) -> Ending {
    let words = match words_after_name(rt) {
        Ok(words) => words,
        Err(error) => return without_store(without_words(&error)),
    };
    let Some(word) = only_word(words.as_slice()) else {
        return without_store(Status::Usage);
    };
    match asked_by(word) {
        Some(asked) => without_store(show(asked, output)),
        None => serve_store(rt, word, output),
    }
}

/// Returns how a process ends that opened no store.
fn without_store(status: Status) -> Ending
    ensures { result.status ≡ status }
{
    Ending {
        status,
        first_fault: None,
    }
}

/// Serves the session over the store at this path.
fn serve_store<H: Input + StoreFiles + AllocGlobal + Drop, W: Sink>(
    rt: &H,
    path: &str,
    output: &mut W,
) -> Ending {
    let Ok(mut store) = FileDisk::new(rt, path) else {
        return without_store(Status::NoMemory);
    };
    let mut input = StdSource::new(rt.reader());
    let session = live(rt.alloc(), &mut input, output, &mut store);
    Ending {
        status: status_after(session, store.first_fault),
        first_fault: store.first_fault,
    }
}

/// Writes a text that was asked for.
fn show<W: Sink>(asked: Asked, output: &mut W) -> Status
    ensures version { asked ≡ Asked.Version → result ≡ Status.Ok
        → Appends (W.taken output.old) (W.taken output.new) (line_of version_text) }
    ensures ends { ((result ≡ Status.Ok) × Unrisen (W.faults output.old) (W.faults output.new))
        ⊎ ((result ≡ Status.WriteFault) × Rose (W.faults output.old) (W.faults output.new)) }
{
    match write_line(asked.text().as_bytes(), output) {
        Ok(()) => Status::Ok,
        Err(Failed) => Status::WriteFault,
    }
}

/// Returns the status of the process: that of its run, unless its text can't be written.
fn ended<W: Sink>(status: Status, output: &mut W) -> Status
    ensures { ((result ≡ status) × Unrisen (W.faults output.old) (W.faults output.new))
        ⊎ ((result ≡ Status.WriteFault) × Rose (W.faults output.old) (W.faults output.new)) }
{
    match tell(&status, output) {
        Ok(()) => status,
        Err(Failed) => Status::WriteFault,
    }
}

/// Returns the status where the words can't be had. A word that isn't UTF-8 names no store.
fn without_words(error: &io::Error) -> Status {
    if error.kind() == ErrorKind::InvalidData {
        Status::Usage
    } else {
        Status::NoMemory
    }
}

/// Returns the only word, if there is just one.
fn only_word(words: &[String]) -> Option<&str>
    ensures { option_map (λ word. word.now) result ≡ only_word (map string_bytes words.now) }
{
    match words {
        [word] => Some(word.as_str()),
        _ => None,
    }
}

/// Returns the words after the program's name.
fn words_after_name<H: Env + AllocGlobal>(rt: &H) -> io::Result<Vec<String>> {
    let mut words = Vec::new(rt.alloc());
    for word in env::args(rt)?.skip(1) {
        words.push(word)?;
    }
    Ok(words)
}

/// Writes the text of a status, with a line feed, but for those of which nothing is said.
fn tell<W: Sink>(status: &Status, output: &mut W) -> Result<(), Failed>
    ensures told { OnOk result (Appends (W.taken output.old) (W.taken output.new) (line_of (text_of status.now))) }
    ensures cause { HasCause (W.faults output.old) (W.faults output.new) result }
{
    let text = status.text();
    write_line(text.as_str().as_bytes(), output)?;
    Ok(())
}

/// Writes a text with a line feed, or nothing of an empty text.
#[tactic(auto, using(crate::proofs::Lines::line_written))]
fn write_line<W: Sink>(text: &[u8], output: &mut W) -> Result<(), Failed>
    ensures told { OnOk result (Appends (W.taken output.old) (W.taken output.new) (line_of text.now)) }
    ensures cause { HasCause (W.faults output.old) (W.faults output.new) result }
{
    if text.is_empty() {
        return Ok(());
    }
    output.write(text)?;
    output.write(b"\n")?;
    Ok(())
}
