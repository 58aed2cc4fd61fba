//! Reads transcripts of worked runs, prints their lines again and compares, and runs a watch over the lines. For each
//! file it writes how many lines there are, whether the printed text is the same, and the two words of the watch.
//!
//! Files after the word `audit` are audited: worked runs, which are sound, and transcripts that were changed in one
//! place. For each it writes one of these:
//! - how many terms were sealed and accepted, and whether removed devices are locked out
//! - the first bad line, and the claim that it breaks
//! - the number of the first line that isn't a line of a transcript
#![tactic(auto)]

use std::alloc::{AllocError, Global};
use std::{env, fs, io};
use zb_audit::{AuditFault, audit, ideal, private};
use zb_base::OrMemory;
use zb_trace::{Line, put_line};
use zb_trace_read::{TraceError, read_lines};

fn main(rt: HostRuntime) -> io::Result<()> {
    let mut audits = false;
    for name in env::args(&rt)?.skip(1) {
        if name.as_str() == "audit" {
            audits = true;
            continue;
        }
        let bytes = fs::read(&rt, name.as_str())?;
        report(&rt, name.as_str(), bytes.as_slice(), audits)?;
    }
    Ok(())
}

/// Writes what is found in one file.
fn report(
    rt: &(impl Print + AllocGlobal),
    name: &str,
    bytes: &[u8],
    audits: bool,
) -> io::Result<()> {
    print!(rt; "{name}: ")?;
    match read_whole(rt.alloc(), bytes) {
        Ok(lines) if audits => write_verdict(rt, lines.as_slice()),
        Ok(lines) => write_count(rt, lines.as_slice(), bytes),
        Err(OrMemory::Fault(TraceError { line })) => println!(rt; "bad line {line}"),
        Err(OrMemory::NoMemory) => println!(rt; "no memory"),
    }
}

fn read_whole(alloc: Global, bytes: &[u8]) -> Result<Vec<Line>, OrMemory<TraceError>> {
    if bytes.len() < 1 << 24 {
        read_lines(alloc, bytes)
    } else {
        Err(OrMemory::NoMemory)
    }
}

/// Writes how many lines there are, whether their text is the same, and two words.
///
/// These are the words of a watch over the lines.
fn write_count(rt: &(impl Print + AllocGlobal), lines: &[Line], bytes: &[u8]) -> io::Result<()> {
    let same = prints_as(rt.alloc(), lines, bytes)?;
    let word = if same { "the same" } else { "another text" };
    let (ideal, private) = watched(rt.alloc(), lines)?;
    println!(rt; "{} lines, {word}; {ideal} {private}", lines.len())
}

/// Returns whether the lines have this text.
fn prints_as(alloc: Global, lines: &[Line], bytes: &[u8]) -> Result<bool, AllocError> {
    let mut page = Vec::new(alloc);
    for line in lines {
        put_line(&mut page, line)?;
    }
    Ok(page.as_slice() == bytes)
}

/// Returns the two words of a watch over the lines.
fn watched(alloc: Global, lines: &[Line]) -> Result<(&'static str, &'static str), AllocError> {
    match (ideal(alloc, lines), private(alloc, lines)) {
        (Ok(ideal), Ok(private)) => Ok((yes_or_no(ideal), yes_or_no(private))),
        _ => Err(AllocError),
    }
}

fn yes_or_no(answer: bool) -> &'static str {
    if answer { "yes" } else { "no" }
}

/// Writes what the audit returns.
fn write_verdict(rt: &(impl Print + AllocGlobal), lines: &[Line]) -> io::Result<()> {
    match audit(rt.alloc(), lines) {
        Ok(verdict) => {
            let word = if verdict.locked { "locked" } else { "open" };
            println!(rt; "sound {} {} {word}", verdict.seals, verdict.accepts)
        }
        Err(AuditFault::Broken { line, clause }) => println!(rt; "broken {line} {clause}"),
        Err(AuditFault::NoMemory) => println!(rt; "no memory"),
    }
}
