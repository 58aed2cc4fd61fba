//! Reads a transcript as a whole, or line by line.
ghost use Rattle.std.specs.Prelude.{◌≡◌, ◌==◌, ◌<◌, ◌+◌, ◌^◌, ◌++◌, ◌∷◌, [], ℕ, List, length, position, codes, IfSome, IfOk, IfErr, OnErr, MatchOption, Some, false, map};
ghost use Rattle.std.specs.List.{AllByRecursion};
ghost use Rattle.hex.specs.Hex.{IsBytes};
ghost use Rattle.zb_text.specs.Words.{left, Shows, parts, words as words_of};
ghost use Rattle.zb_trace.specs.Text.{MayStand, words, text as text_of, texts, IsProper, AllProper};
ghost use Rattle.zb_trace.specs.declared.line.Line.{Line as ALine};
ghost use Rattle.zb_trace.specs.declared.line.Line.TheVariants.{End};
ghost use Rattle.zb_trace_read.specs.Faults.{IsTraceFault, IsNoMemory};
ghost use Rattle.zb_trace_read.specs.Grammar.{all_bytes_of, in_capitals};
ghost use Rattle.zb_trace_read.specs.Reading as spec;
ghost use Rattle.zb_trace_read.specs.Places.{read_into};

use crate::TraceError;
use crate::fields::{answer, count, has_no_small_letter};
use crate::nobodys::read_of_nobody;
use hex::FromHexError;
use memchr::memchr;
use std::alloc::{AllocError, Global};
use zb_base::OrMemory;
use zb_text::numbers::number;
use zb_text::words::Words;
use zb_trace::Line;

/// Reads the lines of a transcript, which is the whole text.
///
/// The text is exactly the text of these lines: hexadecimal digits are in upper case, and the last line has a line
/// feed. The text must be shorter than 4 GiB.
///
/// # Errors
/// The first line that isn't a line of a transcript; or `NoMemory`.
pub fn read_lines(alloc: Global, bytes: &[u8]) -> Result<Vec<Line>, OrMemory<TraceError>>
    requires { length bytes.now < 2 ^ 32 }
    ensures found { IfOk result (λ lines. AllProper lines.items × (bytes.now ≡ texts lines.items)) }
    ensures fault { IfErr result (λ e. IsTraceFault bytes.now e) }
    // Any lines with this text are those that were found, word for word.
    ensures only { (ls : List ALine) → AllProper ls → bytes.now ≡ texts ls
        → IfOk result (λ lines. map words lines.items ≡ map words ls) }
    ensures accepts { (ls : List ALine) → AllProper ls → bytes.now ≡ texts ls → IfErr result IsNoMemory }
{
    let mut lines = Vec::new(alloc);
    let mut rest = bytes;
    while !rest.is_empty() {
        match take_line(alloc, rest)? {
            Some((line, after)) => {
                lines.push(line)?;
                rest = after;
            }
            None => return Err(first_bad(lines.len())),
        }
    }
    Ok(lines)
}

/// Makes the fault after `before` good lines.
fn first_bad(before: usize) -> OrMemory<TraceError>
    requires { before + 1 < 2 ^ 32 }
    ensures { result ≡ OrMemory.Fault (record { line = before + 1 }) }
{
    OrMemory::Fault(TraceError {
        line: before as u32 + 1,
    })
}

/// Reads the line with which a text begins.
///
/// Returns it with what comes after it, or `None` if there is no such line.
///
/// # Errors
/// `NoMemory`, if memory runs out.
pub fn take_line(alloc: Global, text: &[u8]) -> Result<Option<(Line, &[u8])>, AllocError>
    ensures found { IfOk result (λ o. IfSome o (λ t. IsProper t.0 × (text.now ≡ text_of t.0 ++ t.1.now))) }
    ensures none { IfOk result
        (λ o. MatchOption o ((l : ALine) (more : List ℕ) → IsProper l → text.now ≡ text_of l ++ more → ⊥)
        (λ t. length t.1.now < length text.now)) }
{
    let mut line = no_line();
    match take_into(alloc, text, &mut line)? {
        Some(rest) => Ok(Some((line, rest))),
        None => Ok(None),
    }
}

/// Makes a line to overwrite: the end line of an empty run.
pub fn no_line() -> Line
    ensures { result ≡ End 0 0 0 0 false false }
{
    Line::End {
        events: 0,
        seals: 0,
        accepts: 0,
        refusals: 0,
        ideal: false,
        private: false,
    }
}

/// Reads the line with which a text begins into a place.
///
/// Returns what comes after the line, or `None` if there is no such line.
///
/// So a transcript can be read line by line, without a list of lines, and in one place. After `None` the place has no
/// meaningful value.
///
/// # Errors
/// `NoMemory`, if memory runs out.
pub fn take_into<'a>(
    alloc: Global,
    text: &'a [u8],
    line: &mut Line,
) -> Result<Option<&'a [u8]>, AllocError>
    ensures found { IfOk result
        (λ o. IfSome o (λ rest. IsProper line.new × (text.now ≡ text_of line.new ++ rest.now))) }
    ensures none { IfOk result
        (λ o. MatchOption o ((l : ALine) (more : List ℕ) → IsProper l → text.now ≡ text_of l ++ more → ⊥)
        (λ rest. length rest.now < length text.now)) }
{
    let Some((front, rest)) = first_line(text) else {
        return Ok(None);
    };
    match read_line(alloc, front, line)? {
        Some(_) => Ok(Some(rest)),
        None => Ok(None),
    }
}

/// Returns what is before the first line feed, and what is after it; `None` if there is no line feed.
#[tactic(auto, using(zb_text::proofs::Cuts::cut_none, zb_text::proofs::Cuts::cut_some))]
fn first_line(text: &[u8]) -> Option<(&[u8], &[u8])>
    ensures { MatchOption result (parts 10 text.now ≡ text.now ∷ [])
        (λ cut. parts 10 text.now ≡ cut.0.now ∷ parts 10 cut.1.now) }
{
    let at = line_feed(text)?;
    let (front, rest) = text.split_at(at);
    Some((front, &rest[1..]))
}

/// Returns the place of the first line feed.
#[tactic(auto, using(zb_text::proofs::Places::first_place))]
fn line_feed(text: &[u8]) -> Option<usize>
    ensures { result ≡ position (λ byte. byte == 10) text.now }
{
    memchr(b'\n', text)
}

/// Reads a line without its line feed.
#[tactic(auto, unfolding(crate::specs::Reading::read_words))]
pub(crate) fn read_line(
    alloc: Global,
    text: &[u8],
    line: &mut Line,
) -> Result<Option<()>, AllocError>
    ensures value { IfOk result (λ o. Shows words (read_into o line.new)
        (spec.read_words (words_of (Some text.now)))) }
    ensures fits { IfOk result (λ o. IfSome o (λ _. AllByRecursion MayStand (words line.new))) }
{
    let mut reader = Words::new(text);
    let Some(first) = reader.word() else {
        return Ok(None);
    };
    if first == b"end".as_slice() {
        return Ok(read_end(&mut reader, line));
    }
    match number(u32::MAX, first) {
        Some(event) => read_event(alloc, event, &mut reader, line),
        None => Ok(None),
    }
}

fn read_event(
    alloc: Global,
    event: u32,
    reader: &mut Words<'_>,
    line: &mut Line,
) -> Result<Option<()>, AllocError>
    ensures value { IfOk result (λ o. Shows words (read_into o line.new) (spec.of_event event (left reader.old))) }
    ensures fits { IfOk result (λ o. IfSome o (λ _. AllByRecursion MayStand (words line.new))) }
{
    let Some(kind) = reader.word() else {
        return Ok(None);
    };
    if kind == b"dump".as_slice() {
        read_dump(alloc, event, reader, line)
    } else {
        Ok(read_of_nobody(event, kind, reader, line))
    }
}

/// Reads the end of a transcript.
fn read_end(reader: &mut Words<'_>, line: &mut Line) -> Option<()>
    ensures value { Shows words (read_into result line.new) (spec.of_end (left reader.old)) }
    ensures fits { IfSome result (λ _. AllByRecursion MayStand (words line.new)) }
{
    let events = count(reader)?;
    let seals = count(reader)?;
    let accepts = count(reader)?;
    let refusals = count(reader)?;
    let ideal = answer(reader)?;
    let private = answer(reader)?;
    reader.end()?;
    *line = Line::End {
        events,
        seals,
        accepts,
        refusals,
        ideal,
        private,
    };
    Some(())
}

/// Reads the record of a node's disk, which may be of any length.
fn read_dump(
    alloc: Global,
    event: u32,
    reader: &mut Words<'_>,
    line: &mut Line,
) -> Result<Option<()>, AllocError>
    ensures value { IfOk result (λ o. Shows words (read_into o line.new) (spec.of_dump event (left reader.old))) }
    ensures fits { IfOk result (λ o. IfSome o (λ _. AllByRecursion MayStand (words line.new))) }
{
    let Some(node) = reader.name() else {
        return Ok(None);
    };
    let Some(word) = reader.word() else {
        return Ok(None);
    };
    let Some(bytes) = all_bytes(alloc, word)? else {
        return Ok(None);
    };
    if reader.end().is_none() {
        return Ok(None);
    }
    *line = Line::Dump { event, node, bytes };
    Ok(Some(()))
}

/// Reads the bytes that a word spells, any number of them.
fn all_bytes(alloc: Global, word: &[u8]) -> Result<Option<zb_base::List<u8>>, AllocError>
    ensures value { IfOk result (λ o. o ≡ in_capitals all_bytes_of word.now) }
    ensures fits { IfOk result (λ o. IfSome o (λ bytes. IsBytes bytes)) }
{
    if !has_no_small_letter(word) {
        return Ok(None);
    }
    if word == b"-".as_slice() {
        return Ok(Some(zb_base::List::from_vec(Vec::new(alloc))));
    }
    if word.is_empty() {
        return Ok(None);
    }
    match hex::decode(alloc, word) {
        Ok(bytes) => {
            known_bytes(bytes.as_slice());
            Ok(Some(zb_base::List::from_vec(bytes)))
        }
        Err(FromHexError::OutOfMemory) => Err(AllocError),
        Err(_) => Ok(None),
    }
}

/// States that each byte is below 256.
fn known_bytes(bytes: &[u8])
    ensures { IsBytes bytes.now }
{}
