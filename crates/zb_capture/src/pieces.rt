//! Consecutive lines of a capture that several jobs read at once.
ghost use Rattle.std.specs.Prelude.{◌≡◌, ◌≤◌, ◌<◌, ◌^◌, ◌-◌, ◌++◌, ◌==◌, ℕ, List, length, take, drop, position, false, IfOk};
ghost use Rattle.std.specs.List.{AllByRecursion, list_any};
ghost use Rattle.std.specs.Str.Lines.{lines};
ghost use Rattle.zb_capture.specs.Pieces.{all_found, all_texts, AreCut, IsFound};

use crate::fault::CaptureError;
use crate::reader::CaptureReader;
use std::alloc::Global;
use std::thread::{Threads, map_vec};
use zb_base::{NoMemory, OrMemory};

/// The work of one job: consecutive lines of a text.
#[derive(Drop)]
pub(crate) struct Piece<'a> {
    /// The lines.
    pub text: &'a [u8],
}

/// What the lines of a piece give by themselves.
#[derive(Drop)]
pub(crate) struct Found<'a> {
    /// The lines.
    pub text: &'a [u8],
    /// What they give, or the first bad one of them.
    pub read: Result<CaptureReader, OrMemory<CaptureError>>,
}

/// Reads each piece of a text by itself. There are at most as many pieces as jobs.
pub(crate) fn read_pieces<'a, T: Threads + Sync>(
    rt: &T,
    alloc: Global,
    jobs: u32,
    text: &'a [u8],
) -> Result<Vec<Found<'a>>, NoMemory>
    requires text { length text.now < 2 ^ 32 - 1 }
    requires jobs { 1 ≤ jobs }
    ensures cut { IfOk result (λ v. AreCut text.now (all_found v.items)) }
    ensures found { IfOk result (λ v. AllByRecursion IsFound v.items) }
{
    let pieces = cut(alloc, text, jobs)?;
    let found = map_vec(
        rt,
        pieces,
        &|piece: Piece<'_>| -> Found<'_>
            requires { length piece.text.now < 2 ^ 32 - 1 }
            ensures text { result.text.now ≡ piece.entry.text.now }
            ensures found { IsFound result }
        { read_piece(alloc, piece) },
    )?;
    Ok(found)
}

fn read_piece<'a>(alloc: Global, piece: Piece<'a>) -> Found<'a>
    requires { length piece.text.now < 2 ^ 32 - 1 }
    ensures text { result.text.now ≡ piece.entry.text.now }
    ensures found { IsFound result }
{
    let text = piece.text;
    let read = CaptureReader::alone(alloc, text);
    Found { text, read }
}

/// Cuts a text into consecutive pieces after line feeds, at most as many as there are jobs.
///
/// Each piece but the last has at least an equal share of the bytes.
fn cut<'a>(alloc: Global, text: &'a [u8], jobs: u32) -> Result<Vec<Piece<'a>>, NoMemory>
    requires text { length text.now < 2 ^ 32 - 1 }
    requires jobs { 1 ≤ jobs }
    ensures { IfOk result (λ v. AreCut text.now (all_texts v.items)) }
{
    let size = text.len() / jobs as usize + 1;
    let mut pieces = Vec::new(alloc);
    let mut rest = text;
    while !rest.is_empty() {
        let (text, more) = rest.split_at(lines_end(rest, size.min(rest.len())));
        pieces.push(Piece { text })?;
        rest = more;
    }
    Ok(pieces)
}

/// Returns how many bytes the whole lines of a text have. The rest may be the beginning of a line.
pub fn whole_lines(text: &[u8]) -> usize
    ensures within { result ≤ length text.now }
    ensures all { list_any (λ byte. byte == 10) (drop result text.now) ≡ false }
    ensures lines { (more : List ℕ) → lines (text.now ++ more)
        ≡ lines (take result text.now) ++ lines (drop result text.now ++ more) }
{
    match memchr::memrchr(b'\n', text) {
        Some(at) => at + 1,
        None => 0,
    }
}

/// Finds the first place, from `least` on, at which a line ends.
fn lines_end(text: &[u8], least: usize) -> usize
    requires { (1 ≤ least) × (least ≤ length text.now) }
    ensures within { (least ≤ result) × (result ≤ length text.now) }
    ensures ends { lines text.now ≡ lines (take result text.now) ++ lines (drop result text.now) }
{
    match line_feed(&text[least - 1..]) {
        Some(at) => least + at,
        None => text.len(),
    }
}

fn line_feed(text: &[u8]) -> Option<usize>
    ensures { result ≡ position (λ byte. byte == 10) text.now }
{
    text.iter().position(|byte| *byte == b'\n')
}
