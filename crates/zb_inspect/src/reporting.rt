//! Makes a report, and writes it.
ghost use Rattle.std.specs.Prelude.{◌≡◌, ◌≢◌, ◌≤◌, ◌++◌, length, IfOk, Err, OnOk, OnErr};
ghost use Rattle.std.specs.Io.KnownBytes.{Appends};
ghost use Rattle.std.specs.List.{AllByRecursion};
ghost use Rattle.zb_base.specs.Outside.{AppendsFront, HasCause, Unrisen};
ghost use Rattle.zb_capture.specs.Grammar.{IsCapture};
ghost use Rattle.zb_inspect.specs.Pieces.{all_blocks};
ghost use Rattle.zb_inspect.specs.Report.{tail_text};
ghost use Rattle.zb_inspect.specs.Texts.{blocks_text, pages_text, HaveRoom};
ghost use Rattle.zb_inspect.specs.Reports.{Reports};
ghost use Rattle.zb_inspect.specs.Rings.{most_ring_keys};

use crate::fault::InspectFault;
use crate::lines::put_tail;
use crate::{Piece, Ring, open_all};
use std::alloc::{AllocError, Global};
use std::thread::{Threads, map_vec};
use zb_base::{Failed, NoMemory, Sink};
use zb_capture::Capture;
use zb_parallel::{Gate, gather};

/// Writes the report on a capture, with `jobs` jobs. Nothing is written before the whole report is known.
///
/// There must be at least one job.
///
/// # Errors
///
/// `Write` if the sink failed, which then has a prefix of the report; `NoMemory`.
pub fn report<T: Threads + Sync, G: Gate, W: Sink>(
    rt: &T,
    alloc: Global,
    capture: &Capture,
    jobs: u32,
    gate: &G,
    out: &mut W,
) -> Result<(), InspectFault>
    requires capture { IsCapture capture.now }
    requires jobs { 1 ≤ jobs }
    ensures ends { Reports capture.now (W.taken out.old) (W.taken out.new) (W.faults out.old)
        (W.faults out.new) result }
    ensures later { W.faults out.old ≤ W.faults out.new }
    // No fault of the sink is reported as `NoMemory`.
    ensures unrisen { result ≢ Err InspectFault.Write → Unrisen (W.faults out.old) (W.faults out.new) }
{
    let opened = open_all(rt, alloc, capture, jobs, gate)?;
    let frames = capture.frames.len() as u32;
    let tail = print_tail(alloc, frames, &opened.ring)?;
    let pages = print_all(rt, alloc, gate, opened.pieces)?;
    write_all(pages.as_slice(), tail.as_slice(), out)?;
    Ok(())
}

/// Prints the lines of the keys, and the end.
fn print_tail(alloc: Global, frames: u32, ring: &Ring) -> Result<Vec<u8>, AllocError>
    requires { length ring.now.keys ≤ most_ring_keys }
    ensures { IfOk result (λ v. v.items ≡ tail_text frames ring.now) }
{
    let mut page = Vec::new(alloc);
    put_tail(&mut page, frames, ring)?;
    Ok(page)
}

/// Prints the lines of the frames of all pieces, one page for each piece. Each page is printed in its own thread.
fn print_all<T: Threads + Sync, G: Gate>(
    rt: &T,
    alloc: Global,
    gate: &G,
    pieces: Vec<Piece>,
) -> Result<Vec<Vec<u8>>, NoMemory>
    requires { AllByRecursion (λ p. HaveRoom p.blocks.items) pieces.items }
    ensures { IfOk result (λ v. pages_text v.items ≡ blocks_text (all_blocks pieces.items)) }
{
    let printed = map_vec(
        rt,
        pieces,
        &|piece: Piece| -> Result<Vec<u8>, NoMemory>
            requires { HaveRoom piece.blocks.items }
            ensures { IfOk result (λ page. page.items ≡ blocks_text piece.blocks.items) }
        {
            gate.pass(piece.number);
            print_piece(alloc, piece)
        },
    )?;
    gather(alloc, printed)
}

/// Prints the lines of the frames of a piece.
fn print_piece(alloc: Global, piece: Piece) -> Result<Vec<u8>, NoMemory>
    requires { HaveRoom piece.blocks.items }
    ensures { IfOk result (λ page. page.items ≡ blocks_text piece.blocks.items) }
{
    let Piece { blocks, .. } = piece;
    let mut page = Vec::new(alloc);
    for block in blocks {
        page = block.print(page)?;
    }
    Ok(page)
}

/// Writes pages one after the other, and then a tail.
fn write_all<W: Sink>(pages: &[Vec<u8>], tail: &[u8], out: &mut W) -> Result<(), Failed>
    ensures whole { OnOk result (Appends (W.taken out.old) (W.taken out.new) (pages_text pages.now ++ tail.now)) }
    ensures front { OnErr result (AppendsFront (W.taken out.old) (W.taken out.new)
        (pages_text pages.now ++ tail.now)) }
    ensures cause { HasCause (W.faults out.old) (W.faults out.new) result }
{
    write_pages(pages, out)?;
    out.write(tail)?;
    Ok(())
}

fn write_pages<W: Sink>(pages: &[Vec<u8>], out: &mut W) -> Result<(), Failed>
    ensures whole { OnOk result (Appends (W.taken out.old) (W.taken out.new) (pages_text pages.now)) }
    ensures front { OnErr result (AppendsFront (W.taken out.old) (W.taken out.new) (pages_text pages.now)) }
    ensures cause { HasCause (W.faults out.old) (W.faults out.new) result }
{
    for page in pages {
        out.write(page.as_slice())?;
    }
    Ok(())
}
