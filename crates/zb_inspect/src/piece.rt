//! The work of one job: consecutive blocks of frames.
ghost use Rattle.std.specs.Prelude.{◌≡◌, ◌+◌, ◌≤◌, ◌<◌, ◌^◌, ◌++◌, ◌∷◌, [], length, take, IfOk, IfSome, OnOk};
ghost use Rattle.std.specs.List.{AllByRecursion, AllZip};
ghost use Rattle.zb_inspect.specs.Pieces.{AllSee, AreShown, IsNext, IsNextPiece, IsOneUnseen, IsWithin, Numbered, all_fresh, count_of, frames_from};
ghost use Rattle.zb_inspect.specs.Rings.{leads as leads_in, frames_shown};
ghost use Rattle.zb_base.specs.Limits.{most_frames};

use crate::block::{Block, Seen, look_at};
use crate::first::look_first;
use crate::key_ring::Lead;
use std::alloc::Global;
use zb_base::NoMemory;
use zb_capture::Frames;
use zb_inspect_frame::Addresses;
use zb_seal::SealingKeys;

/// The work of one job: consecutive blocks of the frames of a capture.
#[derive(Drop)]
pub struct Piece {
    /// The number of the piece, from 0.
    pub number: u32,
    /// The blocks, in the order of their frames.
    pub blocks: Vec<Block>,
    /// The keys that the last look at the frames found.
    pub leads: Vec<Lead>,
}

/// Opens the frames of a piece under all keys.
///
/// They may have been opened under the first `known` keys.
pub(crate) fn look(
    alloc: Global,
    frames: &Frames,
    addrs: &Addresses<'_>,
    keys: &[SealingKeys],
    known: u32,
    piece: Piece,
) -> Result<Piece, NoMemory>
    requires known { known ≤ length keys.now }
    requires keys { length keys.now < 2 ^ 32 }
    requires frames { length frames.now ≤ most_frames }
    requires within { AllByRecursion (IsWithin (length frames.now)) piece.blocks.items }
    requires before { AllSee frames.now addrs.now (take known keys.now) piece.blocks.items }
    ensures { IfOk result (λ p. IsNextPiece frames.now addrs.now keys.now piece p) }
{
    match unseen(piece.blocks.as_slice()) {
        Some((first, count)) => {
            let next = look_new(alloc, frames, addrs, keys, piece.number, first, count)?;
            Ok(next)
        }
        None => {
            let next = look_again(alloc, frames, addrs, keys, known, piece)?;
            Ok(next)
        }
    }
}

/// Opens `count` frames for the first time. The first one has the number `first`.
fn look_new(
    alloc: Global,
    frames: &Frames,
    addrs: &Addresses<'_>,
    keys: &[SealingKeys],
    number: u32,
    first: u32,
    count: u32,
) -> Result<Piece, NoMemory>
    requires keys { length keys.now < 2 ^ 32 }
    requires frames { length frames.now ≤ most_frames }
    requires first { 1 ≤ first }
    requires within { first + count ≤ length frames.now + 1 }
    ensures number { IfOk result (λ p. p.number ≡ number) }
    ensures numbers { IfOk result (λ p. Numbered first p.blocks.items) }
    ensures count { IfOk result (λ p. count_of p.blocks.items ≡ count) }
    ensures shown { IfOk result (λ p. AreShown frames.now addrs.now keys.now p.blocks.items) }
    ensures leads { IfOk result (λ p. p.leads.items ≡ leads_in first
        (frames_shown addrs.now keys.now (frames_from frames.now first count))) }
{
    let mut leads = Vec::new(alloc);
    let blocks = look_first(alloc, frames, addrs, keys, first, count, &mut leads)?;
    Ok(Piece {
        number,
        blocks,
        leads,
    })
}

/// Opens the blocks of a piece again, in order.
fn look_again(
    alloc: Global,
    frames: &Frames,
    addrs: &Addresses<'_>,
    keys: &[SealingKeys],
    known: u32,
    piece: Piece,
) -> Result<Piece, NoMemory>
    requires known { known ≤ length keys.now }
    requires keys { length keys.now < 2 ^ 32 }
    requires frames { length frames.now ≤ most_frames }
    requires within { AllByRecursion (IsWithin (length frames.now)) piece.blocks.items }
    requires before { AllSee frames.now addrs.now (take known keys.now) piece.blocks.items }
    ensures number { IfOk result (λ p. p.number ≡ piece.number) }
    ensures next { IfOk result (λ p. AllZip (IsNext frames.now addrs.now keys.now) piece.blocks.items p.blocks.items) }
    ensures leads { IfOk result (λ p. p.leads.items ≡ all_fresh frames.now addrs.now keys.now piece.blocks.items) }
{
    let Piece {
        number,
        mut blocks,
        ..
    } = piece;
    let mut leads = Vec::new(alloc);
    look_at_all(
        alloc,
        frames,
        addrs,
        keys,
        known,
        blocks.as_mut_slice(),
        &mut leads,
    )?;
    Ok(Piece {
        number,
        blocks,
        leads,
    })
}

/// Returns the first frame and the number of frames of a piece that wasn't opened yet. It is one block.
fn unseen(blocks: &[Block]) -> Option<(u32, u32)>
    ensures { IfSome result (λ f. IsOneUnseen blocks.now f.0 f.1) }
{
    match blocks {
        [block] => unseen_frames(block),
        _ => None,
    }
}

fn unseen_frames(block: &Block) -> Option<(u32, u32)>
    ensures { IfSome result (λ f. IsOneUnseen (block.now ∷ []) f.0 f.1) }
{
    match &block.seen {
        Seen::Nothing => Some((block.first, block.count)),
        Seen::Unopened => None,
        Seen::Lines(_) => None,
        Seen::Whole(_) => None,
    }
}

fn look_at_all(
    alloc: Global,
    frames: &Frames,
    addrs: &Addresses<'_>,
    keys: &[SealingKeys],
    known: u32,
    blocks: &mut [Block],
    leads: &mut Vec<Lead>,
) -> Result<(), NoMemory>
    requires known { known ≤ length keys.now }
    requires keys { length keys.now < 2 ^ 32 }
    requires frames { length frames.now ≤ most_frames }
    requires within { AllByRecursion (IsWithin (length frames.now)) blocks.old }
    requires before { AllSee frames.now addrs.now (take known keys.now) blocks.old }
    ensures next { OnOk result (AllZip (IsNext frames.now addrs.now keys.now) blocks.old blocks.new) }
    ensures leads { OnOk result (leads.new.items ≡ leads.old.items
        ++ all_fresh frames.now addrs.now keys.now blocks.old) }
{
    for i in 0..blocks.len() {
        look_at(alloc, frames, addrs, keys, known, &mut blocks[i], leads)?;
    }
    Ok(())
}
