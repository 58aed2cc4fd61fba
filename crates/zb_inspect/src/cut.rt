//! Cutting the frames of a capture into pieces.
ghost use Rattle.std.specs.Prelude.{◌≡◌, ◌≤◌, ◌<◌, length, IfOk};
ghost use Rattle.std.specs.List.{AllByRecursion, AllZip};
ghost use Rattle.std.specs.Int.{div_ceil};
ghost use Rattle.zb_inspect.specs.Pieces.{AreSized, all_blocks, count_of, HasShare, IsShareWithin, IsUnseen, Numbered};
ghost use Rattle.zb_base.specs.Limits.{most_frames};

use crate::block::{Block, Seen};
use crate::piece::Piece;
use std::alloc::Global;
use zb_base::NoMemory;
use zb_parallel::{Share, shares};

/// Cuts `frames` frames into consecutive pieces, at most one for each job. No frame was looked at yet.
///
/// Each piece but the last has an equal share of the frames, rounded up.
pub(crate) fn cut(alloc: Global, frames: u32, jobs: u32) -> Result<Vec<Piece>, NoMemory>
    requires jobs { 1 ≤ jobs }
    requires frames { frames ≤ most_frames }
    ensures numbers { IfOk result (λ v. Numbered 1 (all_blocks v.items)) }
    ensures count { IfOk result (λ v. count_of (all_blocks v.items) ≡ frames) }
    ensures unseen { IfOk result (λ v. AllByRecursion IsUnseen (all_blocks v.items)) }
    ensures sized { IfOk result (λ v. AreSized (div_ceil frames jobs) 0 frames v.items) }
    ensures few { IfOk result (λ v. length v.items ≤ jobs) }
{
    let shares = shares(alloc, frames, jobs)?;
    let pieces = unseen_pieces(alloc, shares)?;
    Ok(pieces)
}

/// Makes a piece of each share.
fn unseen_pieces(alloc: Global, shares: Vec<Share>) -> Result<Vec<Piece>, NoMemory>
    requires { AllByRecursion (IsShareWithin most_frames) shares.items }
    ensures { IfOk result (λ v. AllZip HasShare shares.items v.items) }
{
    let mut pieces = Vec::with_capacity(alloc, shares.len())?;
    for share in shares {
        pieces.push(unseen(alloc, share)?)?;
    }
    Ok(pieces)
}

/// Makes a piece of a share: one block, whose frames were not looked at yet.
fn unseen(alloc: Global, share: Share) -> Result<Piece, NoMemory>
    requires { IsShareWithin most_frames share }
    ensures { IfOk result (λ piece. HasShare share piece) }
{
    let mut blocks = Vec::new(alloc);
    blocks.push(Block {
        first: share.first + 1,
        count: share.count,
        seen: Seen::Nothing,
    })?;
    Ok(Piece {
        number: share.number,
        blocks,
        leads: Vec::new(alloc),
    })
}
