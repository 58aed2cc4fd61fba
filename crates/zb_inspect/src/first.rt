//! The first look at frames. Settled frames that follow each other are put into one block, with their lines in one
//! text.
ghost use Rattle.std.specs.Prelude.{◌≡◌, ◌+◌, ◌<◌, ◌≤◌, ◌^◌, ◌++◌, ◌∷◌, ◌&&◌, [], length, true, IfOk, OnOk};
ghost use Rattle.zb_inspect.specs.Rings.{leads as leads_in, frames_shown};
ghost use Rattle.zb_inspect.specs.Pieces.{AreShown, AreJoined, IsAdded, Numbered, count_of, frames_from, has_lines as lines_kept};
ghost use Rattle.zb_base.specs.Limits.{most_frames};

use crate::block::{Block, Seen, look_at};
use crate::key_ring::Lead;
use std::alloc::{AllocError, Global};
use zb_base::NoMemory;
use zb_capture::Frames;
use zb_inspect_frame::Addresses;
use zb_seal::SealingKeys;

/// How many frames are opened together.
///
/// If some of them were opened and a layer of one of them is closed, everything that they show is kept.
const FRAMES_TOGETHER: u32 = 8;

/// Opens `count` frames of a capture under all keys, and adds the keys that it finds. The first frame has the number
/// `first`.
pub(crate) fn look_first(
    alloc: Global,
    frames: &Frames,
    addrs: &Addresses<'_>,
    keys: &[SealingKeys],
    first: u32,
    count: u32,
    leads: &mut Vec<Lead>,
) -> Result<Vec<Block>, NoMemory>
    requires keys { length keys.now < 2 ^ 32 }
    requires frames { length frames.now ≤ most_frames }
    requires first { 1 ≤ first }
    requires within { first + count ≤ length frames.now + 1 }
    ensures numbers { IfOk result (λ v. Numbered first v.items) }
    ensures count { IfOk result (λ v. count_of v.items ≡ count) }
    ensures shown { IfOk result (λ v. AreShown frames.now addrs.now keys.now v.items) }
    ensures leads { OnOk result (leads.new.items ≡ leads.old.items ++ leads_in first
        (frames_shown addrs.now keys.now (frames_from frames.now first count))) }
{
    let mut blocks = Vec::new(alloc);
    let mut done: u32 = 0;
    while done < count {
        let size = FRAMES_TOGETHER.min(count - done);
        let mut block = Block {
            first: first + done,
            count: size,
            seen: Seen::Nothing,
        };
        look_at(alloc, frames, addrs, keys, 0, &mut block, leads)?;
        add_block(&mut blocks, block)?;
        done += size;
    }
    Ok(blocks)
}

/// Adds a block after others. If both it and the last one have kept lines, it becomes a part of the last one.
fn add_block(blocks: &mut Vec<Block>, block: Block) -> Result<(), AllocError>
    requires { count_of (blocks.old.items ++ block ∷ []) < 2 ^ 32 }
    ensures { OnOk result (IsAdded blocks.old.items block blocks.new.items) }
{
    let Some(last) = blocks.pop() else {
        blocks.push(block)?;
        return Ok(());
    };
    if have_lines(&last, &block) {
        blocks.push(join(last, &block)?)?;
    } else {
        blocks.push(last)?;
        blocks.push(block)?;
    }
    Ok(())
}

/// Returns whether the lines of both blocks are kept.
fn have_lines(first: &Block, second: &Block) -> bool
    ensures { result ≡ (lines_kept first.now.seen && lines_kept second.now.seen) }
{
    has_lines(first) && has_lines(second)
}

fn has_lines(block: &Block) -> bool
    ensures { result ≡ lines_kept block.now.seen }
{
    match &block.seen {
        Seen::Nothing => false,
        Seen::Unopened => false,
        Seen::Lines(_) => true,
        Seen::Whole(_) => false,
    }
}

/// Makes one block of two with kept lines.
fn join(front: Block, back: &Block) -> Result<Block, AllocError>
    requires kept { lines_kept front.seen ≡ true }
    requires room { front.count + back.now.count < 2 ^ 32 }
    ensures { IfOk result (λ b. AreJoined front back.now b) }
{
    let Block { first, count, seen } = front;
    match seen {
        Seen::Lines(mut lines) => {
            lines.extend_from_slice(back.lines())?;
            Ok(Block {
                first,
                count: count + back.count,
                seen: Seen::Lines(lines),
            })
        }
        other => Ok(Block {
            first,
            count,
            seen: other,
        }),
    }
}
