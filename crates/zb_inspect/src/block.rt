//! A few consecutive frames of a capture, and what they show.
ghost use Rattle.std.specs.Prelude.{◌≡◌, ℕ, ◌+◌, ◌<◌, ◌≤◌, ◌^◌, ◌++◌, [], length, get_or, take, drop, vec_len, true, IfOk, OnOk};
ghost use Rattle.arrayvec.specs.ArrayVec.{ArrayVec};
ghost use Rattle.std.specs.List.{list_all};
ghost use Rattle.zb_inspect_frame.specs.Lines.{frames_text};
ghost use Rattle.zb_inspect_frame.specs.Settling.{is_settled as settled, is_unopened as unopened};
ghost use Rattle.zb_inspect_frame.specs.Shows.{frame_shown};
ghost use Rattle.zb_inspect.specs.Rings.{lead_of, leads_of, leads as leads_in, frames_shown};
ghost use Rattle.zb_inspect.specs.Pieces.{SameFrames, IsWithin, StandsFor, Sees, IsShown, fresh};
ghost use Rattle.zb_base.specs.Limits.{most_frames};

use crate::key_ring::Lead;
use std::alloc::{AllocError, Global};
use std::mem;
use zb_base::{Key, NoMemory};
use zb_capture::{FrameRun, Frames};
use zb_inspect_frame::{
    Addresses, Carried, Shown, carried_keys, is_settled, is_unopened, put_frames, put_unopened,
    show, show_below, stays_closed,
};
use zb_seal::SealingKeys;

/// What is kept for the frames of a block.
#[derive(Drop)]
pub enum Seen {
    /// They weren't looked at yet.
    Nothing,
    /// No key opened the NWK layer of any of them. They show what they show under no keys, so nothing is kept.
    Unopened,
    /// Their lines in a report. No layer of any of them is closed, so further keys show no more.
    Lines(Vec<u8>),
    /// Everything that they show, because a layer of some of them is closed.
    Whole(Vec<Shown>),
}

/// A few consecutive frames of a capture, and what they show under the keys that were tried on them.
#[derive(Drop)]
pub struct Block {
    /// The number of the first frame, from 1.
    pub first: u32,
    /// How many frames there are.
    pub count: u32,
    /// What is kept for them.
    pub seen: Seen,
}

/// Opens a block of the frames of a capture under all keys, and adds the keys that it finds.
///
/// It may have been opened under the first `known` keys. Frames with kept lines show no more, and their keys were
/// found before.
pub(crate) fn look_at(
    alloc: Global,
    frames: &Frames,
    addrs: &Addresses<'_>,
    keys: &[SealingKeys],
    known: u32,
    block: &mut Block,
    leads: &mut Vec<Lead>,
) -> Result<(), NoMemory>
    requires known { known ≤ length keys.now }
    requires keys { length keys.now < 2 ^ 32 }
    requires frames { length frames.now ≤ most_frames }
    requires within { IsWithin (length frames.now) block.old }
    requires before { Sees frames.now addrs.now (take known keys.now) block.old }
    ensures same { OnOk result (SameFrames block.old block.new) }
    ensures shown { OnOk result (IsShown frames.now addrs.now keys.now block.new) }
    ensures leads { OnOk result (leads.new.items ≡ leads.old.items ++ fresh frames.now addrs.now keys.now block.old) }
{
    let from = block.first as usize - 1;
    let count = block.count as usize;
    match mem::replace(&mut block.seen, Seen::Nothing) {
        Seen::Nothing => {
            let all_shown = show_all(alloc, frames, addrs, keys, from, count)?;
            keep(alloc, block, all_shown, leads)?;
        }
        Seen::Unopened => {
            let all_shown = show_unopened(alloc, frames, addrs, keys, known, from, count)?;
            keep_again(alloc, block, all_shown, leads)?;
        }
        Seen::Lines(lines) => block.seen = Seen::Lines(lines),
        Seen::Whole(all_shown) => {
            let all_shown = show_again(frames, addrs, keys, known, from, all_shown);
            keep_again(alloc, block, all_shown, leads)?;
        }
    }
    Ok(())
}

/// Shows `count` frames from a place on, counted from 0.
fn show_all(
    alloc: Global,
    frames: &Frames,
    addrs: &Addresses<'_>,
    keys: &[SealingKeys],
    from: usize,
    count: usize,
) -> Result<Vec<Shown>, NoMemory>
    requires keys { length keys.now < 2 ^ 32 }
    requires frames { length frames.now ≤ most_frames }
    requires within { from + count ≤ length frames.now }
    ensures { IfOk result (λ v. v.items ≡ frames_shown addrs.now keys.now (take count (drop from frames.now))) }
{
    let mut seen = Vec::with_capacity(alloc, count)?;
    while seen.len() < count {
        let done = seen.len();
        let run = frames.from(from + done);
        show_run(addrs, keys, &run, run.len().min(count - done), &mut seen)?;
    }
    Ok(seen)
}

/// Adds what the first frames of a run show.
fn show_run(
    addrs: &Addresses<'_>,
    keys: &[SealingKeys],
    run: &FrameRun<'_>,
    count: usize,
    seen: &mut Vec<Shown>,
) -> Result<(), NoMemory>
    requires keys { length keys.now < 2 ^ 32 }
    requires within { count ≤ length run.now }
    ensures { OnOk result (seen.new.items ≡ seen.old.items ++ frames_shown addrs.now keys.now (take count run.now)) }
{
    for i in 0..count {
        seen.push(show_at(addrs, keys, run, i))?;
    }
    Ok(())
}

/// Shows the frame at a place of a run.
fn show_at(addrs: &Addresses<'_>, keys: &[SealingKeys], run: &FrameRun<'_>, place: usize) -> Shown
    requires keys { length keys.now < 2 ^ 32 }
    requires within { place < length run.now }
    ensures { (other : ArrayVec ℕ) → result ≡ frame_shown addrs.now keys.now (get_or run.now place other).items }
{
    show(addrs, keys, &run.at(place))
}

/// Shows `count` frames under all keys, from a place on, counted from 0. The first `known` keys open none of them.
fn show_unopened(
    alloc: Global,
    frames: &Frames,
    addrs: &Addresses<'_>,
    keys: &[SealingKeys],
    known: u32,
    from: usize,
    count: usize,
) -> Result<Vec<Shown>, NoMemory>
    requires known { known ≤ length keys.now }
    requires keys { length keys.now < 2 ^ 32 }
    requires frames { length frames.now ≤ most_frames }
    requires within { from + count ≤ length frames.now }
    requires before { list_all unopened
        (frames_shown addrs.now (take known keys.now) (take count (drop from frames.now))) ≡ true }
    ensures { IfOk result (λ v. v.items ≡ frames_shown addrs.now keys.now (take count (drop from frames.now))) }
{
    let before = show_all(alloc, frames, addrs, &[], from, count)?;
    Ok(show_again(frames, addrs, keys, known, from, before))
}

/// Shows frames under all keys, from a place on, counted from 0. `seen` is what they show under the first `known`.
fn show_again(
    frames: &Frames,
    addrs: &Addresses<'_>,
    keys: &[SealingKeys],
    known: u32,
    from: usize,
    seen: Vec<Shown>,
) -> Vec<Shown>
    requires known { known ≤ length keys.now }
    requires keys { length keys.now < 2 ^ 32 }
    requires frames { length frames.now ≤ most_frames }
    requires within { from + vec_len seen ≤ length frames.now }
    requires before { seen.items ≡ frames_shown addrs.now (take known keys.now)
        (take (vec_len seen) (drop from frames.now)) }
    ensures { result.items ≡ frames_shown addrs.now keys.now (take (vec_len seen) (drop from frames.now)) }
{
    let mut seen = seen;
    refresh_all(frames, addrs, keys, known, from, seen.as_mut_slice());
    seen
}

/// Updates frames from a place on, counted from 0, that were opened under the first `known` keys.
fn refresh_all(
    frames: &Frames,
    addrs: &Addresses<'_>,
    keys: &[SealingKeys],
    known: u32,
    from: usize,
    seen: &mut [Shown],
)
    requires known { known ≤ length keys.now }
    requires keys { length keys.now < 2 ^ 32 }
    requires frames { length frames.now ≤ most_frames }
    requires within { from + length seen.old ≤ length frames.now }
    requires before { seen.old ≡ frames_shown addrs.now (take known keys.now)
        (take (length seen.old) (drop from frames.now)) }
    ensures { seen.new ≡ frames_shown addrs.now keys.now (take (length seen.old) (drop from frames.now)) }
{
    for i in 0..seen.len() {
        refresh(frames, addrs, keys, known, from + i, &mut seen[i]);
    }
}

/// Updates the frame at a place. Its bytes are read only if a layer of it was opened.
fn refresh(
    frames: &Frames,
    addrs: &Addresses<'_>,
    keys: &[SealingKeys],
    known: u32,
    place: usize,
    seen: &mut Shown,
)
    requires within { known ≤ length keys.now }
    requires fits { length keys.now < 2 ^ 32 }
    requires place { place < length frames.now }
    requires before { (other : ArrayVec ℕ)
        → seen.old ≡ frame_shown addrs.now (take known keys.now) (get_or frames.now place other).items }
    ensures { (other : ArrayVec ℕ)
        → seen.new ≡ frame_shown addrs.now keys.now (get_or frames.now place other).items }
{
    if is_settled(seen) {
        return;
    }
    if stays_closed(keys, known, seen) {
        return;
    }
    let frame = frames.from(place).at(0);
    show_below(addrs, keys, known, &frame, seen);
}

/// Keeps what the frames of a block show at the first look, and adds the keys that their opened contents carry.
fn keep(
    alloc: Global,
    block: &mut Block,
    all_shown: Vec<Shown>,
    leads: &mut Vec<Lead>,
) -> Result<(), AllocError>
    requires { block.old.first + vec_len all_shown < 2 ^ 32 }
    ensures same { OnOk result (SameFrames block.old block.new) }
    ensures stands { OnOk result (StandsFor block.old.first all_shown.items block.new.seen) }
    ensures leads { OnOk result (leads.new.items ≡ leads.old.items ++ leads_in block.old.first all_shown.items) }
{
    add_all_leads(leads, block.first, all_shown.as_slice())?;
    block.seen = settle(alloc, block.first, all_shown)?;
    Ok(())
}

/// Keeps what the frames of a block show at a later look, and adds the keys that their opened contents carry.
///
/// Everything that unopened frames show is kept, too: if each round finds one key, no frame is parsed again in each
/// of them.
fn keep_again(
    alloc: Global,
    block: &mut Block,
    all_shown: Vec<Shown>,
    leads: &mut Vec<Lead>,
) -> Result<(), AllocError>
    requires { block.old.first + vec_len all_shown < 2 ^ 32 }
    ensures same { OnOk result (SameFrames block.old block.new) }
    ensures stands { OnOk result (StandsFor block.old.first all_shown.items block.new.seen) }
    ensures leads { OnOk result (leads.new.items ≡ leads.old.items ++ leads_in block.old.first all_shown.items) }
{
    add_all_leads(leads, block.first, all_shown.as_slice())?;
    block.seen = settle_again(alloc, block.first, all_shown)?;
    Ok(())
}

/// Keeps nothing for frames that no key opened, the lines for frames with no closed layer, and else everything they
/// show.
fn settle(alloc: Global, first: u32, all_shown: Vec<Shown>) -> Result<Seen, AllocError>
    requires { first + vec_len all_shown < 2 ^ 32 }
    ensures { IfOk result (λ seen. StandsFor first all_shown.items seen) }
{
    if are_unopened(all_shown.as_slice()) {
        Ok(Seen::Unopened)
    } else {
        settle_again(alloc, first, all_shown)
    }
}

/// Keeps the lines of frames with no closed layer, and else everything they show.
fn settle_again(alloc: Global, first: u32, all_shown: Vec<Shown>) -> Result<Seen, AllocError>
    requires { first + vec_len all_shown < 2 ^ 32 }
    ensures { IfOk result (λ seen. StandsFor first all_shown.items seen) }
{
    if are_settled(all_shown.as_slice()) {
        Ok(Seen::Lines(lines_of(alloc, first, all_shown.as_slice())?))
    } else {
        Ok(Seen::Whole(all_shown))
    }
}

fn are_unopened(all_shown: &[Shown]) -> bool
    ensures { result ≡ list_all unopened all_shown.now }
{
    all_shown.iter().all(|shown| is_unopened(shown))
}

fn are_settled(all_shown: &[Shown]) -> bool
    ensures { result ≡ list_all settled all_shown.now }
{
    all_shown.iter().all(|shown| is_settled(shown))
}

/// Prints the lines of frames, of which the first has the number `first`.
fn lines_of(alloc: Global, first: u32, all_shown: &[Shown]) -> Result<Vec<u8>, AllocError>
    requires { first + length all_shown.now < 2 ^ 32 }
    ensures { IfOk result (λ v. v.items ≡ frames_text first all_shown.now) }
{
    let mut lines = Vec::with_capacity(alloc, 128 * all_shown.len())?;
    put_frames(&mut lines, first, all_shown)?;
    Ok(lines)
}

/// Adds the keys that opened contents carry, frame by frame, and in each frame from the inside out.
fn add_all_leads(found: &mut Vec<Lead>, first: u32, seen: &[Shown]) -> Result<(), AllocError>
    requires { first + length seen.now < 2 ^ 32 }
    ensures { OnOk result (found.new.items ≡ found.old.items ++ leads_in first seen.now) }
{
    let mut frame = first;
    for shown in seen {
        add_leads(found, frame, carried_keys(shown))?;
        frame += 1;
    }
    Ok(())
}

#[tactic(auto, using(std::proofs::Common::append_assoc))]
fn add_leads(found: &mut Vec<Lead>, frame: u32, carried: Carried) -> Result<(), AllocError>
    ensures { OnOk result (found.new.items ≡ found.old.items ++ leads_of frame carried) }
{
    add_lead(found, frame, carried.inner)?;
    add_lead(found, frame, carried.aps)?;
    add_lead(found, frame, carried.nwk)?;
    Ok(())
}

fn add_lead(found: &mut Vec<Lead>, frame: u32, key: Option<Key>) -> Result<(), AllocError>
    ensures { OnOk result (found.new.items ≡ found.old.items ++ lead_of frame key) }
{
    if let Some(key) = key {
        found.push(Lead { frame, key })?;
    }
    Ok(())
}

impl Block {
    ghost use Rattle.std.specs.Prelude.{◌≡◌, ◌++◌, IfOk};
    ghost use Rattle.zb_inspect.specs.Pieces.{HasRoom, lines_of as kept_lines, seen_text};

    /// Appends the lines of the frames to a page. If the page is empty, kept lines become the page.
    ///
    /// The numbers of the frames must be below 2^32.
    ///
    /// # Errors
    /// `AllocError`, if memory runs out.
    pub fn print(self, page: Vec<u8>) -> Result<Vec<u8>, AllocError>
        requires { HasRoom self.first self.count self.seen }
        ensures { IfOk result (λ printed. printed.items ≡ page.items ++ seen_text self.first self.count self.seen) }
    {
        let Block { first, count, seen } = self;
        let mut page = page;
        match seen {
            Seen::Nothing => {}
            Seen::Unopened => put_unopened(&mut page, first, count)?,
            Seen::Lines(lines) => put_behind(&mut page, lines)?,
            Seen::Whole(all_shown) => put_frames(&mut page, first, all_shown.as_slice())?,
        }
        Ok(page)
    }

    /// Returns the lines of the frames, if they are kept.
    pub(crate) fn lines(&self) -> &[u8]
        ensures { result.now ≡ kept_lines self.now.seen }
    {
        match &self.seen {
            Seen::Nothing => &[],
            Seen::Unopened => &[],
            Seen::Lines(lines) => lines.as_slice(),
            Seen::Whole(_) => &[],
        }
    }
}

/// Appends lines to a page. If the page is empty, they become the page.
fn put_behind(page: &mut Vec<u8>, lines: Vec<u8>) -> Result<(), AllocError>
    ensures { OnOk result (page.new.items ≡ page.old.items ++ lines.items) }
{
    if page.is_empty() {
        *page = lines;
        return Ok(());
    }
    page.extend_from_slice(lines.as_slice())?;
    Ok(())
}
