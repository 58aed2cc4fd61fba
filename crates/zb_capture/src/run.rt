//! Frames that were read one after the other, with their bytes in one text.
ghost use Rattle.std.specs.Prelude.{◌≡◌, ℕ, ◌-◌, ◌<◌, ◌≤◌, ◌∷◌, length, get_or, take, drop};
ghost use Rattle.arrayvec.specs.ArrayVec.{ArrayVec};
ghost use Rattle.zb_capture.specs.Runs.{AreEnds, frames_in};
ghost use Rattle.zb_base.specs.Limits.{most_frames};

use std::alloc::Global;
use std::marker::Model;
use zb_base::{Frame, NoMemory};
use zb_cursor::frame_from;

/// Keeps frames that follow each other: their bytes in one text, and where each frame ends.
///
/// So a frame takes hardly more memory than it has bytes. A contract sees them as a list of frames.
#[derive(Debug, Drop)]
pub(crate) struct Run {
    bytes: Vec<u8>,
    ends: Vec<u32>,
}

impl Model for Run {
    ghost use Rattle.std.specs.Prelude.{ℕ, List, length};
    ghost use Rattle.arrayvec.specs.ArrayVec.{ArrayVec};
    ghost use Rattle.zb_capture.specs.Runs.{AreEnds, frames_in};

    ghost Value = { List (ArrayVec ℕ) };

    ghost view = { λ r. frames_in r.bytes.items 0 r.ends.items };

    ghost invariant = { λ r. AreEnds (length r.bytes.items) 0 r.ends.items };
}

impl Run {
    ghost use Rattle.std.specs.Prelude.{◌≡◌, ◌<◌, ◌++◌, [], ◌∷◌, length, drop, IfOk, OnOk, OnErr};

    /// Makes a list of no frames.
    pub fn new(alloc: Global) -> Run
        ensures { result ≡ [] }
    {
        Run {
            bytes: Vec::new(alloc),
            ends: Vec::new(alloc),
        }
    }

    /// Makes a list of no frames, with room for `frames` frames of `bytes` bytes in all.
    ///
    /// # Errors
    ///
    /// `NoMemory`, if memory runs out.
    pub fn with_room(alloc: Global, bytes: usize, frames: usize) -> Result<Run, NoMemory>
        ensures { IfOk result (λ run. run ≡ []) }
    {
        Ok(Run {
            bytes: Vec::with_capacity(alloc, bytes)?,
            ends: Vec::with_capacity(alloc, frames)?,
        })
    }

    /// Returns how many frames there are.
    #[tactic(auto, using(crate::proofs::RunLaws::frame_count))]
    pub fn len(&self) -> usize
        ensures { result ≡ length self.now }
    {
        self.ends.len()
    }

    /// Appends a frame.
    ///
    /// # Errors
    ///
    /// `NoMemory`, if memory runs out.
    pub fn push(&mut self, frame: &Frame) -> Result<(), NoMemory>
        requires { length self.old < most_frames }
        ensures added { OnOk result (self.new ≡ self.old ++ frame.now ∷ []) }
        ensures kept { OnErr result (self.new ≡ self.old) }
    {
        self.ends.reserve(1)?;
        let end = self.bytes.len() + frame.len();
        self.bytes.extend_from_slice(frame.as_slice())?;
        self.ends.push(end as u32)?;
        Ok(())
    }

    /// Returns the frames from a place on, counted from 0.
    #[tactic(auto, using(crate::proofs::RunLaws::frame_count))]
    pub fn from(&self, place: usize) -> FrameRun<'_>
        requires { place < length self.now }
        ensures { result ≡ drop place self.now }
    {
        run_from(self.bytes.as_slice(), self.ends.as_slice(), place)
    }
}

#[tactic(auto, using(crate::proofs::RunLaws::ends_from, crate::proofs::RunLaws::frames_from))]
fn run_from<'a>(bytes: &'a [u8], ends: &'a [u32], place: usize) -> FrameRun<'a>
    requires ends { AreEnds (length bytes.now) 0 ends.now }
    requires place { place < length ends.now }
    ensures { result ≡ drop place (frames_in bytes.now 0 ends.now) }
{
    let start = start_of(0, ends, place);
    let (_, ends) = ends.split_at(place);
    FrameRun { bytes, start, ends }
}

/// Returns where the frame at a place starts. The first frame starts at `start`.
fn start_of(start: u32, ends: &[u32], place: usize) -> u32
    requires { place < length ends.now }
    ensures { result ≡ get_or (start ∷ ends.now) place 0 }
{
    if place == 0 { start } else { ends[place - 1] }
}

/// Shows frames of a capture that follow each other.
///
/// A contract sees them as a list of frames.
#[derive(Drop)]
pub struct FrameRun<'a> {
    bytes: &'a [u8],
    /// Where the first of them starts.
    start: u32,
    /// Where each of them ends.
    ends: &'a [u32],
}

impl<'a> Model for FrameRun<'a> {
    ghost use Rattle.std.specs.Prelude.{ℕ, List, length};
    ghost use Rattle.arrayvec.specs.ArrayVec.{ArrayVec};
    ghost use Rattle.zb_capture.specs.Runs.{AreEnds, frames_in};

    ghost Value = { List (ArrayVec ℕ) };

    ghost view = { λ r. frames_in r.bytes.now r.start r.ends.now };

    ghost invariant = { λ r. AreEnds (length r.bytes.now) r.start r.ends.now };
}

impl<'a> FrameRun<'a> {
    ghost use Rattle.std.specs.Prelude.{◌≡◌, ◌<◌, ℕ, length, get_or};
    ghost use Rattle.arrayvec.specs.ArrayVec.{ArrayVec};

    /// Returns how many frames there are.
    #[tactic(auto, using(crate::proofs::RunLaws::frame_count))]
    pub fn len(&self) -> usize
        ensures { result ≡ length self.now }
    {
        self.ends.len()
    }

    /// Returns the frame at a place, counted from 0.
    ///
    /// `place` must be that of a frame.
    #[tactic(auto, using(crate::proofs::RunLaws::frame_count))]
    pub fn at(&self, place: usize) -> Frame
        requires { place < length self.now }
        ensures { (other : ArrayVec ℕ) → result ≡ get_or self.now place other }
    {
        frame_at(self.bytes, self.start, self.ends, place)
    }
}

#[tactic(auto, using(crate::proofs::RunLaws::is_at, crate::proofs::RunLaws::frame_is))]
fn frame_at(bytes: &[u8], start: u32, ends: &[u32], place: usize) -> Frame
    requires ends { AreEnds (length bytes.now) start ends.now }
    requires place { place < length ends.now }
    ensures { (other : ArrayVec ℕ) → result ≡ get_or (frames_in bytes.now start ends.now) place other }
{
    let from = start_of(start, ends, place) as usize;
    frame_from(part(bytes, from, ends[place] as usize))
}

/// Returns the bytes from one place to another.
fn part(bytes: &[u8], start: usize, end: usize) -> &[u8]
    requires { (start ≤ end) × (end ≤ length bytes.now) }
    ensures { result.now ≡ take (end - start) (drop start bytes.now) }
{
    &bytes[start..end]
}
