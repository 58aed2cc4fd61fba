//! The frames of a capture.
ghost use Rattle.std.specs.Prelude.{◌≡◌, ◌<◌, ◌++◌, length, take, drop};
ghost use Rattle.zb_capture.specs.Runs.{all_runs};
ghost use Rattle.zb_base.specs.Limits.{most_frames};

use crate::run::{FrameRun, Run};
use std::alloc::Global;
use std::marker::Model;
use std::mem;
use zb_base::{Frame, MOST_FRAMES, NoMemory};

/// Keeps the frames of a capture, in the order in which they were heard.
///
/// They stay in the runs in which they were read, so no frame is copied when runs are joined. A contract sees them as
/// one list.
#[derive(Debug, Drop)]
pub struct Frames {
    runs: Vec<Run>,
    /// The last run, to which frames are added.
    last: Run,
    /// How many frames there are in all runs but the last.
    count: usize,
}

impl Model for Frames {
    ghost use Rattle.std.specs.Prelude.{◌≡◌, ◌++◌, ℕ, List, length};
    ghost use Rattle.arrayvec.specs.ArrayVec.{ArrayVec};
    ghost use Rattle.zb_capture.specs.Runs.{all_runs};

    ghost Value = { List (ArrayVec ℕ) };

    ghost view = { λ f. all_runs f.runs.items ++ f.last };

    ghost invariant = { λ f. f.count ≡ length (all_runs f.runs.items) };
}

impl Frames {
    ghost use Rattle.std.specs.Prelude.{◌≡◌, ◌+◌, ◌<◌, ◌≤◌, ◌++◌, [], ◌∷◌, length, take, drop, IfOk, OnOk, OnErr};

    /// Makes a list of no frames.
    pub fn new(alloc: Global) -> Frames
        ensures { result ≡ [] }
    {
        Frames {
            runs: Vec::new(alloc),
            last: Run::new(alloc),
            count: 0,
        }
    }

    /// Makes a list of no frames, with room for those of a text of `text` bytes.
    pub(crate) fn with_room(alloc: Global, text: usize) -> Result<Frames, NoMemory>
        ensures { IfOk result (λ f. f ≡ []) }
    {
        // The line of a frame has two digits for each byte, and 7 other characters.
        Ok(Frames {
            runs: Vec::new(alloc),
            last: Run::with_room(alloc, text / 2, (text / 9 + 1).min(MOST_FRAMES))?,
            count: 0,
        })
    }

    /// Returns how many frames there are.
    ///
    /// There must be at most 100,000 frames.
    pub fn len(&self) -> usize
        requires { length self.now ≤ most_frames }
        ensures { result ≡ length self.now }
    {
        self.count + self.last.len()
    }

    /// Returns the frames from a place on, to the end of the run that has that place. Places are counted from 0.
    ///
    /// `place` must be that of a frame.
    pub fn from(&self, place: usize) -> FrameRun<'_>
        requires { place < length self.now }
        ensures some { 0 < length result }
        ensures part { result ≡ take (length result) (drop place self.now) }
    {
        run_from(self.runs.as_slice(), &self.last, place)
    }

    /// Appends a frame. It changes nothing if memory runs out.
    ///
    /// There must be fewer than 100,000 frames.
    ///
    /// # Errors
    ///
    /// `NoMemory`, if memory runs out.
    pub fn push(&mut self, frame: &Frame) -> Result<(), NoMemory>
        requires { length self.old < most_frames }
        ensures added { OnOk result (self.new ≡ self.old ++ frame.now ∷ []) }
        ensures kept { OnErr result (self.new ≡ self.old) }
    {
        self.last.push(frame)?;
        Ok(())
    }

    /// Appends further frames.
    ///
    /// There must be at most 100,000 frames in all.
    ///
    /// # Errors
    ///
    /// `NoMemory`, if memory runs out.
    pub fn append(&mut self, more: Frames) -> Result<(), NoMemory>
        requires { length self.old + length more ≤ most_frames }
        ensures { OnOk result (self.new ≡ self.old ++ more) }
    {
        let Frames {
            mut runs,
            last,
            count,
        } = more;
        let before = mem::replace(&mut self.last, last);
        let ended = before.len();
        self.runs.push(before)?;
        self.count += ended;
        self.runs.append(&mut runs)?;
        self.count += count;
        Ok(())
    }
}

/// Returns the frames from a place on, to the end of the run that has that place. `last` comes after `runs`.
fn run_from<'a>(runs: &'a [Run], last: &'a Run, place: usize) -> FrameRun<'a>
    requires { place < length (all_runs runs.now ++ last.now) }
    ensures some { 0 < length result }
    ensures part { result ≡ take (length result) (drop place (all_runs runs.now ++ last.now)) }
{
    let mut left = place;
    for run in runs {
        if left < run.len() {
            return run.from(left);
        }
        left -= run.len();
    }
    last.from(left)
}
