//! The frames on the air, looked up by number.
ghost use Rattle.std.specs.Prelude.{◌^◌, ◌≡◌, ◌≤◌, ◌<◌, ◌-◌, ◌∷◌, length, get_or, take, drop, slice_get};
ghost use Rattle.zb_player_scribe.specs.Frames.{AreEnds, frames_in};
ghost use Rattle.zb_trace_model.specs.AnswerLines.{frame_bytes};

use std::alloc::Global;
use std::marker::Model;
use zb_base::{Frame, NoMemory};
use zb_cursor::frame_from;

/// The frames that went on the air, one after the other.
///
/// A frame's number is its place from 1. A contract sees the air as the list of the frames' bytes.
#[derive(Drop)]
pub struct Air {
    bytes: Vec<u8>,
    // Where each frame ends.
    ends: Vec<usize>,
}

impl Model for Air {
    ghost use Rattle.std.specs.Prelude.{ℕ, List, length};
    ghost use Rattle.zb_player_scribe.specs.Frames.{AreEnds, frames_in};

    ghost Value = { List (List ℕ) };

    ghost view = { λ air. frames_in air.bytes.items 0 air.ends.items };

    ghost invariant = { λ air. AreEnds (length air.bytes.items) 0 air.ends.items };
}

impl Air {
    ghost use Rattle.std.specs.Prelude.{◌≡◌, ◌<◌, ◌-◌, ◌++◌, [], ◌∷◌, length, None, nat_eq, slice_get, if◌then◌else◌, OnOk, OnErr};
    ghost use Rattle.zb_trace_model.specs.AnswerLines.{frame_bytes};

    /// Makes the air before any frame.
    pub fn new(alloc: Global) -> Air
        ensures { result ≡ [] }
    {
        Air {
            bytes: Vec::new(alloc),
            ends: Vec::new(alloc),
        }
    }

    /// Returns how many frames went on the air.
    #[tactic(auto, using(crate::proofs::FramesIn::frame_count))]
    pub fn count(&self) -> u32
        requires { length self.now < 2 ^ 32 }
        ensures { result ≡ length self.now }
    {
        self.ends.len() as u32
    }

    /// Puts a frame on the air.
    ///
    /// # Errors
    /// `NoMemory`; the air then stays as it was.
    pub fn push(&mut self, frame: &Frame) -> Result<(), NoMemory>
        ensures added { OnOk result (self.new ≡ self.old ++ frame.now.items ∷ []) }
        ensures kept { OnErr result (self.new ≡ self.old) }
    {
        self.ends.reserve(1)?;
        let end = self.bytes.len() + frame.len();
        self.bytes.extend_from_slice(frame.as_slice())?;
        self.ends.push(end)?;
        Ok(())
    }

    /// Returns the frame of a number, which counts from 1, where there is one.
    pub fn frame(&self, number: u32) -> Option<Frame>
        ensures { frame_bytes result ≡ (if nat_eq number 0 then None else slice_get self.now (number - 1)) }
    {
        if number == 0 {
            return None;
        }
        frame_at(
            self.bytes.as_slice(),
            self.ends.as_slice(),
            number as usize - 1,
        )
    }
}

// Returns the frame at a place, where there is one, of frames that stand one after the other.
#[tactic(auto, using(crate::proofs::FramesIn::frame_at_a_place))]
fn frame_at(bytes: &[u8], ends: &[usize], place: usize) -> Option<Frame>
    requires { AreEnds (length bytes.now) 0 ends.now }
    ensures { frame_bytes result ≡ slice_get (frames_in bytes.now 0 ends.now) place }
{
    if place < ends.len() {
        let start = start_of(ends, place);
        Some(frame_from(part(bytes, start, ends[place])))
    } else {
        None
    }
}

// Returns where the frame at a place begins.
fn start_of(ends: &[usize], place: usize) -> usize
    requires { place < length ends.now }
    ensures { result ≡ get_or (0 ∷ ends.now) place 0 }
{
    if place == 0 { 0 } else { ends[place - 1] }
}

// Returns the bytes from one place to another.
fn part(bytes: &[u8], start: usize, end: usize) -> &[u8]
    requires { (start ≤ end) × (end ≤ length bytes.now) }
    ensures { result.now ≡ take (end - start) (drop start bytes.now) }
{
    &bytes[start..end]
}
