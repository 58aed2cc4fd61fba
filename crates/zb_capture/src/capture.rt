//! A capture.
ghost use Rattle.std.specs.Prelude.{◌≡◌, ◌≤◌, [], length, IfOk};
ghost use Rattle.zb_capture.specs.Grammar.{IsCapture};
ghost use Rattle.zb_base.specs.Limits.{most_frames, most_keys};

use crate::frames::Frames;
use std::alloc::Global;
use zb_base::{Eui, Key, List, NoMemory, Short};

/// What is known about a network, and the frames that were heard in it.
///
/// It has at most 256 keys and 100,000 frames: this is `IsCapture` of `specs/Grammar.antt`.
#[derive(Debug, Drop)]
pub struct Capture {
    /// The given keys, with the link keys of install codes, in order. A key may be there twice.
    pub keys: List<Key>,
    /// The EUIs of short addresses.
    pub addrs: List<(Short, Eui)>,
    /// The frames, in the order in which they were heard.
    pub frames: Frames,
}

impl Capture {
    ghost use Rattle.std.specs.Prelude.{◌≡◌, ◌≤◌, [], length, IfOk};
    ghost use Rattle.zb_capture.specs.Grammar.{IsCapture};

    /// Makes the capture of some frames under some keys, without addresses.
    ///
    /// There must be at most 256 keys and 100,000 frames.
    ///
    /// # Errors
    ///
    /// `NoMemory`, if memory runs out.
    pub fn of(alloc: Global, keys: &[Key], frames: Frames) -> Result<Capture, NoMemory>
        requires keys { length keys.now ≤ most_keys }
        requires frames { length frames ≤ most_frames }
        ensures value { IfOk result (λ c. c ≡ record { keys = keys.now; addrs = []; frames = frames }) }
        ensures valid { IfOk result (λ c. IsCapture c) }
    {
        Ok(Capture {
            keys: List::from_vec(Vec::from_slice(alloc, keys)?),
            addrs: List::from_vec(Vec::new(alloc)),
            frames,
        })
    }
}
