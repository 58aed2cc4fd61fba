//! The capture that is being read: what the lines so far give.
ghost use Rattle.std.specs.Prelude.{◌≡◌};
ghost use Rattle.zb_capture.specs.Grammar.{is_skipped};

use crate::addresses::Addresses;
use crate::capture::Capture;
use crate::fault::CaptureCause;
use crate::fields::{addr, code, frame, key};
use crate::frames::Frames;
use std::alloc::Global;
use zb_base::{Key, List, MOST_FRAMES, MOST_KEYS, NoMemory, OrMemory};
use zb_text::words::Words;

/// The keys, addresses and frames of the lines so far.
#[derive(Drop)]
pub(crate) struct Draft {
    /// The keys, with those of install codes.
    pub keys: Vec<Key>,
    /// The addresses, of which no two have one short address.
    pub addrs: Addresses,
    /// The frames, in their order.
    pub frames: Frames,
}

impl Draft {
    ghost use Rattle.std.specs.Prelude.{◌≡◌, ◌∷◌, Some, IfOk};
    ghost use Rattle.std.specs.Bool.{OnTrue};
    ghost use Rattle.zb_capture.specs.Drafts.{capture_of, Steps};
    ghost use Rattle.zb_capture.specs.Grammar.{IsCapture, empty, key_in, code_in, addr_in, frame_in, with_key, with_code, with_addr, with_frame, with_words, with_line};
    ghost use Rattle.zb_capture.specs.Pieces.{both, Fit};
    ghost use Rattle.zb_text.specs.Words.{left};

    /// Makes a draft of no lines.
    pub fn new(alloc: Global) -> Draft
        ensures { capture_of result ≡ empty }
    {
        Draft {
            keys: Vec::new(alloc),
            addrs: Addresses::new(alloc),
            frames: Frames::new(alloc),
        }
    }

    /// Makes a draft of no lines, with room for the frames in a text of `text` bytes.
    ///
    /// # Errors
    ///
    /// `NoMemory`, if memory runs out.
    pub fn with_room(alloc: Global, text: usize) -> Result<Draft, NoMemory>
        ensures { IfOk result (λ draft. capture_of draft ≡ empty) }
    {
        Ok(Draft {
            keys: Vec::new(alloc),
            addrs: Addresses::new(alloc),
            frames: Frames::with_room(alloc, text)?,
        })
    }

    /// Returns the capture of all lines.
    pub fn into_capture(self) -> Capture
        ensures { result ≡ capture_of self }
    {
        let Draft {
            keys,
            addrs,
            frames,
        } = self;
        Capture {
            keys: List::from_vec(keys),
            addrs: addrs.into_list(),
            frames,
        }
    }

    /// Returns whether the results of other lines fit after these.
    pub fn fits(&self, more: &Draft) -> bool
        requires own { IsCapture (capture_of self.now) }
        requires other { IsCapture (capture_of more.now) }
        ensures { OnTrue result (Fit (capture_of self.now) (capture_of more.now)) }
    {
        self.has_room_for(more) && self.addrs.are_apart(&more.addrs)
    }

    /// Returns whether both together keep the limits of a capture.
    fn has_room_for(&self, more: &Draft) -> bool
        requires own { IsCapture (capture_of self.now) }
        requires other { IsCapture (capture_of more.now) }
        ensures { OnTrue result (IsCapture (both (capture_of self.now) (capture_of more.now))) }
    {
        more.keys.len() <= MOST_KEYS - self.keys.len()
            && more.frames.len() <= MOST_FRAMES - self.frames.len()
    }

    /// Appends the results of other lines.
    ///
    /// # Errors
    ///
    /// `NoMemory`, if memory runs out.
    pub fn with(self, more: Draft) -> Result<Draft, NoMemory>
        requires { Fit (capture_of self) (capture_of more) }
        ensures { IfOk result (λ draft. capture_of draft ≡ both (capture_of self) (capture_of more)) }
    {
        let mut all = self;
        let Draft {
            mut keys,
            addrs,
            frames,
        } = more;
        all.keys.append(&mut keys)?;
        all.addrs.add_all(addrs)?;
        all.frames.append(frames)?;
        Ok(all)
    }

    /// Reads one line.
    ///
    /// # Errors
    ///
    /// The first cause for which it isn't a line of a capture here; or `NoMemory`.
    #[tactic(auto, unfolding(crate::specs::Grammar::with_line))]
    pub fn take_line(&mut self, line: &[u8]) -> Result<(), OrMemory<CaptureCause>>
        requires { IsCapture (capture_of self.old) }
        ensures exact { Steps result (capture_of self.new) (with_line (capture_of self.old) line.now) }
        ensures valid { IsCapture (capture_of self.new) }
    {
        if skips(line) {
            return Ok(());
        }
        let mut words = Words::new(line);
        let Some(kind) = words.word() else {
            return Err(OrMemory::Fault(CaptureCause::Syntax));
        };
        self.take_words(kind, &mut words)
    }

    fn take_words(
        &mut self,
        kind: &[u8],
        words: &mut Words<'_>,
    ) -> Result<(), OrMemory<CaptureCause>>
        requires { IsCapture (capture_of self.old) }
        ensures exact { Steps result (capture_of self.new)
            (with_words (capture_of self.old) (kind.now ∷ left words.old)) }
        ensures valid { IsCapture (capture_of self.new) }
    {
        if kind == b"frame".as_slice() {
            self.take_frame(words)
        } else if kind == b"key".as_slice() {
            self.take_key(words)
        } else if kind == b"code".as_slice() {
            self.take_code(words)
        } else if kind == b"addr".as_slice() {
            self.take_addr(words)
        } else {
            Err(OrMemory::Fault(CaptureCause::Syntax))
        }
    }

    fn take_key(&mut self, words: &mut Words<'_>) -> Result<(), OrMemory<CaptureCause>>
        requires { IsCapture (capture_of self.old) }
        ensures exact { Steps result (capture_of self.new) (with_key (capture_of self.old) (key_in (left words.old))) }
        ensures valid { IsCapture (capture_of self.new) }
    {
        let Some(key) = key(words) else {
            return Err(OrMemory::Fault(CaptureCause::Syntax));
        };
        self.add_key(key)
    }

    fn take_code(&mut self, words: &mut Words<'_>) -> Result<(), OrMemory<CaptureCause>>
        requires { IsCapture (capture_of self.old) }
        ensures exact { Steps result (capture_of self.new)
            (with_code (capture_of self.old) (code_in (left words.old))) }
        ensures valid { IsCapture (capture_of self.new) }
    {
        let Some(judged) = code(words) else {
            return Err(OrMemory::Fault(CaptureCause::Syntax));
        };
        let Some(key) = judged else {
            return Err(OrMemory::Fault(CaptureCause::BadCode));
        };
        self.add_key(key)
    }

    /// Adds a given key. At most 256 are allowed.
    fn add_key(&mut self, key: Key) -> Result<(), OrMemory<CaptureCause>>
        requires { IsCapture (capture_of self.old) }
        ensures exact { Steps result (capture_of self.new) (with_key (capture_of self.old) (Some key)) }
        ensures valid { IsCapture (capture_of self.new) }
    {
        if self.keys.len() >= MOST_KEYS {
            return Err(OrMemory::Fault(CaptureCause::TooMany));
        }
        self.keys.push(key)?;
        Ok(())
    }

    /// Adds an address that no earlier line has.
    fn take_addr(&mut self, words: &mut Words<'_>) -> Result<(), OrMemory<CaptureCause>>
        requires { IsCapture (capture_of self.old) }
        ensures exact { Steps result (capture_of self.new)
            (with_addr (capture_of self.old) (addr_in (left words.old))) }
        ensures valid { IsCapture (capture_of self.new) }
    {
        let Some(addr) = addr(words) else {
            return Err(OrMemory::Fault(CaptureCause::Syntax));
        };
        if !self.addrs.add(addr)? {
            return Err(OrMemory::Fault(CaptureCause::AddressTaken));
        }
        Ok(())
    }

    /// Adds a frame. At most 100,000 are allowed.
    fn take_frame(&mut self, words: &mut Words<'_>) -> Result<(), OrMemory<CaptureCause>>
        requires { IsCapture (capture_of self.old) }
        ensures exact { Steps result (capture_of self.new)
            (with_frame (capture_of self.old) (frame_in (left words.old))) }
        ensures valid { IsCapture (capture_of self.new) }
    {
        let Some(frame) = frame(words) else {
            return Err(OrMemory::Fault(CaptureCause::Syntax));
        };
        if self.frames.len() >= MOST_FRAMES {
            return Err(OrMemory::Fault(CaptureCause::TooMany));
        }
        self.frames.push(&frame)?;
        Ok(())
    }
}

fn skips(line: &[u8]) -> bool
    ensures { result ≡ is_skipped line.now }
{
    match line {
        [] => true,
        [first, ..] => *first == b'#',
    }
}
