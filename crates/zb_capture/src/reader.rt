//! Reads a capture whose text comes in parts.
ghost use Rattle.std.specs.Prelude.{◌≡◌, ◌+◌, ◌<◌, ◌≤◌, ◌^◌, ◌-◌, length, IfOk, OnOk};
ghost use Rattle.zb_capture.specs.Drafts.{numbered};

use crate::capture::Capture;
use crate::draft::Draft;
use crate::fault::{CaptureCause, CaptureError};
use crate::pieces::{Found, read_pieces};
use std::alloc::Global;
use std::marker::Model;
use std::mem;
use std::thread::Threads;
use zb_base::OrMemory;
use zb_text::lines::next_line;

/// Reads a capture, one part of its text after the other.
///
/// A contract sees it as the results of the lines so far, and their number.
#[derive(Drop)]
pub struct CaptureReader {
    lines: u32,
    draft: Draft,
}

impl Model for CaptureReader {
    ghost use Rattle.zb_capture.specs.Drafts.{capture_of};
    ghost use Rattle.zb_capture.specs.Grammar.{IsCapture};
    ghost use Rattle.zb_capture.specs.Readings.{Reading};

    ghost Value = { Reading };

    ghost view = { λ r. record { lines = r.lines; capture = capture_of r.draft } };

    ghost invariant = { λ r. IsCapture (capture_of r.draft) };
}

impl CaptureReader {
    ghost use Rattle.std.specs.Prelude.{◌≡◌, ◌+◌, ◌<◌, ◌≤◌, ◌^◌, ◌-◌, length, IfOk, OnOk};
    ghost use Rattle.zb_capture.specs.Grammar.{IsCapture};
    ghost use Rattle.zb_capture.specs.Readings.{AreRead, IsAlone, IsReadAlone, no_lines};

    /// Makes a reader that has read no lines.
    pub fn new(alloc: Global) -> CaptureReader
        ensures { result ≡ no_lines }
    {
        CaptureReader {
            lines: 0,
            draft: Draft::new(alloc),
        }
    }

    /// Reads the lines of a text by themselves.
    ///
    /// The text must have fewer than 2^32 - 1 bytes, because a line number has 32 bits.
    ///
    /// # Errors
    ///
    /// The first bad line, with its first cause; or `NoMemory`.
    pub fn alone(alloc: Global, text: &[u8]) -> Result<CaptureReader, OrMemory<CaptureError>>
        requires { length text.now < 2 ^ 32 - 1 }
        ensures { IsReadAlone result text.now }
    {
        let mut reader = CaptureReader {
            lines: 0,
            draft: Draft::with_room(alloc, text.len())?,
        };
        reader.read_lines(text)?;
        Ok(reader)
    }

    /// Reads the lines of a text with `jobs` jobs, after the earlier lines.
    ///
    /// There must be at least one job, and all line numbers must fit into 32 bits.
    ///
    /// # Errors
    ///
    /// The first bad line, with its first cause; or `NoMemory`. The reader must not be used after that.
    pub fn read<T: Threads + Sync>(
        &mut self,
        rt: &T,
        alloc: Global,
        jobs: u32,
        text: &[u8],
    ) -> Result<(), OrMemory<CaptureError>>
        requires jobs { 1 ≤ jobs }
        requires room { self.old.lines + length text.now < 2 ^ 32 - 1 }
        ensures exact { AreRead result self.old self.new text.now }
        ensures count { OnOk result (self.new.lines ≤ self.old.lines + length text.now) }
    {
        if jobs == 1 {
            self.read_lines(text)?;
            return Ok(());
        }
        for piece in read_pieces(rt, alloc, jobs, text)? {
            let Found { text, read } = piece;
            self.add(alloc, text, read)?;
        }
        Ok(())
    }

    /// Reads the lines of a text, after the earlier lines.
    ///
    /// All line numbers must fit into 32 bits.
    ///
    /// # Errors
    ///
    /// The first bad line, with its first cause; or `NoMemory`. The reader must not be used after that.
    pub fn read_lines(&mut self, text: &[u8]) -> Result<(), OrMemory<CaptureError>>
        requires room { self.old.lines + length text.now < 2 ^ 32 - 1 }
        ensures exact { AreRead result self.old self.new text.now }
        ensures count { OnOk result (self.new.lines ≤ self.old.lines + length text.now) }
    {
        let mut rest = text;
        while let Some((line, more)) = next_line(rest) {
            self.lines += 1;
            if let Err(fault) = self.draft.take_line(line) {
                return Err(at_line(self.lines, fault));
            }
            rest = more;
        }
        Ok(())
    }

    /// Adds the lines of a text after the earlier lines. `alone` is their result by themselves.
    ///
    /// If that is a fault, or doesn't fit after the earlier lines, the lines are read one by one. `alone` must be of
    /// this text, and all line numbers must fit into 32 bits.
    ///
    /// # Errors
    ///
    /// The first bad line, with its first cause; or `NoMemory`. The reader must not be used after that.
    pub fn add(
        &mut self,
        alloc: Global,
        text: &[u8],
        alone: Result<CaptureReader, OrMemory<CaptureError>>,
    ) -> Result<(), OrMemory<CaptureError>>
        requires room { self.old.lines + length text.now < 2 ^ 32 - 1 }
        requires alone { IsReadAlone alone text.now }
        ensures exact { AreRead result self.old self.new text.now }
        ensures count { OnOk result (self.new.lines ≤ self.old.lines + length text.now) }
    {
        match alone {
            Ok(more) => self.take_lines(alloc, text, more),
            Err(_) => self.read_lines(text),
        }
    }

    /// Adds the lines of a text. `more` is their result by themselves.
    ///
    /// If that doesn't fit after the earlier lines, the lines are read one by one.
    fn take_lines(
        &mut self,
        alloc: Global,
        text: &[u8],
        more: CaptureReader,
    ) -> Result<(), OrMemory<CaptureError>>
        requires room { self.old.lines + length text.now < 2 ^ 32 - 1 }
        requires alone { IsAlone text.now more }
        ensures exact { AreRead result self.old self.new text.now }
        ensures count { OnOk result (self.new.lines ≤ self.old.lines + length text.now) }
    {
        if !self.draft.fits(&more.draft) {
            self.read_lines(text)?;
            return Ok(());
        }
        self.lines += more.lines;
        let draft = mem::replace(&mut self.draft, Draft::new(alloc));
        self.draft = draft.with(more.draft)?;
        Ok(())
    }

    /// Returns the capture of all lines.
    pub fn into_capture(self) -> Capture
        ensures exact { result ≡ self.capture }
        ensures valid { IsCapture result }
    {
        self.draft.into_capture()
    }
}

/// Adds the number of its line to a fault.
fn at_line(line: u32, fault: OrMemory<CaptureCause>) -> OrMemory<CaptureError>
    ensures { result ≡ numbered line fault }
{
    match fault {
        OrMemory::Fault(cause) => OrMemory::Fault(CaptureError { line, cause }),
        OrMemory::NoMemory => OrMemory::NoMemory,
    }
}
