//! The bytes of an input as they are read, and their lines.
ghost use Rattle.std.specs.Prelude.{◌≡◌};
ghost use Rattle.zb_base.specs.Limits.{first_too_long, longest_input};

use crate::capture::CaptureFault;
use crate::input::{InputFault, LONGEST, read_on};
use std::alloc::{AllocError, Global};
use zb_base::{OrMemory, Source};
use zb_capture::{CaptureError, CaptureReader, whole_lines};

/// The bytes that were read from an input.
#[derive(Drop)]
pub struct Incoming {
    /// How many there are.
    pub count: usize,
    /// The last of them, whose lines are not parsed yet.
    pub part: Vec<u8>,
}

/// Bytes that one job read from an input, split after their whole lines.
#[derive(Drop)]
pub struct Taken {
    /// What the whole lines give by themselves.
    pub alone: Result<CaptureReader, OrMemory<CaptureError>>,
    /// What comes after them.
    pub rest: Incoming,
}

impl Incoming {
    ghost use Rattle.std.specs.Prelude.{◌≡◌, ◌≢◌, ℕ, ◌+◌, ◌-◌, ◌≤◌, ◌++◌, List, [], length, IfOk, OnOk};
    ghost use Rattle.std.specs.Str.Lines.{lines};
    ghost use Rattle.zb_base.specs.Outside.{Unrisen};
    ghost use Rattle.zb_input.specs.Inputs.{AreLinesRead, IsFilled, IsJudged, IsTaken, TakesAtMost};

    /// Makes the state before any byte was read.
    pub fn new(alloc: Global) -> Incoming
        ensures { (result.count ≡ 0) × (result.part.items ≡ []) }
    {
        Incoming {
            count: 0,
            part: Vec::new(alloc),
        }
    }

    /// Reads until there are `size` more bytes, and returns whether there are.
    ///
    /// If not, the input is at its end.
    ///
    /// # Errors
    /// `Read` if the source fails, `TooLong` if there are more bytes than the longest input may have, or `NoMemory`.
    pub fn fill<R: Source>(&mut self, input: &mut R, size: usize) -> Result<bool, InputFault>
        requires count { self.old.count ≤ longest_input }
        requires size { 1 ≤ size }
        ensures filled { IsFilled result (R.rest input.old) (R.rest input.new) self.old self.new size
            (R.faults input.old) (R.faults input.new) }
        ensures few { TakesAtMost (R.rest input.old) (R.rest input.new) (first_too_long - self.old.count) }
    {
        let before = self.part.len();
        let limit = before + size.min(LONGEST as usize + 1 - self.count);
        read_on(input, &mut self.part, limit)?;
        let after = self.part.len();
        self.count += after - before;
        if self.count > LONGEST as usize {
            return Err(InputFault::TooLong);
        }
        Ok(after == limit)
    }

    /// Parses the whole lines of the bytes. What comes after them stays, because it may be the beginning of a line.
    ///
    /// # Errors
    /// The first fault of these lines, or `NoMemory`.
    pub fn read_whole_lines(
        &mut self,
        alloc: Global,
        reader: &mut CaptureReader,
    ) -> Result<(), OrMemory<CaptureError>>
        requires room { reader.old.lines + length self.old.part.items ≤ longest_input }
        ensures count { self.new.count ≡ self.old.count }
        ensures lines { AreLinesRead result reader.old reader.new self.old.part.items self.new.part.items }
        ensures room { OnOk result (reader.new.lines + length self.new.part.items
            ≤ reader.old.lines + length self.old.part.items) }
    {
        let end = whole_lines(self.part.as_slice());
        let (whole, more) = self.part.as_slice().split_at(end);
        reader.read_lines(whole)?;
        let more = Vec::from_slice(alloc, more)?;
        self.part.clear();
        self.part.extend_from_slice(more.as_slice())?;
        Ok(())
    }

    /// Splits off what comes after the whole lines, because it may be the beginning of a line.
    ///
    /// # Errors
    /// `AllocError`, if memory runs out.
    pub fn split(&mut self) -> Result<Incoming, AllocError>
        ensures count { IfOk result (λ rest. rest.count ≡ self.old.count) }
        ensures parts { IfOk result (λ rest. self.old.part.items ≡ self.new.part.items ++ rest.part.items) }
        ensures lines { IfOk result (λ rest. (more : List ℕ) → lines (self.old.part.items ++ more)
            ≡ lines self.new.part.items ++ lines (rest.part.items ++ more)) }
    {
        let end = whole_lines(self.part.as_slice());
        Ok(Incoming {
            count: self.count,
            part: self.part.split_off(end)?,
        })
    }

    /// Replaces the bytes by those that are left of others.
    ///
    /// So the memory is used again.
    ///
    /// # Errors
    /// `AllocError`, if memory runs out.
    pub fn go_on_from(&mut self, rest: &Incoming) -> Result<(), AllocError>
        ensures count { OnOk result (self.new.count ≡ rest.now.count) }
        ensures part { OnOk result (self.new.part.items ≡ rest.now.part.items) }
    {
        self.part.clear();
        self.part.extend_from_slice(rest.part.as_slice())?;
        self.count = rest.count;
        Ok(())
    }

    /// Reads as `fill` does, splits off what comes after the whole lines, and parses these by themselves.
    ///
    /// # Errors
    /// Those of `fill`.
    pub fn take<R: Source>(
        &mut self,
        alloc: Global,
        input: &mut R,
        size: usize,
    ) -> Result<Taken, InputFault>
        requires count { self.old.count ≤ longest_input }
        requires part { length self.old.part.items ≤ self.old.count }
        requires size { 1 ≤ size }
        ensures { IsTaken result (R.rest input.old) (R.rest input.new) self.old self.new (R.faults input.old)
            (R.faults input.new) }
    {
        self.fill(input, size)?;
        let rest = self.split()?;
        Ok(Taken {
            alone: CaptureReader::alone(alloc, self.part.as_slice()),
            rest,
        })
    }

    /// Returns why the input isn't a capture. Its lines have a fault, which is only reported after the input's end.
    pub fn refuse<R: Source>(
        &mut self,
        input: &mut R,
        fault: OrMemory<CaptureError>,
    ) -> CaptureFault
        requires { self.old.count ≤ longest_input }
        ensures judged { IsJudged result fault (R.rest input.old) (R.rest input.new) self.old.count
            (R.faults input.old) (R.faults input.new) }
        ensures unrisen { result ≢ CaptureFault.Input InputFault.Read
            → Unrisen (R.faults input.old) (R.faults input.new) }
        ensures few { TakesAtMost (R.rest input.old) (R.rest input.new) (first_too_long - self.old.count) }
    {
        let OrMemory::Fault(fault) = fault else {
            return CaptureFault::Input(InputFault::NoMemory);
        };
        self.part.clear();
        match self.fill(input, LONGEST as usize + 1) {
            Ok(_) => CaptureFault::Text(fault),
            Err(fault) => CaptureFault::Input(fault),
        }
    }
}
