//! Where the program's output goes: the trait `Sink`, a sink in memory, one that drops what it takes, and an adapter
//! over any writer.
ghost use Rattle.std.specs.Prelude.{◌≡◌, ◌+◌, ℕ, List, [], Option, None, Some, length, IfOk, OnOk, OnErr, is_err, nat_lt, ◌||◌, if◌then◌else◌};
ghost use Rattle.std.specs.Io.KnownBytes.{Appends};
ghost use Rattle.zb_base.specs.Outside.{AppendsFront, HasCause, has_number as has, risen};

use crate::numbers::has_number;
use crate::{Failed, NoMemory};
use std::alloc::Global;
use std::io::{ErrorKind, Write};
use std::marker::Model;

/// An output that is written from its beginning on.
///
/// Its meanings are the bytes that it took, if it shows them, and a count of faults, which never falls.
pub trait Sink {
    // The bytes that it took so far, if the sink shows them.
    ghost taken: { Self → Option (List ℕ) };

    // How many of its calls failed. The count of an adapter stops at 2^64 - 1.
    ghost faults: { Self → ℕ };

    /// Appends the whole piece.
    ///
    /// # Errors
    /// `Failed` only if the count of faults rose; then a prefix of the piece was appended.
    fn write(&mut self, piece: &[u8]) -> Result<(), Failed>
        ensures whole { OnOk result (Appends (taken self.old) (taken self.new) piece.now) }
        ensures front { OnErr result (AppendsFront (taken self.old) (taken self.new) piece.now) }
        ensures cause { HasCause (faults self.old) (faults self.new) result };
}

/// A sink in memory, some of whose calls fail.
#[derive(Debug, Drop)]
pub struct MemSink {
    bytes: Vec<u8>,
    room: u32,
    fails: Vec<u32>,
    calls: u64,
    faults: u64,
}

impl Model for MemSink {
    ghost use Rattle.std.specs.Prelude.{◌≤◌, vec_len, vec_capacity};
    ghost use Rattle.zb_base.specs.Outside.{Intake};

    ghost Value = { Intake };

    ghost view = { λ s. record {
      taken = s.bytes.items;
      room = s.room;
      fails = s.fails.items;
      calls = s.calls;
      faults = s.faults;
    } };

    ghost invariant = { λ s. (vec_len s.bytes ≤ s.room) × (s.room ≤ vec_capacity s.bytes) };
}

impl MemSink {
    /// Makes a sink with room for `room` bytes, taken now, some of whose calls are to fail.
    ///
    ///
    /// Those are the calls whose numbers are in `fails`, counted from 1.
    ///
    /// # Errors
    /// `NoMemory`.
    pub fn new(alloc: Global, room: u32, fails: &[u32]) -> Result<MemSink, NoMemory>
        ensures { IfOk result (λ s. s ≡ record { taken = []; room = room; fails = fails.now; calls = 0; faults = 0 }) }
    {
        Ok(MemSink {
            bytes: Vec::with_capacity(alloc, room as usize)?,
            room,
            fails: Vec::from_slice(alloc, fails)?,
            calls: 0,
            faults: 0,
        })
    }

    /// Returns the bytes that the sink took so far.
    pub fn taken(&self) -> &[u8]
        ensures { result.now ≡ self.now.taken }
    {
        self.bytes.as_slice()
    }
}

impl Sink for MemSink {
    ghost taken = { λ s. Some s.taken };

    ghost faults = { λ s. s.faults };

    fn write(&mut self, piece: &[u8]) -> Result<(), Failed>
        ensures whole { OnOk result (Appends (Some self.old.taken) (Some self.new.taken) piece.now) }
        ensures front { OnErr result (AppendsFront (Some self.old.taken) (Some self.new.taken) piece.now) }
        ensures cause { HasCause self.old.faults self.new.faults result }
        // It fails exactly at the listed calls and past its room.
        ensures listed { is_err result ≡
            (has self.old.fails (risen self.old.calls 1)
            || nat_lt self.old.room (length self.old.taken + length piece.now)) }
        ensures kept { OnErr result (self.new.taken ≡ self.old.taken) }
        // It counts each call once, and each failed one. Its room and the numbers of the calls that are to fail don't
        // change.
        ensures after { self.new ≡ record self.old {
          taken = self.new.taken;
          calls = risen self.old.calls 1;
          faults = (if is_err result then risen self.old.faults 1 else self.old.faults);
        } }
    {
        self.calls = self.calls.saturating_add(1);
        if has_number(self.fails.as_slice(), self.calls)
            || self.room as usize - self.bytes.len() < piece.len()
        {
            self.faults = self.faults.saturating_add(1);
            return Err(Failed);
        }
        self.bytes.extend_from_slice(piece).unwrap();
        Ok(())
    }
}

/// A sink that drops what it takes. It shows no content, and never fails.
#[derive(Clone, Copy, Debug, Default, PartialEq, Eq)]
pub struct NullSink;

impl NullSink {
    /// Makes the only value of this type.
    pub fn new() -> NullSink
        ensures { result ≡ record {} }
    {
        NullSink
    }
}

impl Sink for NullSink {
    ghost taken = { λ _. None };

    ghost faults = { λ _. 0 };

    fn write(&mut self, _piece: &[u8]) -> Result<(), Failed> {
        Ok(())
    }
}

/// A sink over any writer of std, such as standard output.
///
/// It shows no content, and contracts see it as its count of faults: one for each call of the writer that failed, or
/// that took none of some bytes.
#[derive(Debug, Drop)]
pub struct StdSink<W> {
    inner: W,
    faults: u64,
}

impl<W> Model for StdSink<W> {
    ghost Value = { ℕ };

    ghost view = { λ s. s.faults };
}

impl<W> StdSink<W> {
    /// Makes a sink that writes to this writer.
    pub fn new(inner: W) -> StdSink<W>
        ensures { result ≡ 0 }
    {
        StdSink { inner, faults: 0 }
    }
}

impl<W: Write> StdSink<W> {
    /// Flushes the writer.
    ///
    /// # Errors
    /// `Failed` only if the count of faults rose.
    pub fn flush(&mut self) -> Result<(), Failed>
        ensures { self.new ≡ (if is_err result then risen self.old 1 else self.old) }
    {
        match self.inner.flush() {
            Ok(()) => Ok(()),
            Err(_) => {
                self.faults = self.faults.saturating_add(1);
                Err(Failed)
            }
        }
    }
}

impl<W: Write> Sink for StdSink<W> {
    ghost taken = { λ _. None };

    ghost faults = { λ s. s };

    fn write(&mut self, piece: &[u8]) -> Result<(), Failed>
        ensures whole { OnOk result (Appends None None piece.now) }
        ensures front { OnErr result (AppendsFront None None piece.now) }
        ensures cause { HasCause self.old self.new result }
        // It counts each failed call once, and no other call.
        ensures counted { self.new ≡ (if is_err result then risen self.old 1 else self.old) }
    {
        match write_whole(&mut self.inner, piece) {
            Ok(()) => Ok(()),
            Err(Failed) => {
                self.faults = self.faults.saturating_add(1);
                Err(Failed)
            }
        }
    }
}

/// Writes the whole piece, in as many calls as the writer needs. An interrupted call is repeated.
fn write_whole<W: Write>(writer: &mut W, piece: &[u8]) -> Result<(), Failed> {
    let mut rest = piece;
    for _ in 0..u64::MAX {
        if rest.is_empty() {
            return Ok(());
        }
        match writer.write(rest) {
            Ok(0) => return Err(Failed),
            Ok(count) => rest = &rest[count..],
            Err(error) if error.kind() == ErrorKind::Interrupted => {}
            Err(_) => return Err(Failed),
        }
    }
    Err(Failed)
}
