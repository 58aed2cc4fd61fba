//! Where the program's input comes from: the trait `Source`, a source in memory, and an adapter over any reader.
ghost use Rattle.std.specs.Prelude.{◌≡◌, ◌+◌, ℕ, List, Option, None, Some, min, length, IfOk, is_err, if◌then◌else◌};
ghost use Rattle.std.specs.Io.{ReadsAtMost};
ghost use Rattle.std.specs.Io.KnownBytes.{ReadConsumes};
ghost use Rattle.zb_base.specs.Outside.{HasCause, has_number as has, risen};

use crate::numbers::{fill, has_number};
use crate::{Failed, NoMemory};
use std::alloc::Global;
use std::io::{ErrorKind, Read};
use std::marker::Model;

/// An input that is read from its beginning to its end.
///
/// Its meanings are the bytes still to come, if it shows them, a count of its calls, and a count of faults, which
/// never falls.
pub trait Source {
    // The bytes still to come, if the source shows them.
    ghost rest: { Self → Option (List ℕ) };

    // How often it was called. The count of an adapter stops at 2^64 - 1.
    ghost calls: { Self → ℕ };

    // How many of its calls failed. The count of an adapter stops at 2^64 - 1.
    ghost faults: { Self → ℕ };

    /// Puts the next bytes at the beginning of `buf`, and returns how many it put there.
    ///
    /// 0 into a buffer that isn't empty is the end of the input.
    ///
    /// # Errors
    /// `Failed` only if the count of faults rose; the bytes to come don't change then.
    fn read(&mut self, buf: &mut [u8]) -> Result<usize, Failed>
        ensures bound { ReadsAtMost result buf.new }
        ensures bytes { ReadConsumes (rest self.old) (rest self.new) result buf.new }
        ensures called { calls self.new ≡ risen (calls self.old) 1 }
        ensures cause { HasCause (faults self.old) (faults self.new) result };
}

/// A source of bytes in memory, some of whose calls fail.
#[derive(Debug, Drop)]
pub struct MemSource {
    bytes: Vec<u8>,
    at: usize,
    fails: Vec<u32>,
    calls: u64,
    faults: u64,
}

impl Model for MemSource {
    ghost use Rattle.std.specs.Prelude.{◌≤◌, drop, vec_len};
    ghost use Rattle.zb_base.specs.Outside.{Supply};

    ghost Value = { Supply };

    ghost view = { λ s. record {
      rest = drop s.at s.bytes.items;
      fails = s.fails.items;
      calls = s.calls;
      faults = s.faults;
    } };

    ghost invariant = { λ s. s.at ≤ vec_len s.bytes };
}

impl MemSource {
    /// Makes a source of these bytes, some of whose calls are to fail.
    ///
    /// Those are the calls whose numbers are in `fails`, counted from 1.
    ///
    /// # Errors
    /// `NoMemory`.
    pub fn new(alloc: Global, bytes: &[u8], fails: &[u32]) -> Result<MemSource, NoMemory>
        ensures { IfOk result (λ s. s ≡ record { rest = bytes.now; fails = fails.now; calls = 0; faults = 0 }) }
    {
        Ok(MemSource {
            bytes: Vec::from_slice(alloc, bytes)?,
            at: 0,
            fails: Vec::from_slice(alloc, fails)?,
            calls: 0,
            faults: 0,
        })
    }
}

/// A source over any reader of std, such as standard input.
///
/// It shows no content, and contracts see it as its counts of calls and faults.
#[derive(Debug, Drop)]
pub struct StdSource<R> {
    inner: R,
    calls: u64,
    faults: u64,
}

impl<R> Model for StdSource<R> {
    ghost use Rattle.zb_base.specs.Outside.{Counts};

    ghost Value = { Counts };

    ghost view = { λ s. record {
      calls = s.calls;
      faults = s.faults;
    } };
}

impl<R> StdSource<R> {
    /// Makes a source that reads what this reader gives.
    pub fn new(inner: R) -> StdSource<R>
        ensures { result ≡ record { calls = 0; faults = 0 } }
    {
        StdSource {
            inner,
            calls: 0,
            faults: 0,
        }
    }
}

impl<R: Read> Source for StdSource<R> {
    ghost rest = { λ _. None };

    ghost calls = { λ s. s.calls };

    ghost faults = { λ s. s.faults };

    fn read(&mut self, buf: &mut [u8]) -> Result<usize, Failed>
        ensures bound { ReadsAtMost result buf.new }
        ensures bytes { ReadConsumes None None result buf.new }
        ensures called { self.new.calls ≡ risen self.old.calls 1 }
        ensures cause { HasCause self.old.faults self.new.faults result }
        // It counts each call once, and each failed call.
        ensures counted { self.new ≡ record {
          calls = risen self.old.calls 1;
          faults = (if is_err result then risen self.old.faults 1 else self.old.faults);
        } }
    {
        self.calls = self.calls.saturating_add(1);
        match read_once(&mut self.inner, buf) {
            Ok(count) => Ok(count),
            Err(Failed) => {
                self.faults = self.faults.saturating_add(1);
                Err(Failed)
            }
        }
    }
}

impl Source for MemSource {
    ghost rest = { λ s. Some s.rest };

    ghost calls = { λ s. s.calls };

    ghost faults = { λ s. s.faults };

    fn read(&mut self, buf: &mut [u8]) -> Result<usize, Failed>
        ensures bound { ReadsAtMost result buf.new }
        ensures bytes { ReadConsumes (Some self.old.rest) (Some self.new.rest) result buf.new }
        ensures called { self.new.calls ≡ risen self.old.calls 1 }
        ensures cause { HasCause self.old.faults self.new.faults result }
        // It fails exactly at the listed calls.
        ensures listed { is_err result ≡ has self.old.fails (risen self.old.calls 1) }
        // It gives as much as there is room for.
        ensures full { IfOk result (λ n. n ≡ min (length buf.old) (length self.old.rest)) }
        // It counts each call once, and each failed one. The numbers of the calls that are to fail don't change.
        ensures after { self.new ≡ record self.old {
          rest = self.new.rest;
          calls = risen self.old.calls 1;
          faults = (if is_err result then risen self.old.faults 1 else self.old.faults);
        } }
    {
        self.calls = self.calls.saturating_add(1);
        if has_number(self.fails.as_slice(), self.calls) {
            self.faults = self.faults.saturating_add(1);
            return Err(Failed);
        }
        let count = fill(buf, &self.bytes[self.at..]);
        self.at += count;
        Ok(count)
    }
}

/// Reads once, as much as the reader gives. An interrupted call is repeated.
fn read_once<R: Read>(reader: &mut R, buf: &mut [u8]) -> Result<usize, Failed>
    ensures { ReadsAtMost result buf.new }
{
    for _ in 0..u64::MAX {
        match reader.read(buf) {
            Ok(count) => return Ok(count),
            Err(error) if error.kind() == ErrorKind::Interrupted => {}
            Err(_) => return Err(Failed),
        }
    }
    Err(Failed)
}
