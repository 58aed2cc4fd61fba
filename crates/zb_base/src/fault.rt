//! The two faults that no caller can rule out: an outside object that failed, and out of memory.
ghost use Rattle.std.specs.Prelude.{◌≡◌};
ghost use Rattle.zb_base.specs.declared.fault.OrMemory.TheVariants.{NoMemory as lacks};

use std::alloc::{AllocError, AllocFailed};
use std::error::Error;
use std::fmt;

/// The fault of a call on an outside object: a source, a sink or a disk. The object's count of faults rose.
#[derive(Clone, Copy, Debug, PartialEq, Eq)]
pub struct Failed;

impl fmt::Display for Failed {
    ghost use Rattle.std.specs.Prelude.{Some};
    ghost use Rattle.zb_base.specs.Texts.{failed_text};

    ghost output = { λ fault. Some failed_text };

    fn fmt<W: fmt::Write>(&self, f: &mut fmt::Formatter<W>) -> fmt::Result {
        f.write_str("an outside object failed")
    }
}

impl Error for Failed {}

/// The fault of a call for which there was no memory left.
#[derive(Clone, Copy, Debug, PartialEq, Eq)]
pub struct NoMemory;

impl fmt::Display for NoMemory {
    ghost use Rattle.std.specs.Prelude.{Some};
    ghost use Rattle.zb_base.specs.Texts.{no_memory_text};

    ghost output = { λ fault. Some no_memory_text };

    fn fmt<W: fmt::Write>(&self, f: &mut fmt::Formatter<W>) -> fmt::Result {
        f.write_str("no memory")
    }
}

impl Error for NoMemory {}

impl From<AllocError> for NoMemory {
    fn from(_error: AllocError) -> NoMemory {
        NoMemory
    }
}

impl<T: Drop> From<AllocFailed<T>> for NoMemory {
    fn from(_error: AllocFailed<T>) -> NoMemory {
        NoMemory
    }
}

/// The error of a call that may also lack memory: the call's own fault, or no memory.
#[derive(Clone, Copy, Debug, Drop, PartialEq, Eq)]
pub enum OrMemory<E> {
    /// The call's own fault.
    Fault(E),
    /// There was no memory left.
    NoMemory,
}

impl<E> From<AllocError> for OrMemory<E> {
    ghost from_gives = { λ _ e. e ≡ lacks };

    fn from(_error: AllocError) -> OrMemory<E> {
        OrMemory::NoMemory
    }
}

impl<E> From<NoMemory> for OrMemory<E> {
    ghost from_gives = { λ _ e. e ≡ lacks };

    fn from(_error: NoMemory) -> OrMemory<E> {
        OrMemory::NoMemory
    }
}

impl<E, T: Drop> From<AllocFailed<T>> for OrMemory<E> {
    ghost from_gives = { λ _ e. e ≡ lacks };

    fn from(_error: AllocFailed<T>) -> OrMemory<E> {
        OrMemory::NoMemory
    }
}
