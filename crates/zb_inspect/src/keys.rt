//! The ring of keys of a capture.
ghost use Rattle.std.specs.Prelude.{◌≡◌, IfOk};
ghost use Rattle.zb_capture.specs.Grammar.{IsCapture};
ghost use Rattle.zb_inspect.specs.Rings.{ring_of, IsRing};

use crate::{Ring, open_all};
use std::alloc::Global;
use std::thread::Threads;
use zb_base::NoMemory;
use zb_capture::Capture;
use zb_parallel::NoGate;

/// Finds the ring of a capture: its given keys, and those that its frames give, with the rounds.
///
/// # Errors
///
/// `NoMemory`, if memory runs out.
pub fn ring<T: Threads + Sync>(rt: &T, alloc: Global, capture: &Capture) -> Result<Ring, NoMemory>
    requires { IsCapture capture.now }
    ensures ring { IfOk result (λ r. r ≡ ring_of capture.now) }
    ensures rounds { IfOk result (λ r. IsRing capture.now r) }
{
    let opened = open_all(rt, alloc, capture, 1, &NoGate)?;
    Ok(opened.ring)
}
