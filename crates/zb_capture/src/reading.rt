//! Reads a whole capture.
ghost use Rattle.std.specs.Prelude.{◌≡◌, ◌≤◌, ◌<◌, ◌^◌, ◌-◌, length, IfOk};
ghost use Rattle.zb_capture.specs.Drafts.{Answers};
ghost use Rattle.zb_capture.specs.Grammar.{IsCapture, captured};

use crate::capture::Capture;
use crate::fault::CaptureError;
use crate::reader::CaptureReader;
use std::alloc::Global;
use std::thread::Threads;
use zb_base::OrMemory;

/// Reads a capture.
///
/// The text must have fewer than 2^32 - 1 bytes, because a line number has 32 bits.
///
/// # Errors
///
/// The first bad line, with its first cause; or `NoMemory`.
#[tactic(auto, unfolding(crate::specs::Grammar::captured))]
pub fn read_capture(alloc: Global, bytes: &[u8]) -> Result<Capture, OrMemory<CaptureError>>
    requires { length bytes.now < 2 ^ 32 - 1 }
    ensures exact { Answers result (captured bytes.now) }
    ensures valid { IfOk result (λ c. IsCapture c) }
{
    let mut reader = CaptureReader::new(alloc);
    reader.read_lines(bytes)?;
    Ok(reader.into_capture())
}

/// Reads a capture as `read_capture` does, with `jobs` jobs, each over consecutive lines.
///
/// There must be at least one job, and fewer than 2^32 - 1 bytes.
///
/// # Errors
///
/// The first bad line, with its first cause; or `NoMemory`.
#[tactic(auto, unfolding(crate::specs::Grammar::captured))]
pub fn read_in_pieces<T: Threads + Sync>(
    rt: &T,
    alloc: Global,
    jobs: u32,
    bytes: &[u8],
) -> Result<Capture, OrMemory<CaptureError>>
    requires text { length bytes.now < 2 ^ 32 - 1 }
    requires jobs { 1 ≤ jobs }
    ensures exact { Answers result (captured bytes.now) }
    ensures valid { IfOk result (λ c. IsCapture c) }
{
    let mut reader = CaptureReader::new(alloc);
    reader.read(rt, alloc, jobs, bytes)?;
    Ok(reader.into_capture())
}
