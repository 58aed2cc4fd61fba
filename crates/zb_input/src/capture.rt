//! Reads a capture from the input, part by part, while the input arrives.
ghost use Rattle.std.specs.Prelude.{◌≡◌, ◌≤◌, ◌+◌, ◌++◌, length, OnOk};
ghost use Rattle.std.specs.Str.Lines.{lines};
ghost use Rattle.zb_capture.specs.Readings.{IsReadAlone};
ghost use Rattle.zb_input.specs.Inputs.{AreLines, IsReadAsCapture, IsRound, IsTaken};
ghost use Rattle.zb_input.specs.declared.capture.CaptureFault.TheVariants.{Input as of_input, Text as of_text};
ghost use Rattle.zb_input.specs.declared.input.InputFault.TheVariants.{NoMemory as lacks};
ghost use Rattle.zb_base.specs.Limits.{longest_input};

use crate::incoming::{Incoming, Taken};
use crate::input::InputFault;
use std::alloc::{AllocError, Global};
use std::thread::{Threads, join_mut};
use zb_base::{NoMemory, OrMemory, Source};
use zb_capture::{Capture, CaptureError, CaptureReader};
use zb_parallel::IdleThread;

/// How many bytes one job reads before it parses their lines.
const PART: usize = 1_048_576;

/// How many bytes are read for each job but one before several jobs begin a round.
const FRONT: usize = 2_097_152;

/// How many bytes one job reads during a round. It parses their lines too, so they are fewer.
const BACK: usize = 1_572_864;

/// Why the input isn't a capture.
#[derive(Clone, Copy, Debug, PartialEq, Eq)]
pub enum CaptureFault {
    /// It wasn't read to its end.
    Input(InputFault),
    /// Its text isn't a capture.
    Text(CaptureError),
}

impl From<InputFault> for CaptureFault {
    ghost from_gives = { λ e f. f ≡ of_input e };

    fn from(fault: InputFault) -> CaptureFault {
        CaptureFault::Input(fault)
    }
}

impl From<AllocError> for CaptureFault {
    ghost from_gives = { λ _ f. f ≡ of_input lacks };

    fn from(_error: AllocError) -> CaptureFault {
        CaptureFault::Input(InputFault::NoMemory)
    }
}

impl From<NoMemory> for CaptureFault {
    ghost from_gives = { λ _ f. f ≡ of_input lacks };

    fn from(_error: NoMemory) -> CaptureFault {
        CaptureFault::Input(InputFault::NoMemory)
    }
}

impl From<OrMemory<CaptureError>> for CaptureFault {
    ghost use Rattle.zb_input.specs.Inputs.{fault_of};

    ghost from_gives = { λ e f. f ≡ fault_of e };

    fn from(fault: OrMemory<CaptureError>) -> CaptureFault {
        match fault {
            OrMemory::Fault(fault) => CaptureFault::Text(fault),
            OrMemory::NoMemory => CaptureFault::Input(InputFault::NoMemory),
        }
    }
}

/// Reads a capture from the input, with `jobs` jobs.
///
/// # Errors
/// `CaptureFault::Input` if the input wasn't read to its end, and `CaptureFault::Text` if its text isn't a capture.
pub fn read_capture_on<T: Threads + Sync, R: Source>(
    rt: &T,
    alloc: Global,
    jobs: u32,
    input: &mut R,
) -> Result<Capture, CaptureFault>
    requires { 1 ≤ jobs }
    ensures { IsReadAsCapture result (R.rest input.old) (R.rest input.new) (R.faults input.old) (R.faults input.new) }
{
    if jobs == 1 {
        read_by_one(alloc, input)
    } else {
        read_by_several(rt, alloc, jobs, input)
    }
}

/// Reads a capture from the input part by part, so that its whole text is never kept.
fn read_by_one<R: Source>(alloc: Global, input: &mut R) -> Result<Capture, CaptureFault>
    ensures { IsReadAsCapture result (R.rest input.old) (R.rest input.new) (R.faults input.old) (R.faults input.new) }
{
    let mut reader = CaptureReader::new(alloc);
    let mut incoming = Incoming::new(alloc);
    'parts: while incoming.fill(input, PART)? {
        match incoming.read_whole_lines(alloc, &mut reader) {
            Ok(()) => {}
            Err(fault) => return Err(incoming.refuse(input, fault)),
        }
    }
    reader.read_lines(incoming.part.as_slice())?;
    Ok(reader.into_capture())
}

/// Reads a capture from the input in rounds, with two jobs or more.
fn read_by_several<T: Threads + Sync, R: Source>(
    rt: &T,
    alloc: Global,
    jobs: u32,
    input: &mut R,
) -> Result<Capture, CaptureFault>
    requires { 2 ≤ jobs }
    ensures { IsReadAsCapture result (R.rest input.old) (R.rest input.new) (R.faults input.old) (R.faults input.new) }
{
    let mut reader = CaptureReader::new(alloc);
    let mut front = Incoming::new(alloc);
    let mut back = Incoming::new(alloc);
    'rounds: while front.fill(input, FRONT * (jobs as usize - 1))? {
        match read_round(rt, alloc, jobs, input, &mut front, &mut back, &mut reader)? {
            Ok(()) => {}
            Err(fault) => return Err(front.refuse(input, fault)),
        }
    }
    let idle = IdleThread::start(rt, jobs as usize);
    reader.read(rt, alloc, jobs, front.part.as_slice())?;
    idle.end(rt);
    Ok(reader.into_capture())
}

/// Does one round, with two jobs or more. What comes after the whole lines is left.
///
/// All jobs but one parse the whole lines that were read. Meanwhile that one reads the next bytes and parses their
/// whole lines.
fn read_round<T: Threads + Sync, R: Source>(
    rt: &T,
    alloc: Global,
    jobs: u32,
    input: &mut R,
    front: &mut Incoming,
    back: &mut Incoming,
    reader: &mut CaptureReader,
) -> Result<Result<(), OrMemory<CaptureError>>, InputFault>
    requires jobs { 2 ≤ jobs }
    requires count { front.old.count ≤ longest_input }
    requires room { reader.old.lines + length front.old.part.items ≤ front.old.count }
    ensures { IsRound result (R.rest input.old) (R.rest input.new) front.old front.new reader.old reader.new
        (R.faults input.old) (R.faults input.new) }
{
    back.go_on_from(&front.split()?)?;
    let (first, taken) = read_both(rt, alloc, jobs - 1, front.part.as_slice(), input, back);
    let Taken { alone, rest } = taken?;
    let read = add_both(
        alloc,
        reader,
        front.part.as_slice(),
        first,
        back.part.as_slice(),
        alone,
    );
    front.go_on_from(&rest)?;
    Ok(read)
}

/// Parses the lines of a text with `jobs` jobs, and meanwhile reads the bytes after it.
///
/// The whole lines of these bytes are parsed by themselves.
fn read_both<T: Threads + Sync, R: Source>(
    rt: &T,
    alloc: Global,
    jobs: u32,
    front: &[u8],
    input: &mut R,
    back: &mut Incoming,
) -> (
    Result<CaptureReader, OrMemory<CaptureError>>,
    Result<Taken, InputFault>,
)
    requires jobs { 1 ≤ jobs }
    requires front { length front.now ≤ longest_input }
    requires back { (back.old.count ≤ longest_input) × (length back.old.part.items ≤ back.old.count) }
    ensures first { IsReadAlone result.0 front.now }
    ensures taken { IsTaken result.1 (R.rest input.old) (R.rest input.new) back.old back.new (R.faults input.old)
        (R.faults input.new) }
{
    let mut first = Err(OrMemory::NoMemory);
    let mut taken = Err(InputFault::NoMemory);
    let mut reads_front = ||
        requires { (1 ≤ jobs) × (length front.now ≤ longest_input) }
        ensures { IsReadAlone first.exit front.entry.now }
    { first = read_first(rt, alloc, jobs, front) };
    let mut takes_back = ||
        requires { (back.now.count ≤ longest_input) × (length back.now.part.items ≤ back.now.count) }
        ensures { IsTaken taken.exit (R.rest input.entry.now) (R.rest input.exit.now) back.entry.now back.exit.now
            (R.faults input.entry.now) (R.faults input.exit.now) }
    { taken = back.take(alloc, input, BACK) };
    let idle = IdleThread::start(rt, jobs as usize + 1);
    join_mut(rt, &mut reads_front, &mut takes_back);
    idle.end(rt);
    (first, taken)
}

/// Parses the lines of a text by themselves, with `jobs` jobs.
fn read_first<T: Threads + Sync>(
    rt: &T,
    alloc: Global,
    jobs: u32,
    text: &[u8],
) -> Result<CaptureReader, OrMemory<CaptureError>>
    requires jobs { 1 ≤ jobs }
    requires text { length text.now ≤ longest_input }
    ensures { IsReadAlone result text.now }
{
    let mut reader = CaptureReader::new(alloc);
    reader.read(rt, alloc, jobs, text)?;
    Ok(reader)
}

/// Adds the lines of two texts after the earlier ones. The results of each text by itself are given.
fn add_both(
    alloc: Global,
    reader: &mut CaptureReader,
    front: &[u8],
    first: Result<CaptureReader, OrMemory<CaptureError>>,
    back: &[u8],
    second: Result<CaptureReader, OrMemory<CaptureError>>,
) -> Result<(), OrMemory<CaptureError>>
    requires room { reader.old.lines + length front.now + length back.now ≤ longest_input }
    requires first { IsReadAlone first front.now }
    requires second { IsReadAlone second back.now }
    ensures exact { AreLines result reader.old reader.new (lines front.now ++ lines back.now) }
    ensures count { OnOk result (reader.new.lines ≤ reader.old.lines + length front.now + length back.now) }
{
    reader.add(alloc, front, first)?;
    reader.add(alloc, back, second)?;
    Ok(())
}
