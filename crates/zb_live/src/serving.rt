//! Serving a session: line by line.
ghost use Rattle.std.specs.Prelude.{◌≡◌, ◌≢◌, ◌≤◌, [], None, Err, IsTrue, IfErr, OnErr, OnOk};
ghost use Rattle.std.specs.Io.KnownBytes.{Appends};
ghost use Rattle.std.specs.Str.Lines.{strip_carriage_return};
ghost use Rattle.zb_base.specs.Outside.{AppendsFront, Rose, Unrisen};
ghost use Rattle.zb_centre_store.specs.Outside.{outside};
ghost use Rattle.zb_disk.specs.View.{IsStill};
ghost use Rattle.zb_live.specs.Alive.{CanGoOn, IsAlive, living_of};
ghost use Rattle.zb_live.specs.Living.{Found, done};
ghost use Rattle.zb_live.specs.ServedLines.{HasServedLine, HasWritten, HasWrittenFront, IsServeFault};
ghost use Rattle.zb_live.specs.Moments.{input_of};
ghost use Rattle.zb_live.specs.Serving.{Lives};

use crate::feed::Feed;
use crate::{LiveFault, Session};
use std::alloc::Global;
use zb_base::{Failed, Sink, Source};
use zb_disk::Disk;
use zb_text::page::hand_out;

// Returns a line without the carriage return at its end.
fn without_carriage_return(line: &[u8]) -> &[u8]
    ensures { result.now ≡ strip_carriage_return line.now }
{
    match line.split_last() {
        Some((b'\r', front)) => front,
        _ => line,
    }
}

// Hands out what a line writes, if it writes something.
fn write_page<W: Sink>(page: &mut Vec<u8>, output: &mut W) -> Result<(), LiveFault>
    ensures whole { OnOk result (Appends (W.taken output.old) (W.taken output.new) page.old.items) }
    ensures empty { OnOk result (page.new.items ≡ []) }
    ensures front { OnErr result (AppendsFront (W.taken output.old) (W.taken output.new) page.old.items) }
    ensures unwritten { OnOk result (Unrisen (W.faults output.old) (W.faults output.new)) }
    ensures fault { IfErr result (λ f. (f ≡ LiveFault.Write) × Rose (W.faults output.old) (W.faults output.new)) }
    ensures later { W.faults output.old ≤ W.faults output.new }
{
    if page.is_empty() {
        return Ok(());
    }
    match hand_out(page, output) {
        Ok(()) => Ok(()),
        Err(Failed) => Err(LiveFault::Write),
    }
}

// Carries out a line, and then writes what it says.
fn serve_line<W: Sink, D: Disk>(
    alloc: Global,
    session: &mut Session,
    disk: &mut D,
    line: &[u8],
    page: &mut Vec<u8>,
    output: &mut W,
) -> Result<(), LiveFault>
    requires store { CanGoOn session.old }
    requires empty { page.old.items ≡ [] }
    ensures served { IsTrue D.tells.content → (found : Found)
        → IsAlive found session.old (D.state disk.old)
        → HasServedLine (outside D.tells D.state W.taken W.faults) found session.old
        (done found line.now (living_of session.old)) disk.old output.old result session.new disk.new output.new }
    // Whatever the disk reports, it writes what the definition says.
    ensures told { OnOk result
        (HasWritten line.now session.old (W.taken output.old) session.new (W.taken output.new)) }
    ensures told_front { OnErr result
        (HasWrittenFront line.now session.old (W.taken output.old) (W.taken output.new)) }
    ensures store { OnOk result (CanGoOn session.new) }
    ensures empty { OnOk result (page.new.items ≡ []) }
    ensures waits { OnOk result (session.new.centre ≡ None
        → (session.old.centre ≡ None) × IsStill (D.state disk.old) (D.state disk.new)) }
    ensures faults { IfErr result (IsServeFault (outside D.tells D.state W.taken W.faults) line.now session.old
        disk.old output.old disk.new output.new) }
    ensures unwritten { result ≢ Err LiveFault.Write → Unrisen (W.faults output.old) (W.faults output.new) }
    ensures unrisen { result ≢ Err LiveFault.Disk
        → Unrisen (D.state disk.old).faults (D.state disk.new).faults }
    ensures later { W.faults output.old ≤ W.faults output.new }
{
    match session.take(alloc, disk, line, page) {
        Ok(()) => write_page(page, output),
        Err(fault) => Err(LiveFault::from(fault)),
    }
}

/// Serves the lines of an input over the store on a disk, and writes what they answer.
///
/// Each line is carried out and stored, and then what it writes goes out by one write. The input is read only after
/// all
/// whole lines that came were answered, and then by one call. What comes after the last line feed isn't carried out.
///
/// # Errors
/// - `Read`, `Write` or `Disk` if a call of the input, the output or the disk failed.
/// - `TooLong` if a line has more than 1,048,576 bytes.
/// - `NoStore` if the session is opened, the disk isn't empty and no slot is open.
/// - `BadStore` if what is there is no record of a centre, with the place of the fault.
/// - `Worn` if an event has something to store, the whole record has to be written, and no generation is left.
/// - `NoMemory`.
pub fn live<R: Source, W: Sink, D: Disk>(
    alloc: Global,
    input: &mut R,
    output: &mut W,
    disk: &mut D,
) -> Result<(), LiveFault>
    ensures { Lives (outside D.tells D.state W.taken W.faults)
        (input_of (R.rest input.old) (R.calls input.old) (R.faults input.old)) disk.old output.old result
        (input_of (R.rest input.new) (R.calls input.new) (R.faults input.new)) disk.new output.new }
{
    let mut session = Session::new(alloc);
    let mut feed = Feed::new(alloc);
    let mut page = Vec::new(alloc);
    for _ in 0..u64::MAX {
        match feed.take_line()? {
            Some(line) => serve_line(
                alloc,
                &mut session,
                disk,
                without_carriage_return(line.as_slice()),
                &mut page,
                output,
            )?,
            None => {
                if !feed.read_on(input)? {
                    return Ok(());
                }
                continue;
            }
        }
    }
    // No input has as many lines and comes in as many parts.
    Err(LiveFault::NoMemory)
}
