//! The command `sniff`.
ghost use Rattle.std.specs.Prelude.{◌≡◌, ◌≢◌, ◌≤◌, Some, length, map, string_bytes, IfOk};
ghost use Rattle.std.specs.Io.KnownBytes.{IsAtEnd};
ghost use Rattle.zb_base.specs.Outside.{Rose, Unrisen};
ghost use Rattle.zb_capture.specs.Grammar.{IsCapture};
ghost use Rattle.zb_pcap.specs.Extracts.{extracted};
ghost use Rattle.zb_command.specs.Answers.{wanted, sniff_output, Writes};
ghost use Rattle.zb_command.specs.CountsLine.{counts_line};
ghost use Rattle.zb_command.specs.Commands.{Sniffing};
ghost use Rattle.zb_input.specs.KeyWords.{keys_in};
ghost use Rattle.zb_input.specs.Inputs.{TakesAtMost};
ghost use Rattle.zb_command.specs.Outcomes.{Ends};
ghost use Rattle.zb_base.specs.Limits.{first_too_long, most_keys};

use crate::input::whole_input;
use crate::status::{Cause, Status};
use std::alloc::{AllocError, Global};
use std::thread::Threads;
use zb_base::{OrMemory, Sink, Source};
use zb_input::read_keys;
use zb_inspect::{InspectFault, report};
use zb_parallel::NoGate;
use zb_pcap::{Counts, Extraction, extract};
use zb_text::page::{add_number, end_line, hand_out, put};

/// Writes the report on the capture file on the input, and the counts of its packets.
///
/// The keys are those that the words represent.
pub(crate) fn sniff_input<T: Threads + Sync, R: Source, W: Sink>(
    rt: &T,
    alloc: Global,
    jobs: u32,
    words: &[String],
    input: &mut R,
    output: &mut W,
) -> Status
    requires jobs { 1 ≤ jobs }
    requires words { length words.now ≤ most_keys }
    ensures ends { Ends result (wanted (Sniffing jobs (keys_in (map string_bytes words.now))) (R.rest input.old))
        (W.taken output.old) (W.taken output.new) (W.faults output.old) (W.faults output.new) }
    ensures end { result ≡ Status.Ok → IsAtEnd (R.rest input.new) }
    ensures few { TakesAtMost (R.rest input.old) (R.rest input.new) first_too_long }
    ensures read_fault { result ≡ Status.ReadFault → Rose (R.faults input.old) (R.faults input.new) }
    ensures no_read_fault { result ≢ Status.ReadFault → Unrisen (R.faults input.old) (R.faults input.new) }
    ensures no_write_fault { result ≢ Status.WriteFault → Unrisen (W.faults output.old) (W.faults output.new) }
{
    let bytes = whole_input!(alloc, input);
    let Ok(keys) = read_keys(alloc, words) else {
        return Status::NoMemory;
    };
    match extract(alloc, bytes.as_slice(), keys.as_slice()) {
        Ok(extraction) => report_and_count(rt, alloc, &extraction, jobs, output),
        Err(OrMemory::Fault(fault)) => Status::Refused {
            line: fault.place,
            cause: Cause::from(fault.cause),
        },
        Err(OrMemory::NoMemory) => Status::NoMemory,
    }
}

/// Writes the report on the frames of a capture file, and the counts of its packets.
fn report_and_count<T: Threads + Sync, W: Sink>(
    rt: &T,
    alloc: Global,
    extraction: &Extraction,
    jobs: u32,
    output: &mut W,
) -> Status
    requires capture { IsCapture extraction.now.capture }
    requires jobs { 1 ≤ jobs }
    ensures ends { Ends result (Some (Writes (sniff_output extraction.now))) (W.taken output.old)
        (W.taken output.new) (W.faults output.old) (W.faults output.new) }
    ensures read_fault { result ≡ Status.ReadFault → ⊥ }
    ensures no_write_fault { result ≢ Status.WriteFault → Unrisen (W.faults output.old) (W.faults output.new) }
{
    let Ok(mut page) = counts_page(alloc, &extraction.counts) else {
        return Status::NoMemory;
    };
    match report(rt, alloc, &extraction.capture, jobs, &NoGate, output) {
        Ok(()) => {}
        Err(InspectFault::Write) => return Status::WriteFault,
        Err(InspectFault::NoMemory) => return Status::NoMemory,
    }
    match hand_out(&mut page, output) {
        Ok(()) => Status::Ok,
        Err(_) => Status::WriteFault,
    }
}

/// Prints the line of the counts.
#[tactic(auto, using(std::proofs::Common::append_assoc))]
fn counts_page(alloc: Global, counts: &Counts) -> Result<Vec<u8>, AllocError>
    ensures { IfOk result (λ page. page.items ≡ counts_line counts.now) }
{
    let mut page = Vec::new(alloc);
    put(&mut page, b"packets")?;
    add_number(&mut page, counts.packets)?;
    add_number(&mut page, counts.bad_check)?;
    add_number(&mut page, counts.other)?;
    end_line(&mut page)?;
    Ok(page)
}
