//! The command `audit`.
ghost use Rattle.std.specs.Prelude.{◌≡◌, ◌≢◌, ◌<◌, ◌^◌, length, IfOk, IfErr};
ghost use Rattle.std.specs.Io.KnownBytes.{IsAtEnd};
ghost use Rattle.zb_base.specs.Outside.{Rose, Unrisen};
ghost use Rattle.zb_command.specs.Auditing.{Audits, IsSoundText, IsTextFault, IsTold, sound_line};
ghost use Rattle.zb_input.specs.Inputs.{TakesAtMost};
ghost use Rattle.zb_command.specs.declared.audit.TextFault.TheVariants.{NoMemory as lacks};
ghost use Rattle.zb_base.specs.Limits.{first_too_long};

use crate::input::whole_input;
use crate::status::{Cause, Status};
use std::alloc::{AllocError, Global};
use zb_audit::{AuditFault, Auditor, Verdict};
use zb_base::{NoMemory, Sink, Source};
use zb_text::page::{add_number, end_line, hand_out, put};
use zb_trace_read::{no_line, take_into};

/// Why a text isn't that of a sound transcript.
#[derive(Clone, Copy, Debug, PartialEq, Eq)]
pub(crate) enum TextFault {
    /// A line is no text of a line.
    Syntax {
        /// Its number, from 1.
        line: u32,
    },
    /// A line breaks a claim.
    Broken {
        /// The number of the first one, from 1.
        line: u32,
        /// The number of the first claim that it breaks.
        clause: u8,
    },
    /// There was no memory left.
    NoMemory,
}

impl From<AllocError> for TextFault {
    ghost from_gives = { λ _ e. e ≡ lacks };

    fn from(_error: AllocError) -> TextFault {
        TextFault::NoMemory
    }
}

impl From<NoMemory> for TextFault {
    ghost from_gives = { λ _ e. e ≡ lacks };

    fn from(_error: NoMemory) -> TextFault {
        TextFault::NoMemory
    }
}

/// Judges the transcript on the input, and writes the verdict.
pub(crate) fn audit_input<R: Source, W: Sink>(
    alloc: Global,
    input: &mut R,
    output: &mut W,
) -> Status
    ensures ends { Audits result (R.rest input.old) (W.taken output.old) (W.taken output.new)
        (W.faults output.old) (W.faults output.new) }
    ensures end { result ≡ Status.Ok → IsAtEnd (R.rest input.new) }
    ensures few { TakesAtMost (R.rest input.old) (R.rest input.new) first_too_long }
    ensures read_fault { result ≡ Status.ReadFault → Rose (R.faults input.old) (R.faults input.new) }
    ensures no_read_fault { result ≢ Status.ReadFault → Unrisen (R.faults input.old) (R.faults input.new) }
    ensures no_write_fault { result ≢ Status.WriteFault → Unrisen (W.faults output.old) (W.faults output.new) }
{
    let bytes = whole_input!(alloc, input);
    match audit_text(alloc, bytes.as_slice()) {
        Ok(verdict) => tell_verdict(alloc, &verdict, output),
        Err(TextFault::Syntax { line }) => Status::Refused {
            line,
            cause: Cause::Syntax,
        },
        Err(TextFault::Broken { line, clause }) => Status::Broken { line, clause },
        Err(TextFault::NoMemory) => Status::NoMemory,
    }
}

/// Judges the transcript that a text is, line by line.
fn audit_text(alloc: Global, text: &[u8]) -> Result<Verdict, TextFault>
    requires { length text.now < 2 ^ 32 }
    ensures sound { IfOk result (IsSoundText text.now) }
    ensures fault { IfErr result (IsTextFault text.now) }
{
    let mut auditor = Auditor::new(alloc)?;
    let mut line = no_line();
    let mut rest = text;
    let mut count: u32 = 0;
    while !rest.is_empty() {
        let Some(after) = take_into(alloc, rest, &mut line)? else {
            return Err(TextFault::Syntax { line: count + 1 });
        };
        auditor.line(alloc, &line)?;
        count += 1;
        rest = after;
    }
    match auditor.end() {
        Ok(verdict) => Ok(verdict),
        Err(AuditFault::Broken { line, clause }) => Err(TextFault::Broken { line, clause }),
        Err(AuditFault::NoMemory) => Err(TextFault::NoMemory),
    }
}

/// Writes the line of a verdict.
fn tell_verdict<W: Sink>(alloc: Global, verdict: &Verdict, output: &mut W) -> Status
    ensures told { IsTold result (sound_line verdict.now) (W.taken output.old) (W.taken output.new)
        (W.faults output.old) (W.faults output.new) }
    ensures no_write_fault { result ≢ Status.WriteFault → Unrisen (W.faults output.old) (W.faults output.new) }
{
    let Ok(mut page) = verdict_page(alloc, verdict) else {
        return Status::NoMemory;
    };
    match hand_out(&mut page, output) {
        Ok(()) => Status::Ok,
        Err(_) => Status::WriteFault,
    }
}

/// Prints the line of a verdict.
#[tactic(auto, using(std::proofs::Common::append_assoc))]
fn verdict_page(alloc: Global, verdict: &Verdict) -> Result<Vec<u8>, AllocError>
    ensures { IfOk result (λ page. page.items ≡ sound_line verdict.now) }
{
    let mut page = Vec::new(alloc);
    put(&mut page, b"sound")?;
    add_number(&mut page, verdict.seals)?;
    add_number(&mut page, verdict.accepts)?;
    put(
        &mut page,
        if verdict.locked { b" locked" } else { b" open" },
    )?;
    end_line(&mut page)?;
    Ok(page)
}
