//! The lines that commands write.
ghost use Rattle.std.specs.Prelude.{◌≡◌, ◌++◌, OnOk};
ghost use Rattle.zb_admin.specs.Texts.{detail_text, ok_line, reason_text, refuse_line, send_line};
ghost use Rattle.zb_node_types.specs.Changes.{reason};
ghost use Rattle.zb_text.specs.Pages.{ended};
ghost use Rattle.zb_text.specs.Words.{then};

use std::alloc::AllocError;
use zb_base::Frame;
use zb_node_types::{Detail, Refusal};
use zb_text::page::{add_bytes, add_eui, add_number, add_word, end_line, put};

/// Prints that the command of a line was carried out.
#[tactic(auto, using(std::proofs::Common::append_assoc))]
pub(crate) fn put_ok(page: &mut Vec<u8>, line: u32) -> Result<(), AllocError>
    ensures { OnOk result (page.new.items ≡ page.old.items ++ ended (ok_line line)) }
{
    put(page, b"ok")?;
    add_number(page, line)?;
    end_line(page)?;
    Ok(())
}

/// Prints that the command of a line was refused, for a reason of one word.
#[tactic(auto, using(std::proofs::Common::append_assoc))]
pub(crate) fn put_refused(page: &mut Vec<u8>, line: u32, why: &[u8]) -> Result<(), AllocError>
    ensures { OnOk result (page.new.items ≡ page.old.items ++ ended (refuse_line line why.now)) }
{
    put(page, b"refuse")?;
    add_number(page, line)?;
    add_word(page, why)?;
    end_line(page)?;
    Ok(())
}

/// Prints that the centre refused the event of a line.
#[tactic(auto, using(std::proofs::Common::append_assoc))]
pub(crate) fn put_refusal(
    page: &mut Vec<u8>,
    line: u32,
    refusal: &Refusal,
) -> Result<(), AllocError>
    ensures { OnOk result
        (page.new.items ≡ page.old.items ++ ended (refuse_line line (reason_text (reason refusal.now)))) }
{
    put(page, b"refuse")?;
    add_number(page, line)?;
    add_reason(page, refusal)?;
    end_line(page)?;
    Ok(())
}

/// Prints a frame that goes on the air.
#[tactic(auto, using(std::proofs::Common::append_assoc))]
pub(crate) fn put_sent(page: &mut Vec<u8>, frame: &Frame) -> Result<(), AllocError>
    ensures { OnOk result (page.new.items ≡ page.old.items ++ ended (send_line frame.now.items)) }
{
    put(page, b"send")?;
    add_bytes(page, frame.as_slice())?;
    end_line(page)?;
    Ok(())
}

// Prints why an event was refused, after a space.
#[tactic(auto, using(std::proofs::Common::append_assoc))]
fn add_reason(page: &mut Vec<u8>, refusal: &Refusal) -> Result<(), AllocError>
    ensures { OnOk result (page.new.items ≡ page.old.items ++ then (reason_text (reason refusal.now))) }
{
    add_word(page, refusal.word())?;
    add_detail(page, refusal.detail())?;
    Ok(())
}

// Prints what is reported beside the word of a reason, after a space.
fn add_detail(page: &mut Vec<u8>, detail: Detail) -> Result<(), AllocError>
    ensures { OnOk result (page.new.items ≡ page.old.items ++ detail_text detail) }
{
    match detail {
        Detail::Nothing => Ok(()),
        Detail::Number(number) => add_number(page, number),
        Detail::Partner(partner) => add_eui(page, partner),
    }
}
