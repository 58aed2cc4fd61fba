//! The line that ends the answer to a line of a session.
ghost use Rattle.std.specs.Prelude.{◌≡◌, ◌++◌, OnOk};
ghost use Rattle.zb_live.specs.Answers.{ok_text, refused_text};

use crate::cause::Cause;
use std::alloc::AllocError;
use zb_text::page::{add_number, add_word, end_line, put};

/// Prints that the line of that number was carried out.
///
/// # Errors
/// Out of memory.
#[tactic(auto, using(std::proofs::Common::append_assoc), unfolding(crate::specs::Answers::ok_text))]
pub fn put_ok(page: &mut Vec<u8>, line: u32) -> Result<(), AllocError>
    ensures { OnOk result (page.new.items ≡ page.old.items ++ ok_text line) }
{
    put(page, b"ok")?;
    add_number(page, line)?;
    end_line(page)?;
    Ok(())
}

/// Prints that the line of that number wasn't carried out, and why.
///
/// # Errors
/// Out of memory.
#[tactic(auto, using(std::proofs::Common::append_assoc), unfolding(crate::specs::Answers::refused_text))]
pub fn put_refused(page: &mut Vec<u8>, line: u32, cause: Cause) -> Result<(), AllocError>
    ensures { OnOk result (page.new.items ≡ page.old.items ++ refused_text line cause) }
{
    put(page, b"refuse")?;
    add_number(page, line)?;
    add_word(page, cause.word())?;
    end_line(page)?;
    Ok(())
}
