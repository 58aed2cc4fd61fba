//! A page of text that is being printed: its first word, words after a space each, the ends of lines, and the output
//! into a sink. A page grows as its vector does, so words need no allocations of their own.

ghost use Rattle.std.specs.Prelude.{◌≡◌, ◌∷◌, ◌++◌, [], decimal, OnOk, OnErr};
ghost use Rattle.std.specs.Io.KnownBytes.{Appends};
ghost use Rattle.zb_base.specs.Outside.{AppendsFront, HasCause};
ghost use Rattle.hex.specs.Hex.{encode_upper};
ghost use Rattle.zb_text.specs.Fields.{eui_text, short_text};
ghost use Rattle.zb_text.specs.Hexadecimal.{bytes_text};
ghost use Rattle.zb_text.specs.Words.{then};

use crate::fields::{put_eui, put_key, put_short};
use crate::hexadecimal::{put_bytes, put_digits};
use crate::numbers::put_number;
use std::alloc::AllocError;
use zb_base::{Eui, Failed, Key, Short, Sink};

/// Prints a piece of text as it is.
///
/// # Errors
/// `AllocError`.
pub fn put(out: &mut Vec<u8>, piece: &[u8]) -> Result<(), AllocError>
    ensures { OnOk result (out.new.items ≡ out.old.items ++ piece.now) }
{
    out.extend_from_slice(piece)?;
    Ok(())
}

/// Ends a line.
///
/// # Errors
/// `AllocError`.
pub fn end_line(out: &mut Vec<u8>) -> Result<(), AllocError>
    ensures { OnOk result (out.new.items ≡ out.old.items ++ 10 ∷ []) }
{
    out.push(b'\n')?;
    Ok(())
}

fn put_space(out: &mut Vec<u8>) -> Result<(), AllocError>
    ensures { OnOk result (out.new.items ≡ out.old.items ++ 32 ∷ []) }
{
    out.push(b' ')?;
    Ok(())
}

/// Prints a word after a space.
///
/// # Errors
/// `AllocError`.
pub fn add_word(out: &mut Vec<u8>, word: &[u8]) -> Result<(), AllocError>
    ensures { OnOk result (out.new.items ≡ out.old.items ++ then word.now) }
{
    put_space(out)?;
    put(out, word)?;
    Ok(())
}

/// Prints a number in decimal digits after a space.
///
/// # Errors
/// `AllocError`.
pub fn add_number(out: &mut Vec<u8>, number: u32) -> Result<(), AllocError>
    ensures { OnOk result (out.new.items ≡ out.old.items ++ then (decimal number)) }
{
    put_space(out)?;
    put_number(out, number)?;
    Ok(())
}

/// Prints an EUI in 16 digits after a space.
///
/// # Errors
/// `AllocError`.
pub fn add_eui(out: &mut Vec<u8>, eui: Eui) -> Result<(), AllocError>
    ensures { OnOk result (out.new.items ≡ out.old.items ++ then (eui_text eui.0)) }
{
    put_space(out)?;
    put_eui(out, eui)?;
    Ok(())
}

/// Prints a short address in 4 digits after a space.
///
/// # Errors
/// `AllocError`.
pub fn add_short(out: &mut Vec<u8>, short: Short) -> Result<(), AllocError>
    ensures { OnOk result (out.new.items ≡ out.old.items ++ then (short_text short.0)) }
{
    put_space(out)?;
    put_short(out, short)?;
    Ok(())
}

/// Prints a key in 32 digits after a space.
///
/// # Errors
/// `AllocError`.
pub fn add_key(out: &mut Vec<u8>, key: &Key) -> Result<(), AllocError>
    ensures { OnOk result (out.new.items ≡ out.old.items ++ then (encode_upper key.now.0)) }
{
    put_space(out)?;
    put_key(out, key)?;
    Ok(())
}

/// Prints bytes in two digits each, or `-` for no bytes, after a space.
///
/// # Errors
/// `AllocError`.
pub fn add_bytes(out: &mut Vec<u8>, bytes: &[u8]) -> Result<(), AllocError>
    ensures { OnOk result (out.new.items ≡ out.old.items ++ then (bytes_text bytes.now)) }
{
    put_space(out)?;
    put_bytes(out, bytes)?;
    Ok(())
}

/// Writes a page into a sink, and empties it.
///
/// # Errors
/// `Failed` if the sink failed; it took a prefix of the page. The page then stays as it was.
pub fn hand_out<W: Sink>(page: &mut Vec<u8>, out: &mut W) -> Result<(), Failed>
    ensures whole { OnOk result (Appends (W.taken out.old) (W.taken out.new) page.old.items × (page.new.items ≡ [])) }
    ensures front { OnErr result (AppendsFront (W.taken out.old) (W.taken out.new) page.old.items
        × (page.new.items ≡ page.old.items)) }
    ensures cause { HasCause (W.faults out.old) (W.faults out.new) result }
{
    out.write(page.as_slice())?;
    page.clear();
    Ok(())
}
