//! Writing fields at the end of a frame of 127 bytes.
ghost use Rattle.std.specs.Prelude.{◌≡◌, ◌≤◌, length, OnErr};
ghost use Rattle.std.specs.List.{flat_map};
ghost use Rattle.std.specs.Int.{w16, w32, w64};
ghost use Rattle.zb_cursor.specs.Spelling.{byte, number, short, eui, key, optional};
ghost use Rattle.zb_cursor.specs.Writing.{Appends};
ghost use Rattle.zb_base.specs.Limits.{longest_frame};

use arrayvec::ArrayVec;
use std::error::Error;
use std::fmt;
use zb_base::{Eui, Frame, Key, Short};

/// The fault of bytes that don't fit in a frame of 127.
#[derive(Clone, Copy, Debug, PartialEq, Eq)]
pub struct TooLong;

impl fmt::Display for TooLong {
    ghost use Rattle.std.specs.Prelude.{Some};
    ghost use Rattle.zb_cursor.specs.Texts.{too_long_text};

    ghost output = { λ fault. Some too_long_text };

    fn fmt<W: fmt::Write>(&self, f: &mut fmt::Formatter<W>) -> fmt::Result {
        f.write_str("a frame has at most 127 bytes")
    }
}

impl Error for TooLong {}

/// Puts the bytes at the end of the frame.
///
/// # Errors
/// `TooLong` if they don't fit; the frame then stays as it was.
pub fn put(out: &mut Frame, piece: &[u8]) -> Result<(), TooLong>
    ensures appends { Appends out.old.items piece.now out.new.items result }
    ensures stays { OnErr result (out.new.items ≡ out.old.items) }
{
    match out.try_extend_from_slice(piece) {
        Ok(()) => Ok(()),
        Err(_) => Err(TooLong),
    }
}

/// Makes the frame of these bytes.
///
/// Requires at most 127 of them.
pub fn frame_from(bytes: &[u8]) -> Frame
    requires { length bytes.now ≤ longest_frame }
    ensures { result.items ≡ bytes.now }
{
    let mut frame = ArrayVec::new();
    let _ = put(&mut frame, bytes);
    frame
}

/// Replaces the bytes of the frame with these.
///
/// Requires at most 127 of them.
pub fn fill(frame: &mut Frame, bytes: &[u8])
    requires { length bytes.now ≤ longest_frame }
    ensures { frame.new.items ≡ bytes.now }
{
    frame.clear();
    let _ = put(frame, bytes);
}

/// Puts one byte at the end of the frame.
///
/// # Errors
/// `TooLong` if it doesn't fit.
pub fn put_byte(out: &mut Frame, value: u8) -> Result<(), TooLong>
    ensures { Appends out.old.items (byte value) out.new.items result }
{
    put(out, &[value])?;
    Ok(())
}

/// Puts a number of 2 bytes at the end of the frame.
///
/// # Errors
/// `TooLong` if it doesn't fit.
pub fn put_number16(out: &mut Frame, value: u16) -> Result<(), TooLong>
    ensures { Appends out.old.items (number w16 value) out.new.items result }
{
    put(out, &value.to_le_bytes())?;
    Ok(())
}

/// Puts a number of 4 bytes at the end of the frame.
///
/// # Errors
/// `TooLong` if it doesn't fit.
pub fn put_number32(out: &mut Frame, value: u32) -> Result<(), TooLong>
    ensures { Appends out.old.items (number w32 value) out.new.items result }
{
    put(out, &value.to_le_bytes())?;
    Ok(())
}

/// Puts a short address at the end of the frame.
///
/// # Errors
/// `TooLong` if it doesn't fit.
pub fn put_short(out: &mut Frame, value: Short) -> Result<(), TooLong>
    ensures { Appends out.old.items (short value) out.new.items result }
{
    put(out, &value.0.to_le_bytes())?;
    Ok(())
}

/// Puts an EUI at the end of the frame.
///
/// # Errors
/// `TooLong` if it doesn't fit.
pub fn put_eui(out: &mut Frame, value: Eui) -> Result<(), TooLong>
    ensures { Appends out.old.items (eui value) out.new.items result }
{
    put(out, &value.0.to_le_bytes())?;
    Ok(())
}

/// Puts a key at the end of the frame, in the order of its bytes.
///
/// # Errors
/// `TooLong` if it doesn't fit.
pub fn put_key(out: &mut Frame, value: &Key) -> Result<(), TooLong>
    ensures { Appends out.old.items (key value.now) out.new.items result }
{
    put(out, &value.0)?;
    Ok(())
}

/// Puts a byte at the end of the frame, if there is one.
///
/// # Errors
/// `TooLong` if it doesn't fit.
pub fn put_optional_byte(out: &mut Frame, value: Option<u8>) -> Result<(), TooLong>
    ensures { Appends out.old.items (optional byte value) out.new.items result }
{
    match value {
        None => put(out, &[])?,
        Some(field) => put_byte(out, field)?,
    }
    Ok(())
}

/// Puts a number of 2 bytes at the end of the frame, if there is one.
///
/// # Errors
/// `TooLong` if it doesn't fit.
pub fn put_optional_number16(out: &mut Frame, value: Option<u16>) -> Result<(), TooLong>
    ensures { Appends out.old.items (optional (number w16) value) out.new.items result }
{
    match value {
        None => put(out, &[])?,
        Some(field) => put_number16(out, field)?,
    }
    Ok(())
}

/// Puts an EUI at the end of the frame, if there is one.
///
/// # Errors
/// `TooLong` if it doesn't fit.
pub fn put_optional_eui(out: &mut Frame, value: Option<Eui>) -> Result<(), TooLong>
    ensures { Appends out.old.items (optional eui value) out.new.items result }
{
    match value {
        None => put(out, &[])?,
        Some(field) => put_eui(out, field)?,
    }
    Ok(())
}

/// Puts the addresses at the end of the frame, one after the other.
///
/// # Errors
/// `TooLong` if they don't all fit; some of them may then have been written.
pub fn put_shorts(out: &mut Frame, shorts: &[Short]) -> Result<(), TooLong>
    ensures { Appends out.old.items (flat_map short shorts.now) out.new.items result }
{
    put(out, &[])?;
    for address in shorts {
        put_short(out, *address)?;
    }
    Ok(())
}
