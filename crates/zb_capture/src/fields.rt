//! The words of each line of a capture, after its first word.
ghost use Rattle.std.specs.Prelude.{◌≡◌};
ghost use Rattle.std.specs.List.{list_all};
ghost use Rattle.std.specs.Char.{is_ascii_hexdigit};
ghost use Rattle.zb_text.specs.Words.{left};
ghost use Rattle.zb_capture.specs.Grammar.{key_in, code_in, addr_in, frame_in, is_hex, is_address, link_key_of};

use zb_base::{Eui, Frame, Key, Short};
use zb_install::InstallCode;
use zb_text::hexadecimal;
use zb_text::words::Words;

/// Reads a key.
#[tactic(auto, unfolding(crate::specs::Grammar::key_in))]
pub(crate) fn key(words: &mut Words<'_>) -> Option<Key>
    ensures { result ≡ key_in (left words.old) }
{
    let key = words.key()?;
    words.end()?;
    Some(key)
}

/// Reads a string of bytes in hexadecimal digits.
///
/// It returns the link key of the install code that the bytes are. If they aren't one, the inner value is `None`.
#[tactic(auto, unfolding(crate::specs::Grammar::code_in))]
pub(crate) fn code(words: &mut Words<'_>) -> Option<Option<Key>>
    ensures { result ≡ code_in (left words.old) }
{
    let word = words.word()?;
    if !is_hex(word) {
        return None;
    }
    words.end()?;
    Some(link_key(word))
}

fn is_hex(word: &[u8]) -> bool
    ensures { result ≡ is_hex word.now }
{
    word == b"-".as_slice() || (!word.is_empty() && word.len() % 2 == 0 && has_digits(word))
}

fn has_digits(word: &[u8]) -> bool
    ensures { result ≡ list_all is_ascii_hexdigit word.now }
{
    word.iter().all(|byte| byte.is_ascii_hexdigit())
}

fn link_key(word: &[u8]) -> Option<Key>
    ensures { result ≡ link_key_of word.now }
{
    let bytes = hexadecimal::bytes::<18>(word)?;
    match InstallCode::from_bytes(bytes.as_slice()) {
        Ok(code) => Some(code.link_key()),
        Err(_) => None,
    }
}

/// Reads a short address and the EUI of the node that has it.
#[tactic(auto, unfolding(crate::specs::Grammar::addr_in))]
pub(crate) fn addr(words: &mut Words<'_>) -> Option<(Short, Eui)>
    ensures { result ≡ addr_in (left words.old) }
{
    let short = words.short()?;
    let eui = words.eui()?;
    words.end()?;
    if !is_address(eui) {
        return None;
    }
    Some((short, eui))
}

fn is_address(eui: Eui) -> bool
    ensures { result ≡ is_address eui.0 }
{
    0 < eui.0 && eui.0 < u64::MAX
}

/// Reads a frame of 1 to 127 bytes.
#[tactic(auto, unfolding(crate::specs::Grammar::frame_in))]
pub(crate) fn frame(words: &mut Words<'_>) -> Option<Frame>
    ensures { result ≡ frame_in (left words.old) }
{
    let frame = words.bytes::<127>()?;
    words.end()?;
    if frame.is_empty() {
        return None;
    }
    Some(frame)
}
