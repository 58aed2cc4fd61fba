//! The words for parts of a network: names, addresses and keys.

ghost use Rattle.std.specs.Prelude.{◌≡◌, ◌<◌, ◌^◌, ◌++◌, length, OnOk, IfSome, IsTrue};
ghost use Rattle.std.specs.List.{list_all};
ghost use Rattle.hex.specs.Hex.{encode_upper, IsBytes};
ghost use Rattle.zb_text.specs.Fields.{is_name_byte, is_name, name_of, eui_of, eui_text, short_of, short_text, key_of};
ghost use Rattle.zb_text.specs.Words.{Shows};

use crate::hexadecimal::{fixed, put_block};
use std::alloc::AllocError;
use zb_base::{Eui, Key, Name, Short};

/// Reads a name: 1 to 16 characters of a to z and 0 to 9.
#[tactic(auto, using(crate::proofs::NameLemmas::name_is_text))]
pub fn name(word: &[u8]) -> Option<Name>
    ensures value { Shows (λ name. name.bytes) result (name_of word.now) }
    ensures fits { IfSome result (λ name. IsTrue (is_name name.bytes)) }
{
    if !may_be_name(word) {
        return None;
    }
    let text = str::from_utf8(word).ok()?;
    let name = Name::from(text).ok()?;
    Some(name)
}

fn may_be_name(word: &[u8]) -> bool
    ensures { result ≡ is_name word.now }
{
    1 <= word.len() && word.len() <= 16 && has_name_bytes(word)
}

fn has_name_bytes(word: &[u8]) -> bool
    ensures { result ≡ list_all is_name_byte word.now }
{
    word.iter()
        .all(|byte| byte.is_ascii_lowercase() || byte.is_ascii_digit())
}

/// Reads an EUI of 16 hexadecimal digits.
pub fn eui(word: &[u8]) -> Option<Eui>
    ensures value { Shows (λ eui. eui.0) result (eui_of word.now) }
    ensures fits { IfSome result (λ eui. eui.0 < 2 ^ 64) }
{
    let bytes = fixed::<8>(word)?;
    Some(Eui(u64::from_be_bytes(bytes)))
}

/// Reads a short address of 4 hexadecimal digits.
pub fn short(word: &[u8]) -> Option<Short>
    ensures value { Shows (λ short. short.0) result (short_of word.now) }
    ensures fits { IfSome result (λ short. short.0 < 2 ^ 16) }
{
    let bytes = fixed::<2>(word)?;
    Some(Short(u16::from_be_bytes(bytes)))
}

/// Reads a key of 32 hexadecimal digits.
pub fn key(word: &[u8]) -> Option<Key>
    ensures value { Shows (λ key. key.0) result (key_of word.now) }
    ensures fits { IfSome result (λ key. (length key.0 ≡ 16) × IsBytes key.0) }
{
    let bytes = fixed::<16>(word)?;
    Some(Key(bytes))
}

/// Prints an EUI in 16 digits.
///
/// # Errors
/// `AllocError`.
pub fn put_eui(out: &mut Vec<u8>, eui: Eui) -> Result<(), AllocError>
    ensures { OnOk result (out.new.items ≡ out.old.items ++ eui_text eui.0) }
{
    put_block(out, &eui.0.to_be_bytes())?;
    Ok(())
}

/// Prints a short address in 4 digits.
///
/// # Errors
/// `AllocError`.
pub fn put_short(out: &mut Vec<u8>, short: Short) -> Result<(), AllocError>
    ensures { OnOk result (out.new.items ≡ out.old.items ++ short_text short.0) }
{
    put_block(out, &short.0.to_be_bytes())?;
    Ok(())
}

/// Prints a key in 32 digits.
///
/// # Errors
/// `AllocError`.
pub fn put_key(out: &mut Vec<u8>, key: &Key) -> Result<(), AllocError>
    ensures { OnOk result (out.new.items ≡ out.old.items ++ encode_upper key.now.0) }
{
    put_block(out, &key.0)?;
    Ok(())
}
