//! A code with its CRC, made from digits or bytes, and its link key.

ghost use Rattle.std.specs.Prelude.{◌≡◌, ◌<◌, ◌≤◌, ◌-◌, ◌*◌, ◌^◌, [], IsTrue, length, None};
ghost use Rattle.hex.specs.Hex.{decode_of};
ghost use Rattle.std.specs.List.{position};
ghost use Rattle.std.specs.Result.{result_unwrap_or};
ghost use Rattle.std.specs.Str.{chars};
ghost use Rattle.zb_install.specs.Code.{code_key, code_of, code_of_text, is_code_length, is_no_digit, longest_code};

use crate::check::crc;
use crate::code_error::CodeError;
use arrayvec::ArrayVec;
use std::marker::Model;
use zb_base::Key;
use zb_mmo::hash;

/// A code of 6, 8, 12 or 16 bytes and its CRC, with the link key that results from them.
///
/// A contract sees it as code and CRC together.
#[derive(Drop)]
pub struct InstallCode {
    bytes: ArrayVec<u8, 18>,
    link: Key,
}

impl Model for InstallCode {
    ghost use Rattle.std.specs.Prelude.{◌≡◌, ℕ, ◌≤◌, List, Ok, length};
    ghost use Rattle.zb_install.specs.Code.{code_key, code_of, longest_code};

    ghost Value = { List ℕ };

    ghost view = { λ code. code.bytes.items };

    ghost invariant = { λ code. (code_of code.bytes.items ≡ Ok code.bytes.items)
        × (length code.bytes.items ≤ longest_code) × (code.link.0 ≡ code_key code.bytes.items) };
}

// Returns whether a code and its CRC can have this total length.
fn is_code_length(len: usize) -> bool
    ensures value { result ≡ is_code_length len }
    ensures bounds { IsTrue result → (8 ≤ len) × (len ≤ longest_code) }
{
    len == 8 || len == 10 || len == 14 || len == 18
}

// Copies the bytes into an array with room for the longest code.
fn array_of(bytes: &[u8]) -> ArrayVec<u8, 18>
    requires { length bytes.now ≤ longest_code }
    ensures { result.items ≡ bytes.now }
{
    let mut array = ArrayVec::new();
    match array.try_extend_from_slice(bytes) {
        Ok(()) => array,
        Err(_) => unreachable!(),
    }
}

// Counts the characters of a text.
fn count_characters(text: &str) -> usize
    ensures value { result ≡ length (chars text.now) }
    ensures bound { result ≤ length text.now }
{
    text.chars().count()
}

// Finds the place of the first character that isn't a hexadecimal digit.
fn find_no_digit(text: &str) -> Option<usize>
    ensures { result ≡ position is_no_digit (chars text.now) }
{
    text.chars().position(|c| !c.is_ascii_hexdigit())
}

// Makes the code that the digits of a text spell, with `bytes` as the room for their bytes.
fn spelled(text: &str, bytes: &mut [u8]) -> Result<InstallCode, CodeError>
    requires digits { position is_no_digit (chars text.now) ≡ None }
    requires pairs { length (chars text.now) ≡ 2 * length bytes.old }
    requires fits { length bytes.old ≤ longest_code }
    ensures { result ≡ code_of (result_unwrap_or (decode_of text.now) []) }
{
    let _ = hex::decode_to_slice(text, bytes);
    InstallCode::from_bytes(bytes)
}

impl InstallCode {
    /// Makes a code and its CRC from hexadecimal digits, in either case.
    ///
    /// Requires fewer than 2^32 - 1 bytes of text.
    ///
    /// # Errors
    /// A `CodeError`: the first of its kinds that applies.
    pub fn from_hex(text: &str) -> Result<InstallCode, CodeError>
        requires { length text.now < 2 ^ 32 - 1 }
        ensures { result ≡ code_of_text text.now }
    {
        let count = count_characters(text);
        if count % 2 == 1 {
            return Err(CodeError::NotHex { at: count as u32 });
        }
        if let Some(at) = find_no_digit(text) {
            return Err(CodeError::NotHex { at: at as u32 });
        }
        let len = count / 2;
        if !is_code_length(len) {
            return Err(CodeError::Length { len: len as u32 });
        }
        let mut bytes = [0; 18];
        spelled(text, &mut bytes[..len])
    }

    /// Makes a code and its CRC from bytes.
    ///
    /// Requires fewer than 2^32 - 1 of them.
    ///
    /// # Errors
    /// A `CodeError`: the first of its kinds that applies, except for `NotHex`.
    pub fn from_bytes(bytes: &[u8]) -> Result<InstallCode, CodeError>
        requires { length bytes.now < 2 ^ 32 - 1 }
        ensures { result ≡ code_of bytes.now }
    {
        let len = bytes.len();
        if !is_code_length(len) {
            return Err(CodeError::Length { len: len as u32 });
        }
        let (code, last) = bytes.split_at(len - 2);
        let kept = u16::from_le_bytes([last[0], last[1]]);
        let found = crc(code);
        if kept != found {
            return Err(CodeError::Crc { kept, found });
        }
        Ok(InstallCode {
            bytes: array_of(bytes),
            link: Key(hash(bytes)),
        })
    }

    /// Returns code and CRC together, as they were given.
    pub fn bytes(&self) -> &[u8]
        ensures { result.now ≡ self.now }
    {
        self.bytes.as_slice()
    }

    /// Returns the link key of the code: the hash of code and CRC together.
    pub fn link_key(&self) -> Key
        ensures { result.0 ≡ code_key self.now }
    {
        self.link
    }
}
