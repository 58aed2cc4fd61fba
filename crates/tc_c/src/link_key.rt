//! Install codes (Base Device Behavior).
ghost use Rattle.std.specs.Prelude.{◌≡◌, ◌≢◌, ℕ, List, Ok, length};
ghost use Rattle.tc_c.specs.Numbers.{code_number, link_key_number};
ghost use Rattle.zb_install.specs.Code.{code_key, code_of};

use crate::key::WRONG_ROOM;
use zb_base::Key;
use zb_install::{CodeError, InstallCode};

/// Returns the number of a code's fault, or 0 with its link key.
fn link_key_of(code: &[u8], link: &mut Key) -> u32
    ensures number { result ≡ code_number (code_of code.now) }
    ensures key { (v : List ℕ) → code_of code.now ≡ Ok v → link.new.0 ≡ code_key v }
{
    if code.len() > 18 {
        return 1;
    }
    match InstallCode::from_bytes(code) {
        Ok(taken) => {
            *link = taken.link_key();
            0
        }
        Err(CodeError::Crc { .. }) => 2,
        Err(_) => 1,
    }
}

/// Writes the link key of an install code into `key`, which has 16 bytes. `code` has the code and its CRC.
///
/// Returns 0, or 1 if no code has that length, 2 if the CRC is wrong, 5 if `key` doesn't have 16 bytes.
#[unsafe(no_mangle)]
pub extern "C" fn tc_link_key(code: &[u8], key: &mut [u8]) -> u32
    ensures number { result ≡ link_key_number code.now (length key.old) }
    ensures key { (v : List ℕ) → length key.old ≡ 16 → code_of code.now ≡ Ok v → key.new ≡ code_key v }
    ensures kept { result ≢ 0 → key.new ≡ key.old }
{
    if key.len() != 16 {
        return WRONG_ROOM;
    }
    let mut link = Key([0; 16]);
    let number = link_key_of(code, &mut link);
    if number == 0 {
        key.copy_from_slice(&link.0);
    }
    number
}
