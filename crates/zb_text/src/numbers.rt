//! Decimal numbers: words without leading zeros.

ghost use Rattle.std.specs.Prelude.{◌≡◌, ◌++◌, ◌^◌, ◌≤◌, decimal, OnOk, IfSome};
ghost use Rattle.zb_text.specs.Numbers.{digits_after, is_ill_begun, number_of, up_to};

use itoa::Buffer;
use std::alloc::AllocError;

/// Reads a number of at most `limit` in decimal digits, without leading zeros.
#[tactic(auto, using(crate::proofs::NumberLemmas::one_more_digit))]
pub fn number(limit: u32, word: &[u8]) -> Option<u32>
    ensures value { result ≡ number_of limit word.now }
    ensures fits { IfSome result (λ number. number ≤ limit) }
{
    if is_badly_begun(word) {
        return None;
    }
    let mut number: u64 = 0;
    for byte in word {
        if !byte.is_ascii_digit() {
            return None;
        }
        number = number * 10 + (*byte - b'0') as u64;
        if number > limit as u64 {
            return None;
        }
    }
    Some(number as u32)
}

fn is_badly_begun(word: &[u8]) -> bool
    ensures { result ≡ is_ill_begun word.now }
{
    word.is_empty() || word.len() > 1 && word[0] == b'0'
}

/// Prints a number in decimal digits.
///
/// # Errors
/// `AllocError`.
pub fn put_number(out: &mut Vec<u8>, number: u32) -> Result<(), AllocError>
    ensures { OnOk result (out.new.items ≡ out.old.items ++ decimal number) }
{
    let mut digits = Buffer::new();
    out.extend_from_slice(digits.format(number).as_bytes())?;
    Ok(())
}
