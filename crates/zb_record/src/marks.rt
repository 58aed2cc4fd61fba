//! Marks of numbers in a table of bytes. They tell most numbers that weren't noted from those that were.
ghost use Rattle.std.specs.Prelude.{◌≡◌, ◌+◌, if◌then◌else◌, get_or, length};
ghost use Rattle.std.specs.Int.{from_le_bytes, w64};
ghost use Rattle.zb_record.specs.Marks.{is_mark_of, key_number, link_number, mark_after, mark_of, may_have, noted, place_of, spread};

use std::alloc::{AllocError, Global};
use zb_base::{Eui, Key};

/// Makes a table of `size` bytes without a mark.
///
/// # Errors
/// `AllocError`.
pub(crate) fn no_marks(alloc: Global, size: usize) -> Result<Vec<u8>, AllocError> {
    let mut marks = Vec::with_capacity(alloc, size)?;
    marks.resize(size, 0)?;
    Ok(marks)
}

/// Returns whether a number may have been noted. If the result is false, it wasn't.
#[tactic(auto, unfolding(crate::specs::Marks::may_have))]
pub(crate) fn may_have(marks: &[u8], number: u64) -> bool
    ensures { result ≡ may_have marks.now number }
{
    is_mark_of(mark_at(marks, place_of(marks.len(), number)), number)
}

/// Notes a number.
#[tactic(auto, unfolding(crate::specs::Marks::noted))]
pub(crate) fn note(marks: &mut [u8], number: u64)
    ensures { marks.new ≡ noted marks.old number }
{
    let at = place_of(marks.len(), number);
    if at < marks.len() {
        marks[at] = mark_after(marks[at], number);
    }
}

/// Returns the number of a key.
#[tactic(auto, unfolding(crate::specs::Marks::key_number))]
pub(crate) fn key_number(key: &Key) -> u64
    ensures { result ≡ key_number key.now.0 }
{
    spread(half_number(&key.0[..8]).wrapping_add(half_number(&key.0[8..])))
}

/// Returns the number of a partner and of two bits about its row.
#[tactic(auto, unfolding(crate::specs::Marks::link_number))]
pub(crate) fn link_number(partner: Eui, unverified: bool, told: bool) -> u64
    ensures { result ≡ link_number partner.0 unverified told }
{
    spread(
        partner
            .0
            .wrapping_mul(4)
            .wrapping_add(answers(unverified, told)),
    )
}

/// Returns the number of two bits.
fn answers(unverified: bool, told: bool) -> u64
    ensures { result ≡ (if unverified then 2 else 0) + (if told then 1 else 0) }
{
    let first = if unverified { 2 } else { 0 };
    let second = if told { 1 } else { 0 };
    first + second
}

/// Returns the number that eight bytes spell, least significant byte first.
fn half_number(bytes: &[u8]) -> u64
    requires { length bytes.now ≡ 8 }
    ensures { result ≡ from_le_bytes w64 bytes.now }
{
    u64::from_le_bytes([
        bytes[0], bytes[1], bytes[2], bytes[3], bytes[4], bytes[5], bytes[6], bytes[7],
    ])
}

/// Spreads numbers that differ in few places far apart.
#[tactic(auto, unfolding(crate::specs::Marks::spread))]
fn spread(number: u64) -> u64
    ensures { result ≡ spread number }
{
    number.wrapping_mul(11_400_714_819_323_198_485)
}

/// Returns the place, among `size` bytes, at which a number is marked.
#[tactic(auto, unfolding(crate::specs::Marks::place_of))]
fn place_of(size: usize, number: u64) -> usize
    ensures { result ≡ place_of size number }
{
    ((number / 4_294_967_296).wrapping_mul(size as u64) / 4_294_967_296) as usize
}

/// Returns the mark of a number.
#[tactic(auto, unfolding(crate::specs::Marks::mark_of))]
fn mark_of(number: u64) -> u8
    ensures { result ≡ mark_of number }
{
    (number % 128) as u8 + 2
}

/// Returns whether a mark may be there for a number.
#[tactic(auto, unfolding(crate::specs::Marks::is_mark_of))]
fn is_mark_of(mark: u8, number: u64) -> bool
    ensures { result ≡ is_mark_of mark number }
{
    mark == 1 || mark == mark_of(number)
}

/// Returns the mark that replaces another when a number is noted.
#[tactic(auto, unfolding(crate::specs::Marks::mark_after))]
fn mark_after(mark: u8, number: u64) -> u8
    ensures { result ≡ mark_after mark number }
{
    if mark == 0 { mark_of(number) } else { 1 }
}

/// Returns the mark at a place, or the mark of all numbers if the table ends before it.
fn mark_at(marks: &[u8], at: usize) -> u8
    ensures { result ≡ get_or marks.now at 1 }
{
    match marks.get(at) {
        Some(mark) => *mark,
        None => 1,
    }
}
