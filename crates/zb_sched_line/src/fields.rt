//! The words of a schedule beside those that all texts share.

ghost use Rattle.std.specs.Prelude.{◌≡◌, ◌<◌, ◌≤◌, ◌^◌, length, codes, IfSome, IsTrue};
ghost use Rattle.hex.specs.Hex.{IsBytes};
ghost use Rattle.zb_text.specs.Words.{field, left, nothing, Takes};
ghost use Rattle.zb_text.specs.Hexadecimal.{bytes_of};
ghost use Rattle.zb_text.specs.Numbers.{number_of};
ghost use Rattle.zb_sched_line.specs.Fits.{IsApsLabel};
ghost use Rattle.zb_sched_line.specs.Grammar.{is_real_eui, aps_label_of, is_aps_label, literal, number_from, real_eui_of, rejoin_of, some_bytes_of};

use arrayvec::ArrayVec;
use zb_base::{Eui, Label};
use zb_text::words::Words;

/// Takes a number from `low` to `high`.
pub fn number_between(words: &mut Words, low: u32, high: u32) -> Option<u32>
    ensures value { Takes (λ number. number) result (left words.new) (field (number_from low high) (left words.old)) }
    ensures fits { IfSome result (λ number. (low ≤ number) × (number ≤ high)) }
{
    let number = words.number(high)?;
    if low <= number { Some(number) } else { None }
}

/// Takes a number up to `limit`, which fits a byte.
pub fn byte(words: &mut Words, limit: u8) -> Option<u8>
    ensures value { Takes (λ number. number) result (left words.new) (field (number_of limit) (left words.old)) }
    ensures fits { IfSome result (λ number. number ≤ limit) }
{
    let number = words.number(limit as u32)?;
    Some(number as u8)
}

/// Takes an EUI that a node can have: not all 0, nor all F.
pub fn real_eui(words: &mut Words) -> Option<Eui>
    ensures value { Takes (λ eui. eui.0) result (left words.new) (field real_eui_of (left words.old)) }
    ensures fits { IfSome result (λ eui. (eui.0 < 2 ^ 64) × IsTrue (is_real_eui eui.0)) }
{
    let eui = words.eui()?;
    if is_real_eui(eui) { Some(eui) } else { None }
}

fn is_real_eui(eui: Eui) -> bool
    ensures { result ≡ is_real_eui eui.0 }
{
    eui.0 != 0 && eui.0 != u64::MAX
}

/// Takes at least one byte, and at most `N`.
pub fn some_bytes<const N: usize>(words: &mut Words) -> Option<ArrayVec<u8, N>>
    ensures value { Takes (λ bytes. bytes.items) result (left words.new) (field (some_bytes_of N) (left words.old)) }
    ensures fits { IfSome result (λ bytes. (0 < length bytes.items) × (length bytes.items ≤ N) × IsBytes bytes.items) }
{
    let bytes = words.bytes::<N>()?;
    if 0 < bytes.len() { Some(bytes) } else { None }
}

/// Takes one certain word.
pub fn keyword(words: &mut Words, expected: &[u8]) -> Option<()>
    ensures { Takes (λ nothing. nothing) result (left words.new) (field (literal expected.now) (left words.old)) }
{
    let word = words.word()?;
    if word == expected { Some(()) } else { None }
}

/// Takes `data`, `transport` or `load`, the key identifiers of an APS command.
pub fn aps_label(words: &mut Words) -> Option<Label>
    ensures value { Takes (λ label. label) result (left words.new) (field aps_label_of (left words.old)) }
    ensures fits { IfSome result IsApsLabel }
{
    let label = words.label()?;
    if is_aps_label(label) {
        Some(label)
    } else {
        None
    }
}

fn is_aps_label(label: Label) -> bool
    ensures { result ≡ is_aps_label label }
{
    match label {
        Label::Network => false,
        Label::Data | Label::Transport | Label::Load => true,
    }
}

/// Takes `join`, which is false, or `rejoin`, which is true.
pub fn rejoin(words: &mut Words) -> Option<bool>
    ensures { Takes (λ rejoin. rejoin) result (left words.new) (field rejoin_of (left words.old)) }
{
    let word = words.word()?;
    if word == b"join".as_slice() {
        Some(false)
    } else if word == b"rejoin".as_slice() {
        Some(true)
    } else {
        None
    }
}
