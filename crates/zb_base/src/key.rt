//! The 128-bit keys of the network.
ghost use Rattle.std.specs.Prelude.{◌≡◌, ◌<◌, ℕ, Some, drop, get_or, length, nat_eq, refl, take};
ghost use Rattle.std.specs.Cmp.{on_equiv, on_per, on_po, on_total, partial_equiv_from_equiv};
ghost use Rattle.std.specs.Cmp.Lexicographic.{nat_list_cmp_total, nat_list_eq_equiv, pointwise, slice_cmp, texts_po, texts_ties};
ghost use Rattle.std.specs.Int.{from_be_bytes, w64};
ghost use Rattle.std.specs.Ordering.{nat_cmp};

use std::cmp::Ordering;

/// An AES-128 key in the order of its bytes. It is a network key, a link key or a key derived from one.
///
/// Keys are compared as two numbers of 64 bits, which is the order of their bytes.
#[derive(Clone, Copy, Debug, Hash)]
pub struct Key(pub [u8; 16]);

/// The link key that everybody knows, ASCII `ZigBeeAlliance09`.
pub const WELL_KNOWN: Key = Key(*b"ZigBeeAlliance09");

impl PartialEq for Key {
    ghost eq = { λ a b. pointwise nat_eq a.0 b.0 };

    ghost laws = { on_per (λ k. k.0) (partial_equiv_from_equiv nat_list_eq_equiv) };

    fn eq(&self, other: &Key) -> bool {
        halves(self) == halves(other)
    }
}

impl Eq for Key {
    ghost laws = { on_equiv (λ k. k.0) nat_list_eq_equiv };
}

impl PartialOrd for Key {
    ghost partial_cmp = { λ a b. Some (slice_cmp nat_cmp a.0 b.0) };

    ghost laws = { on_po (λ k. k.0) texts_po };

    fn partial_cmp(&self, other: &Key) -> Option<Ordering> {
        Some(self.cmp(other))
    }
}

impl Ord for Key {
    ghost cmp = { λ a b. slice_cmp nat_cmp a.0 b.0 };

    ghost total = { on_total (λ k. k.0) nat_list_cmp_total };

    ghost matches_partial_cmp = { λ a b. refl };

    ghost matches_eq = { λ a b. texts_ties a.0 b.0 };

    fn cmp(&self, other: &Key) -> Ordering {
        halves(self).cmp(&halves(other))
    }
}

/// Returns the numbers that the two halves of a key spell, most significant byte first.
fn halves(key: &Key) -> (u64, u64)
    ensures numbers { result ≡ (from_be_bytes w64 (take 8 key.now.0), from_be_bytes w64 (drop 8 key.now.0)) }
    ensures high { (i : ℕ) → get_or (take 8 key.now.0) i 0 < 256 }
    ensures low { (i : ℕ) → get_or (drop 8 key.now.0) i 0 < 256 }
{
    (number(&key.0[..8]), number(&key.0[8..]))
}

/// Returns the number that eight bytes spell, most significant byte first.
fn number(bytes: &[u8]) -> u64
    requires { length bytes.now ≡ 8 }
    ensures value { result ≡ from_be_bytes w64 bytes.now }
    ensures bytes { (i : ℕ) → get_or bytes.now i 0 < 256 }
{
    u64::from_be_bytes([
        bytes[0], bytes[1], bytes[2], bytes[3], bytes[4], bytes[5], bytes[6], bytes[7],
    ])
}
