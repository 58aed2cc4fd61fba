//! A block as its four columns, between the vectors of the cipher and the bytes of the crates above.

ghost use Rattle.std.specs.Prelude.{◌≡◌, [], ◌∷◌, ◌++◌};
ghost use Rattle.zb_aes.specs.Bytes.{word_bytes, xored};
ghost use Rattle.zb_aes.specs.Columns.{state_bytes};

use std::simd::prelude::*;

/// A block, the state of the cipher, or a round key, as its four columns.
///
/// Each column is a word whose highest byte is the one of row 0. A contract sees the 16 bytes, column after column, by
/// `state_bytes`.
#[derive(Clone, Copy)]
pub struct State(
    /// The first column.
    pub u32,
    /// The second column.
    pub u32,
    /// The third column.
    pub u32,
    /// The fourth column.
    pub u32,
);

// Makes the word whose bytes are these, the first of them highest.
#[inline(always)]
#[tactic(auto, using(crate::proofs::Words::words))]
fn packed(a: u8, b: u8, c: u8, d: u8) -> u32
    ensures { word_bytes result ≡ a ∷ b ∷ c ∷ d ∷ [] }
{
    u32::from_be_bytes([a, b, c, d])
}

// Adds two columns.
#[inline(always)]
#[tactic(auto, using(crate::proofs::Words::words))]
fn sum(a: u32, b: u32) -> u32
    ensures { word_bytes result ≡ xored (word_bytes a) (word_bytes b) }
{
    a ^ b
}

// Returns the bytes of four words, the highest byte of each first.
#[inline(always)]
fn words(a: u32, b: u32, c: u32, d: u32) -> u8x16
    ensures { result ≡ word_bytes a ++ word_bytes b ++ word_bytes c ++ word_bytes d }
{
    u32x4::from_array([a, b, c, d])
        .to_le_bytes()
        .swizzle([3, 2, 1, 0, 7, 6, 5, 4, 11, 10, 9, 8, 15, 14, 13, 12])
}

impl State {
    /// Makes the state whose bytes these are, column after column.
    pub fn read(bytes: &[u8; 16]) -> State
        ensures { state_bytes result ≡ bytes.now }
    {
        let [a, b, c, d, e, f, g, h, i, j, k, l, m, n, o, p] = *bytes;
        State(
            packed(a, b, c, d),
            packed(e, f, g, h),
            packed(i, j, k, l),
            packed(m, n, o, p),
        )
    }

    /// Returns the bytes of the state, column after column.
    pub fn bytes(self) -> [u8; 16]
        ensures { result ≡ state_bytes self }
    {
        let [a, b, c, d] = self.0.to_be_bytes();
        let [e, f, g, h] = self.1.to_be_bytes();
        let [i, j, k, l] = self.2.to_be_bytes();
        let [m, n, o, p] = self.3.to_be_bytes();
        [a, b, c, d, e, f, g, h, i, j, k, l, m, n, o, p]
    }

    /// Returns the bytes of the state as a vector.
    #[inline(always)]
    pub fn lanes(self) -> u8x16
        ensures { result ≡ state_bytes self }
    {
        words(self.0, self.1, self.2, self.3)
    }

    /// Makes the state whose bytes a vector has.
    #[inline(always)]
    pub fn of_lanes(lanes: u8x16) -> State
        ensures { state_bytes result ≡ lanes }
    {
        let turned = lanes.swizzle([3, 2, 1, 0, 7, 6, 5, 4, 11, 10, 9, 8, 15, 14, 13, 12]);
        let [a, b, c, d] = u32x4::from_le_bytes(turned).to_array();
        State(a, b, c, d)
    }

    /// Adds two states.
    #[inline(always)]
    pub fn plus(self, key: State) -> State
        ensures { state_bytes result ≡ xored (state_bytes self) (state_bytes key) }
    {
        State(
            sum(self.0, key.0),
            sum(self.1, key.1),
            sum(self.2, key.2),
            sum(self.3, key.3),
        )
    }
}
