//! The rounds of the cipher, and the step from a round key to the next (FIPS 197, 5.1 and 5.2).
//!
//! The state of the cipher is a vector of its 16 bytes, column after column. Here each byte is a pair (`pairs`), in
//! the state and in the round keys.

ghost use Rattle.std.specs.Prelude.{◌≡◌, map};
ghost use Rattle.zb_aes.specs.Block.{last_round, next_key, round, shift_rows};
ghost use Rattle.zb_aes.specs.Bytes.{xored};
ghost use Rattle.zb_aes.specs.Pairs.{byte_of};

use crate::substitution::{bytes_of, substituted, substituted_and_doubled};
use std::simd::prelude::*;

// Moves row `r` of the state `r` places to the left.
#[inline(always)]
fn shifted(state: u8x16) -> u8x16
    ensures { result ≡ shift_rows state }
{
    state.swizzle([0, 5, 10, 15, 4, 9, 14, 3, 8, 13, 2, 7, 12, 1, 6, 11])
}

/// Adds a round key to the state.
#[inline(always)]
pub fn plus(state: u8x16, key: &[u8; 16]) -> u8x16
    ensures { result ≡ xored state key.now }
{
    state ^ u8x16::from_array(*key)
}

/// Makes a round before the last.
#[inline(always)]
pub fn round(state: u8x16, key: &[u8; 16]) -> u8x16
    ensures { map byte_of result ≡ round (map byte_of key.now) (map byte_of state) }
{
    let (one, two) = substituted_and_doubled(shifted(state));
    let next = one.swizzle([1, 2, 3, 0, 5, 6, 7, 4, 9, 10, 11, 8, 13, 14, 15, 12]);
    let last = one.swizzle([3, 0, 1, 2, 7, 4, 5, 6, 11, 8, 9, 10, 15, 12, 13, 14]);
    let pair = two ^ next;
    let next_pair = pair.swizzle([1, 2, 3, 0, 5, 6, 7, 4, 9, 10, 11, 8, 13, 14, 15, 12]);
    plus(pair ^ last ^ next_pair, key)
}

/// Makes the last round, which mixes no columns, and returns the bytes themselves.
#[inline(always)]
pub fn last_round(state: u8x16, key: &[u8; 16]) -> u8x16
    ensures { result ≡ last_round (map byte_of key.now) (map byte_of state) }
{
    bytes_of(plus(substituted(shifted(state)), key))
}

/// Returns the round key after this one, with the constant of its round as a pair.
#[inline(always)]
pub fn next_key(constant: u8, key: u8x16) -> u8x16
    ensures { map byte_of result ≡ next_key (byte_of constant) (map byte_of key) }
{
    let zeros = u8x16::splat(0);
    let two = key
        ^ zeros.shuffle(
            key,
            [0, 0, 0, 0, 16, 17, 18, 19, 20, 21, 22, 23, 24, 25, 26, 27],
        );
    let four = two
        ^ zeros.shuffle(
            two,
            [0, 0, 0, 0, 0, 0, 0, 0, 16, 17, 18, 19, 20, 21, 22, 23],
        );
    let turned = substituted(key).swizzle([
        13, 14, 15, 12, 13, 14, 15, 12, 13, 14, 15, 12, 13, 14, 15, 12,
    ]);
    let c = constant;
    let constants = u8x16::from_array([c, 0, 0, 0, c, 0, 0, 0, c, 0, 0, 0, c, 0, 0, 0]);
    four ^ (turned ^ constants)
}
