//! The substitution of sixteen bytes at once (FIPS 197, 5.1.1), with no address and no branch that depends on them.
//!
//! A byte is a pair of elements of the field of 16 elements, after a change of basis. In such a pair the inverse of a
//! byte needs inverses in the small field alone, and a table of the small field has 16 bytes. A shuffle of a vector
//! reads such a table at 16 places at once, and takes the same time for all places.
//!
//! The inverse of 0 is written as 0x80. A shuffle gives 0 for it and for its sum with an element, as the inverse of
//! what has no bound is 0.

ghost use Rattle.std.specs.Prelude.{◌≡◌, ◌/◌, bit_and, map};
ghost use Rattle.zb_aes.specs.Field.{substitute, times};
ghost use Rattle.zb_aes.specs.Pairs.{byte_of, first_inverse, second_inverse};

use std::simd::prelude::*;

/// The inverses in the field of 16 elements.
const INVERSES: [u8; 16] = [
    0x80, 0x01, 0x08, 0x0d, 0x0f, 0x06, 0x05, 0x0e, 0x02, 0x0c, 0x0b, 0x0a, 0x09, 0x03, 0x07, 0x04,
];

/// The inverses in the field of 16 elements, times the constant of the larger field.
const SCALED: [u8; 16] = [
    0x80, 0x07, 0x0b, 0x0f, 0x06, 0x0a, 0x04, 0x01, 0x09, 0x08, 0x05, 0x02, 0x0c, 0x0e, 0x0d, 0x03,
];

/// What the four low bits of a byte add to its pair.
const LOW_BITS: [u8; 16] = [
    0x00, 0x70, 0x2a, 0x5a, 0x98, 0xe8, 0xb2, 0xc2, 0x08, 0x78, 0x22, 0x52, 0x90, 0xe0, 0xba, 0xca,
];

/// What the four high bits of a byte add to its pair.
const HIGH_BITS: [u8; 16] = [
    0x00, 0x4d, 0x7c, 0x31, 0x7d, 0x30, 0x01, 0x4c, 0x81, 0xcc, 0xfd, 0xb0, 0xfc, 0xb1, 0x80, 0xcd,
];

/// What the second element of a pair adds to its byte.
const LOW_PAIRS: [u8; 16] = [
    0x00, 0x60, 0xb6, 0xd6, 0x29, 0x49, 0x9f, 0xff, 0x08, 0x68, 0xbe, 0xde, 0x21, 0x41, 0x97, 0xf7,
];

/// What the first element of a pair adds to its byte.
const HIGH_PAIRS: [u8; 16] = [
    0x00, 0xec, 0xbc, 0x50, 0x51, 0xbd, 0xed, 0x01, 0xe0, 0x0c, 0x5c, 0xb0, 0xb1, 0x5d, 0x0d, 0xe1,
];

/// What the first inverse adds to the pair of a substituted byte.
const FIRST: [u8; 16] = [
    0x00, 0x3e, 0x50, 0xcb, 0x8f, 0xe1, 0x9b, 0xb1, 0x44, 0xf5, 0x2a, 0x14, 0x6e, 0x7a, 0xdf, 0xa5,
];

/// What the second inverse adds to the pair of a substituted byte.
const SECOND: [u8; 16] = [
    0x00, 0x23, 0xe2, 0xfa, 0x15, 0xd4, 0x18, 0x36, 0xef, 0xd9, 0x2e, 0x0d, 0xc1, 0xcc, 0xf7, 0x3b,
];

/// What the first inverse adds to the pair of a substituted byte times {02}.
const FIRST_DOUBLED: [u8; 16] = [
    0x00, 0x24, 0x71, 0x0b, 0xc6, 0x93, 0x7a, 0xe2, 0xcd, 0x2f, 0x98, 0xbc, 0x55, 0xe9, 0xb7, 0x5e,
];

/// What the second inverse adds to the pair of a substituted byte times {02}.
const SECOND_DOUBLED: [u8; 16] = [
    0x00, 0x29, 0xe1, 0x0a, 0x40, 0x88, 0xeb, 0x69, 0x4a, 0x23, 0x82, 0xab, 0xc8, 0x63, 0xa1, 0xc2,
];

// Returns the four low bits of each byte.
#[inline(always)]
fn low_bits(bytes: u8x16) -> u8x16
    ensures { result ≡ map (λ byte. bit_and byte 15) bytes }
{
    bytes & u8x16::splat(15)
}

// Returns the four high bits of each byte.
#[inline(always)]
fn high_bits(bytes: u8x16) -> u8x16
    ensures { result ≡ map (λ byte. byte / 16) bytes }
{
    bytes >> u8x16::splat(4)
}

/// Writes each byte as a pair, the second element in its low bits.
#[inline(always)]
pub fn pairs(bytes: u8x16) -> u8x16
    ensures { map byte_of result ≡ bytes }
{
    u8x16::from_array(LOW_BITS).swizzle_dyn(low_bits(bytes))
        ^ u8x16::from_array(HIGH_BITS).swizzle_dyn(high_bits(bytes))
}

/// Returns the byte of each pair.
#[inline(always)]
pub fn bytes_of(pairs: u8x16) -> u8x16
    ensures { result ≡ map byte_of pairs }
{
    u8x16::from_array(LOW_PAIRS).swizzle_dyn(low_bits(pairs))
        ^ u8x16::from_array(HIGH_PAIRS).swizzle_dyn(high_bits(pairs))
}

// Returns what the two elements of the inverse of each pair have as their inverses.
#[inline(always)]
fn inverses(pairs: u8x16) -> (u8x16, u8x16)
    ensures first { result.0 ≡ map first_inverse pairs }
    ensures second { result.1 ≡ map second_inverse pairs }
{
    let table = u8x16::from_array(INVERSES);
    let first = high_bits(pairs);
    let second = low_bits(pairs);
    let sum = first ^ second;
    let scaled = u8x16::from_array(SCALED).swizzle_dyn(second);
    let of_first = table.swizzle_dyn(first) ^ scaled;
    let of_sum = table.swizzle_dyn(sum) ^ scaled;
    (
        table.swizzle_dyn(of_first) ^ sum,
        table.swizzle_dyn(of_sum) ^ first,
    )
}

/// Substitutes the byte of each pair.
#[inline(always)]
pub fn substituted(pairs: u8x16) -> u8x16
    ensures { map byte_of result ≡ map substitute (map byte_of pairs) }
{
    let (first, second) = inverses(pairs);
    let linear = u8x16::from_array(FIRST).swizzle_dyn(first)
        ^ u8x16::from_array(SECOND).swizzle_dyn(second);
    linear ^ u8x16::splat(0x5b)
}

/// Substitutes the byte of each pair, and gives each substituted byte times {02} too.
#[inline(always)]
pub fn substituted_and_doubled(pairs: u8x16) -> (u8x16, u8x16)
    ensures substituted { map byte_of result.0 ≡ map substitute (map byte_of pairs) }
    ensures doubled { map byte_of result.1 ≡ map (λ byte. times 2 (substitute byte)) (map byte_of pairs) }
{
    let (first, second) = inverses(pairs);
    let linear = u8x16::from_array(FIRST).swizzle_dyn(first)
        ^ u8x16::from_array(SECOND).swizzle_dyn(second);
    let doubled = u8x16::from_array(FIRST_DOUBLED).swizzle_dyn(first)
        ^ u8x16::from_array(SECOND_DOUBLED).swizzle_dyn(second);
    (linear ^ u8x16::splat(0x5b), doubled ^ u8x16::splat(0x4e))
}
