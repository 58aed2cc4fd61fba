//! The MIC of a message: cipher block chaining over all that is authenticated, enciphered (RFC 3610, 2.2 and 2.3).

ghost use Rattle.std.specs.Prelude.{◌≡◌, ◌≤◌, ◌<◌, length, take};
ghost use Rattle.zb_aes.specs.Columns.{state_bytes};
ghost use Rattle.zb_ccm.specs.Blocks.{block_at, blocks_of, chain};
ghost use Rattle.zb_ccm.specs.Ccm.{mic_of, with_length, flags, longest_text};

use crate::blocks::{block_of, filled, numbered};
use crate::keystream::stream_block_of;
use zb_aes::{Cipher, State};

// Chains the blocks of the bytes to a value.
fn chained_bytes(cipher: &Cipher, start: State, bytes: &[u8]) -> State
    ensures { state_bytes result ≡ chain cipher.now (state_bytes start) (blocks_of bytes.now) }
{
    let mut value = start;
    for i in 0..bytes.len().div_ceil(16) {
        let next = cipher.encrypt_state(value.plus(block_of(&bytes[16 * i..])));
        value = next;
    }
    value
}

// Makes the first block of the authenticated data, which begins with their length.
fn first_associated(associated: &[u8]) -> State
    requires some { 0 < length associated.now }
    requires fits { length associated.now < longest_text }
    ensures { state_bytes result ≡ block_at (with_length associated.now) 0 }
{
    let [high, low] = (associated.len() as u16).to_be_bytes();
    let [a, b, c, d, e, f, g, h, i, j, k, l, m, n, _, _] = filled(associated);
    State::read(&[high, low, a, b, c, d, e, f, g, h, i, j, k, l, m, n])
}

// Chains the authenticated data to a value.
fn chained_associated(cipher: &Cipher, value: State, associated: &[u8]) -> State
    requires { length associated.now < longest_text }
    ensures { state_bytes result ≡ chain cipher.now (state_bytes value) (blocks_of (with_length associated.now)) }
{
    if associated.is_empty() {
        return value;
    }
    let first = cipher.encrypt_state(value.plus(first_associated(associated)));
    chained_bytes(cipher, first, &associated[associated.len().min(14)..])
}

// Returns the flags of the first block.
fn flags_of(associated: &[u8], size: u8) -> u8
    requires low { 2 ≤ size }
    requires high { size ≤ 16 }
    ensures { result ≡ flags associated.now size }
{
    let sizes = 8 * ((size - 2) / 2) + 1;
    if associated.is_empty() {
        sizes
    } else {
        64 + sizes
    }
}

/// Computes the MIC of a message and the data authenticated with it: its first `size` bytes count.
pub fn compute_mic(
    cipher: &Cipher,
    nonce: &[u8; 13],
    associated: &[u8],
    message: &[u8],
    size: u8,
) -> [u8; 16]
    requires associated_fits { length associated.now < longest_text }
    requires message_fits { length message.now < longest_text }
    requires low { 2 ≤ size }
    requires high { size ≤ 16 }
    ensures { take size result ≡ mic_of cipher.now nonce.now associated.now message.now size }
{
    let first = numbered(flags_of(associated, size), nonce, message.len() as u16);
    let start = cipher.encrypt_state(first);
    let value = chained_bytes(
        cipher,
        chained_associated(cipher, start, associated),
        message,
    );
    value.plus(stream_block_of(cipher, nonce, 0)).bytes()
}
