//! The blocks of a padded message, one after the other.

ghost use Rattle.std.specs.Prelude.{◌≡◌, ◌+◌, ◌-◌, ◌*◌, ◌%◌, ◌<◌, ◌≤◌, ◌∷◌, ◌++◌, length, take, replicate};
ghost use Rattle.std.specs.Int.{w16, to_be_bytes};
ghost use Rattle.zb_mmo.specs.Hash.{blocks_of, mixed, mixed_all, padding, zeros, longest_message};

use zb_aes::{Cipher, State, encrypt_under_zeros};

/// Returns the value after the first block of a message, before which it is 16 zeros.
pub fn begin(block: &[u8; 16]) -> [u8; 16]
    ensures { result ≡ mixed (replicate 16 0) block.now }
{
    let block = State::read(block);
    encrypt_under_zeros(block).plus(block).bytes()
}

/// Returns the value after a block.
pub fn mix(value: &[u8; 16], block: &[u8; 16]) -> [u8; 16]
    ensures { result ≡ mixed value.now block.now }
{
    let block = State::read(block);
    Cipher::new(value).encrypt_state(block).plus(block).bytes()
}

// Fills fewer than 16 bytes up, with the bit that begins the padding and zeros.
fn marked(bytes: &[u8]) -> [u8; 16]
    requires { length bytes.now < 16 }
    ensures { result ≡ bytes.now ++ 0x80 ∷ replicate (15 - length bytes.now) 0 }
{
    let mut block = [0; 16];
    block[..bytes.len()].copy_from_slice(bytes);
    block[bytes.len()] = 0x80;
    block
}

// Ends a block with a number of bits.
fn ended(block: &[u8; 16], bits: u16) -> [u8; 16]
    ensures { result ≡ take 14 block.now ++ to_be_bytes w16 bits }
{
    let [a, b, c, d, e, f, g, h, i, j, k, l, m, n, _, _] = *block;
    let [high, low] = bits.to_be_bytes();
    [a, b, c, d, e, f, g, h, i, j, k, l, m, n, high, low]
}

// Returns the value after the bytes that fill no block and the padding.
fn padded_end(value: &[u8; 16], bytes: &[u8], bits: u16) -> [u8; 16]
    requires { length bytes.now < 16 }
    ensures { result ≡ mixed_all value.now
        (blocks_of (bytes.now ++ (0x80 ∷ replicate (zeros (length bytes.now)) 0 ++ to_be_bytes w16 bits))) }
{
    let block = marked(bytes);
    if bytes.len() < 14 {
        mix(value, &ended(&block, bits))
    } else {
        mix(&mix(value, &block), &ended(&[0; 16], bits))
    }
}

/// Returns the value after the end of a message and its padding.
///
/// Requires that the `before` bytes that led to `value` are whole blocks, and at most 8,191 bytes in all.
pub fn finished(value: [u8; 16], before: usize, bytes: &[u8]) -> [u8; 16]
    requires whole { before % 16 ≡ 0 }
    requires fits { before + length bytes.now ≤ longest_message }
    ensures { result ≡ mixed_all value (blocks_of (bytes.now ++ padding (before + length bytes.now))) }
{
    let mut value = value;
    let count = bytes.len() / 16;
    for i in 0..count {
        let mut block = [0; 16];
        block.copy_from_slice(&bytes[16 * i..16 * i + 16]);
        let next = mix(&value, &block);
        value = next;
    }
    padded_end(
        &value,
        &bytes[16 * count..],
        (8 * (before + bytes.len())) as u16,
    )
}
