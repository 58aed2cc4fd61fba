//! AES-128 of FIPS 197, in its forward direction, which is all that CCM* and the hash of Zigbee need.
//!
//! `encrypt` takes a key for one block; a `Cipher` holds a key with its round keys, for many. A chain of blocks goes
//! by `State`, so that no block between two steps is written out as bytes.
#![tactic(auto)]

ghost use Rattle.std.specs.Prelude.{◌≡◌};
ghost use Rattle.zb_aes.specs.Block.{enciphered};
ghost use Rattle.zb_aes.specs.Bytes.{xored};

pub use schedule::{Cipher, encrypt_under_zeros};
pub use state::State;

mod rounds;
mod schedule;
mod state;
mod substitution;

/// Enciphers one block of 16 bytes.
///
/// Where several blocks have one key, make a `Cipher` of it once.
pub fn encrypt(key: &[u8; 16], block: &[u8; 16]) -> [u8; 16]
    ensures { result ≡ enciphered key.now block.now }
{
    Cipher::new(key).encrypt(block)
}

/// Adds two blocks, byte by byte.
pub fn sum(a: &[u8; 16], b: &[u8; 16]) -> [u8; 16]
    ensures { result ≡ xored a.now b.now }
{
    let mut sum = [0; 16];
    for i in 0..16 {
        sum[i] = a[i] ^ b[i];
    }
    sum
}
