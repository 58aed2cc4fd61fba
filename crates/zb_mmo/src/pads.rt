//! A key whose two pad blocks were hashed once, for any number of keyed hashes.

ghost use Rattle.std.specs.Prelude.{◌≡◌, ◌≤◌, length, map, bit_xor};
ghost use Rattle.zb_mmo.specs.Keyed.{keyed, load_key, transport_key, verify_hash, longest_keyed};

use crate::blocks::{begin, finished};
use std::marker::Model;
use zb_base::Key;

/// A key with the values of its inner and its outer pad.
///
/// A contract sees it as its key of 16 bytes.
#[derive(Drop)]
pub struct KeyPads {
    key: Key,
    inner: [u8; 16],
    outer: [u8; 16],
}

impl Model for KeyPads {
    ghost use Rattle.std.specs.Prelude.{◌≡◌, ℕ, List, length, replicate};
    ghost use Rattle.zb_mmo.specs.Hash.{mixed};
    ghost use Rattle.zb_mmo.specs.Keyed.{inner_pad, outer_pad};

    ghost Value = { List ℕ };

    ghost view = { λ pads. pads.key.0 };

    ghost invariant = { λ pads. (pads.inner ≡ mixed (replicate 16 0) (inner_pad pads.key.0))
        × (pads.outer ≡ mixed (replicate 16 0) (outer_pad pads.key.0)) × (length pads.key.0 ≡ 16) };
}

// Adds `other` to each byte.
fn padded_with(key: &[u8; 16], other: u8) -> [u8; 16]
    ensures { result ≡ map (λ b. bit_xor b other) key.now }
{
    let mut pad = [0; 16];
    for i in 0..16 {
        pad[i] = key[i] ^ other;
    }
    pad
}

impl KeyPads {
    /// Hashes the two pad blocks of a key.
    pub fn new(key: &Key) -> KeyPads
        ensures { result ≡ key.now.0 }
    {
        KeyPads {
            key: *key,
            inner: begin(&padded_with(&key.0, 0x36)),
            outer: begin(&padded_with(&key.0, 0x5c)),
        }
    }

    /// Hashes a message with the key.
    ///
    /// Requires at most 8,175 bytes.
    pub fn keyed(&self, bytes: &[u8]) -> [u8; 16]
        requires { length bytes.now ≤ longest_keyed }
        ensures { result ≡ keyed self.now bytes.now }
    {
        finished(self.outer, 16, &finished(self.inner, 16, bytes))
    }

    /// Derives the key that seals the transport of a network key.
    pub fn transport_key(&self) -> Key
        ensures { result.0 ≡ transport_key self.now }
    {
        Key(self.keyed(&[0]))
    }

    /// Derives the key that seals the transport of a link key.
    pub fn load_key(&self) -> Key
        ensures { result.0 ≡ load_key self.now }
    {
        Key(self.keyed(&[2]))
    }

    /// Computes what a node sends to prove that it knows the key.
    pub fn verify_hash(&self) -> [u8; 16]
        ensures { result ≡ verify_hash self.now }
    {
        self.keyed(&[3])
    }
}
