//! A key with its round keys (FIPS 197, 5.2).

ghost use Rattle.std.specs.Prelude.{◌≡◌, replicate};
ghost use Rattle.zb_aes.specs.Block.{enciphered};
ghost use Rattle.zb_aes.specs.Columns.{key_at, state_bytes, AreRoundKeys};

use crate::rounds::{last_round, next_key, plus, round};
use crate::state::State;
use crate::substitution::pairs;
use std::marker::Model;
use std::simd::prelude::*;

/// The constants of the rounds from 1 on, as pairs.
static CONSTANTS: [u8; 10] = [0x70, 0x2a, 0x98, 0x08, 0x4d, 0x7c, 0x7d, 0x81, 0x1f, 0x83];

/// A key that was expanded once, for any number of blocks.
///
/// A contract sees it as its key of 16 bytes.
#[derive(Drop)]
pub struct Cipher {
    keys: [[u8; 16]; 11],
}

impl Model for Cipher {
    ghost use Rattle.std.specs.Prelude.{ℕ, List};
    ghost use Rattle.zb_aes.specs.Columns.{key_at, AreRoundKeys};

    ghost Value = { List ℕ };

    ghost view = { λ c. key_at c.keys 0 };

    ghost invariant = { λ c. AreRoundKeys 11 c.keys };
}

impl Cipher {
    /// Expands a key.
    pub fn new(key: &[u8; 16]) -> Cipher
        ensures { result ≡ key.now }
    {
        let mut last = pairs(u8x16::from_array(*key));
        let mut keys = [last.to_array(); 11];
        for i in 0..10 {
            last = next_key(CONSTANTS[i], last);
            keys[i + 1] = last.to_array();
        }
        Cipher { keys }
    }

    /// Enciphers one block of 16 bytes.
    pub fn encrypt(&self, block: &[u8; 16]) -> [u8; 16]
        ensures { result ≡ enciphered self.now block.now }
    {
        self.encrypt_state(State::read(block)).bytes()
    }

    /// Enciphers a block that is held as four columns.
    pub fn encrypt_state(&self, block: State) -> State
        ensures { state_bytes result ≡ enciphered self.now (state_bytes block) }
    {
        encrypt_by(&self.keys, block)
    }
}

/// The round keys of the key of 16 zeros, as pairs.
static ZERO_KEYS: [[u8; 16]; 11] = [
    [0; 16],
    [
        0x2b, 0x5b, 0x5b, 0x5b, 0x2b, 0x5b, 0x5b, 0x5b, 0x2b, 0x5b, 0x5b, 0x5b, 0x2b, 0x5b, 0x5b,
        0x5b,
    ],
    [
        0x9e, 0xc4, 0xc4, 0x84, 0xb5, 0x9f, 0x9f, 0xdf, 0x9e, 0xc4, 0xc4, 0x84, 0xb5, 0x9f, 0x9f,
        0xdf,
    ],
    [
        0xcc, 0x0e, 0xa9, 0x30, 0x79, 0x91, 0x36, 0xef, 0xe7, 0x55, 0xf2, 0x6b, 0x52, 0xca, 0x6d,
        0xb4,
    ],
    [
        0x3a, 0xb2, 0x93, 0x1e, 0x43, 0x23, 0xa5, 0xf1, 0xa4, 0x76, 0x57, 0x9a, 0xf6, 0xbc, 0x3a,
        0x2e,
    ],
    [
        0x86, 0xc6, 0x2e, 0x89, 0xc5, 0xe5, 0x8b, 0x78, 0x61, 0x93, 0xdc, 0xe2, 0x97, 0x2f, 0xe6,
        0xcc,
    ],
    [
        0x10, 0x71, 0x2f, 0x69, 0xd5, 0x94, 0xa4, 0x11, 0xb4, 0x07, 0x78, 0xf3, 0x23, 0x28, 0x9e,
        0x3f,
    ],
    [
        0x0c, 0xa4, 0x8f, 0x43, 0xd9, 0x30, 0x2b, 0x52, 0x6d, 0x37, 0x53, 0xa1, 0x4e, 0x1f, 0xcd,
        0x9e,
    ],
    [
        0xba, 0xb5, 0x5a, 0x6b, 0x63, 0x85, 0x71, 0x39, 0x0e, 0xb2, 0x22, 0x98, 0x40, 0xad, 0xef,
        0x06,
    ],
    [
        0xc0, 0x29, 0xb9, 0xaa, 0xa3, 0xac, 0xc8, 0x93, 0xad, 0x1e, 0xea, 0x0b, 0xed, 0xb3, 0x05,
        0x0d,
    ],
    [
        0x28, 0x4a, 0x62, 0xae, 0x8b, 0xe6, 0xaa, 0x3d, 0x26, 0xf8, 0x40, 0x36, 0xcb, 0x4b, 0x45,
        0x3b,
    ],
];

/// Enciphers one block under the key of 16 zeros, whose round keys are known beforehand.
pub fn encrypt_under_zeros(block: State) -> State
    ensures { state_bytes result ≡ enciphered (replicate 16 0) (state_bytes block) }
{
    encrypt_by(&ZERO_KEYS, block)
}

// Enciphers a block by the round keys of the first of them.
fn encrypt_by(keys: &[[u8; 16]; 11], block: State) -> State
    requires { AreRoundKeys 11 keys.now }
    ensures { state_bytes result ≡ enciphered (key_at keys.now 0) (state_bytes block) }
{
    let state = plus(pairs(block.lanes()), &keys[0]);
    let state = round(state, &keys[1]);
    let state = round(state, &keys[2]);
    let state = round(state, &keys[3]);
    let state = round(state, &keys[4]);
    let state = round(state, &keys[5]);
    let state = round(state, &keys[6]);
    let state = round(state, &keys[7]);
    let state = round(state, &keys[8]);
    let state = round(state, &keys[9]);
    State::of_lanes(last_round(state, &keys[10]))
}
