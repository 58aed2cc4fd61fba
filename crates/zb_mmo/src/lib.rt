//! The hash of Zigbee over AES-128 (05-3474-21, annex B.6), its keyed form (annex B.1.4), and the keys derived by it.
#![tactic(auto)]

ghost use Rattle.std.specs.Prelude.{◌≡◌, ◌≤◌, length};
ghost use Rattle.zb_mmo.specs.Hash.{hash, longest_message};
ghost use Rattle.zb_mmo.specs.Keyed.{keyed, load_key, transport_key, verify_hash, longest_keyed};

pub use pads::KeyPads;

mod blocks;
mod pads;

use blocks::{begin, finished};
use zb_base::Key;

/// Hashes a message.
///
/// Requires at most 8,191 bytes.
pub fn hash(bytes: &[u8]) -> [u8; 16]
    requires { length bytes.now ≤ longest_message }
    ensures { result ≡ hash bytes.now }
{
    match bytes.split_first_chunk::<16>() {
        Some((block, rest)) => finished(begin(block), 16, rest),
        None => finished([0; 16], 0, bytes),
    }
}

/// Hashes a message with a key.
///
/// Requires at most 8,175 bytes. Where one key serves for several hashes, make its `KeyPads` once.
pub fn keyed(key: &Key, bytes: &[u8]) -> [u8; 16]
    requires { length bytes.now ≤ longest_keyed }
    ensures { result ≡ keyed key.now.0 bytes.now }
{
    KeyPads::new(key).keyed(bytes)
}

/// Derives the key that seals the transport of a network key under this link key.
pub fn transport_key(key: &Key) -> Key
    ensures { result.0 ≡ transport_key key.now.0 }
{
    KeyPads::new(key).transport_key()
}

/// Derives the key that seals the transport of a link key under this link key.
pub fn load_key(key: &Key) -> Key
    ensures { result.0 ≡ load_key key.now.0 }
{
    KeyPads::new(key).load_key()
}

/// Computes what a node sends to prove that it knows this link key.
pub fn verify_hash(key: &Key) -> [u8; 16]
    ensures { result ≡ verify_hash key.now.0 }
{
    KeyPads::new(key).verify_hash()
}
