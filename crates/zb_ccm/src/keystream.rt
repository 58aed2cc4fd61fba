//! The key stream, which is added to a text (RFC 3610, 2.3).

ghost use Rattle.std.specs.Prelude.{◌≡◌, ◌<◌, ◌≤◌, length};
ghost use Rattle.zb_aes.specs.Columns.{state_bytes};
ghost use Rattle.zb_ccm.specs.Blocks.{block_count};
ghost use Rattle.zb_ccm.specs.Ccm.{crypted, stream, stream_block, longest_text};

use crate::blocks::{add, numbered};
use zb_aes::{Cipher, State};

/// Makes a block of the key stream.
#[tactic(auto, unfolding(crate::specs::Ccm::stream_block))]
pub fn stream_block_of(cipher: &Cipher, nonce: &[u8; 13], number: u16) -> State
    ensures { state_bytes result ≡ stream_block cipher.now nonce.now number }
{
    cipher.encrypt_state(numbered(1, nonce, number))
}

/// Turns a message into its cipher text, and a cipher text into its message.
pub fn crypt(cipher: &Cipher, nonce: &[u8; 13], text: &mut [u8])
    requires { length text.old < longest_text }
    ensures crypts { text.new ≡ crypted cipher.now nonce.now text.old }
    ensures covers { length text.old ≤ length (stream cipher.now nonce.now (block_count (length text.old))) }
{
    let len = text.len();
    for i in 0..len.div_ceil(16) {
        let block = stream_block_of(cipher, nonce, (i + 1) as u16);
        add(&mut text[16 * i..len.min(16 * i + 16)], block);
    }
}
