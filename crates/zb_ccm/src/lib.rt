//! CCM*, the authenticated encryption of Zigbee (05-3474-21, annex A), with a nonce of 13 bytes and MICs of 4 bytes.
//! With MICs of 8 bytes it is the CCM of RFC 3610, whose packets serve as its test.
//!
//! Each call comes in two forms: with a key, and with a `Cipher` that was made of the key once.
#![tactic(auto)]

ghost use Rattle.std.specs.Prelude.{◌≡◌, ◌<◌, length, Some, None, OnOk, OnErr};
ghost use Rattle.zb_ccm.specs.Ccm.{sealed, opens, longest_text};

mod blocks;
mod chaining;
mod keystream;
mod laws;
mod opening;

use chaining::compute_mic;
use keystream::crypt;
pub use laws::{a_sealed_message_opens, what_opens_was_sealed};
use opening::{COPIED, open_copy, open_in_place};
use zb_aes::Cipher;
use zb_base::Key;

/// The fault of a MIC that isn't the one that key, nonce, authenticated data and message give.
#[derive(Clone, Copy, Debug, PartialEq, Eq)]
pub struct BadMic;

/// Replaces `message` by its cipher text, and returns its MIC of 4 bytes.
///
/// Requires fewer than 65,280 bytes of message and of authenticated data each.
pub fn seal(key: &Key, nonce: &[u8; 13], associated: &[u8], message: &mut [u8]) -> [u8; 4]
    requires associated_fits { length associated.now < longest_text }
    requires message_fits { length message.old < longest_text }
    ensures { record { text = message.new; mic = result }
        ≡ sealed key.now.0 nonce.now associated.now message.old 4 }
{
    seal_with(&Cipher::new(&key.0), nonce, associated, message)
}

/// Replaces `message` by its cipher text, and returns its MIC of 8 bytes, as in RFC 3610.
///
/// Requires fewer than 65,280 bytes of message and of authenticated data each.
pub fn seal8(key: &Key, nonce: &[u8; 13], associated: &[u8], message: &mut [u8]) -> [u8; 8]
    requires associated_fits { length associated.now < longest_text }
    requires message_fits { length message.old < longest_text }
    ensures { record { text = message.new; mic = result }
        ≡ sealed key.now.0 nonce.now associated.now message.old 8 }
{
    seal8_with(&Cipher::new(&key.0), nonce, associated, message)
}

/// Replaces `text` by the message that it holds.
///
/// Requires fewer than 65,280 bytes of text and of authenticated data each.
///
/// # Errors
/// `BadMic` where `mic` isn't the MIC of that message; `text` then stays as it was.
pub fn open(
    key: &Key,
    nonce: &[u8; 13],
    associated: &[u8],
    text: &mut [u8],
    mic: &[u8; 4],
) -> Result<(), BadMic>
    requires associated_fits { length associated.now < longest_text }
    requires text_fits { length text.old < longest_text }
    ensures opened { OnOk result (opens key.now.0 nonce.now associated.now text.old mic.now ≡ Some text.new) }
    ensures refused { OnErr result (opens key.now.0 nonce.now associated.now text.old mic.now ≡ None) }
    ensures kept { OnErr result (text.new ≡ text.old) }
{
    open_with(&Cipher::new(&key.0), nonce, associated, text, mic)
}

/// Seals as `seal` does, with a key that was expanded before.
pub fn seal_with(
    cipher: &Cipher,
    nonce: &[u8; 13],
    associated: &[u8],
    message: &mut [u8],
) -> [u8; 4]
    requires associated_fits { length associated.now < longest_text }
    requires message_fits { length message.old < longest_text }
    ensures { record { text = message.new; mic = result }
        ≡ sealed cipher.now nonce.now associated.now message.old 4 }
{
    let mic = compute_mic(cipher, nonce, associated, message, 4);
    crypt(cipher, nonce, message);
    [mic[0], mic[1], mic[2], mic[3]]
}

/// Seals as `seal8` does, with a key that was expanded before.
pub fn seal8_with(
    cipher: &Cipher,
    nonce: &[u8; 13],
    associated: &[u8],
    message: &mut [u8],
) -> [u8; 8]
    requires associated_fits { length associated.now < longest_text }
    requires message_fits { length message.old < longest_text }
    ensures { record { text = message.new; mic = result }
        ≡ sealed cipher.now nonce.now associated.now message.old 8 }
{
    let mic = compute_mic(cipher, nonce, associated, message, 8);
    crypt(cipher, nonce, message);
    [
        mic[0], mic[1], mic[2], mic[3], mic[4], mic[5], mic[6], mic[7],
    ]
}

/// Opens as `open` does, with a key that was expanded before.
///
/// # Errors
/// `BadMic` where `mic` isn't the MIC of that message; `text` then stays as it was.
pub fn open_with(
    cipher: &Cipher,
    nonce: &[u8; 13],
    associated: &[u8],
    text: &mut [u8],
    mic: &[u8; 4],
) -> Result<(), BadMic>
    requires associated_fits { length associated.now < longest_text }
    requires text_fits { length text.old < longest_text }
    ensures opened { OnOk result (opens cipher.now nonce.now associated.now text.old mic.now ≡ Some text.new) }
    ensures refused { OnErr result (opens cipher.now nonce.now associated.now text.old mic.now ≡ None) }
    ensures kept { OnErr result (text.new ≡ text.old) }
{
    if text.len() <= COPIED {
        open_copy(cipher, nonce, associated, text, mic)
    } else {
        open_in_place(cipher, nonce, associated, text, mic)
    }
}
