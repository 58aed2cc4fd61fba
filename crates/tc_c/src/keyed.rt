//! The keyed hash (05-3474-21, annex B.1.4).
ghost use Rattle.std.specs.Prelude.{◌≡◌, ◌≢◌, length};
ghost use Rattle.tc_c.specs.Numbers.{keyed_number};
ghost use Rattle.zb_mmo.specs.Keyed.{keyed};

use crate::key::{WRONG_KEY, WRONG_ROOM, key_from};

/// Writes the keyed hash of a message into `hash`, which has 16 bytes.
///
/// Returns 0, or 1 if the message has more than 8,175 bytes, 5 if `hash` doesn't have 16 bytes, 6 if `key` doesn't.
#[unsafe(no_mangle)]
pub extern "C" fn tc_keyed(key: &[u8], message: &[u8], hash: &mut [u8]) -> u32
    ensures number { result ≡ keyed_number (length key.now) (length message.now) (length hash.old) }
    ensures hash { result ≡ 0 → hash.new ≡ keyed key.now message.now }
    ensures kept { result ≢ 0 → hash.new ≡ hash.old }
{
    let Some(key) = key_from(key) else {
        return WRONG_KEY;
    };
    if hash.len() != 16 {
        return WRONG_ROOM;
    }
    if message.len() > 8175 {
        return 1;
    }
    hash.copy_from_slice(&zb_mmo::keyed(&key, message));
    0
}
