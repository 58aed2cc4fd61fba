//! What all calls require of their buffers, and the numbers for it.
ghost use Rattle.std.specs.Prelude.{◌≡◌};
ghost use Rattle.tc_c.specs.Numbers.{key_of};

use zb_base::Key;

/// A buffer doesn't have the required length.
pub(crate) const WRONG_ROOM: u32 = 5;

/// A key doesn't have 16 bytes.
pub(crate) const WRONG_KEY: u32 = 6;

/// The bytes of the longest frame.
pub(crate) const LONGEST_FRAME: usize = 127;

/// Returns the key, if there are 16 bytes.
pub(crate) fn key_from(bytes: &[u8]) -> Option<Key>
    ensures { result ≡ key_of bytes.now }
{
    if bytes.len() != 16 {
        return None;
    }
    let mut key = [0; 16];
    key.copy_from_slice(bytes);
    Some(Key(key))
}
