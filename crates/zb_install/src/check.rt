//! The CRC of an install code.
ghost use Rattle.std.specs.Prelude.{◌≡◌};
ghost use Rattle.zb_install.specs.Crc.{crc};

use crate::divide;

/// Computes the CRC of the bytes of a code.
pub fn crc(bytes: &[u8]) -> u16
    ensures { result ≡ crc bytes.now }
{
    divide(0xffff, bytes) ^ 0xffff
}
