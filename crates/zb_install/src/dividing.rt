//! The polynomial division, byte by byte.
ghost use Rattle.std.specs.Prelude.{◌≡◌, ℕ, ◌+◌, List, ◌++◌};
ghost use Rattle.zb_install.specs.Division.{added, bits_from, divided, number_of, remainder};

use crate::remainders::REMAINDERS;

/// Makes eight steps of the division: the register takes in the bits of a byte, lowest bit first.
fn after_byte(register: u16, byte: u8) -> u16
    ensures { (n : ℕ) (rest : List ℕ) → divided (n + 8) (added (bits_from 8 byte ++ rest) (bits_from 16 register))
        ≡ divided n (added rest (bits_from 16 result)) }
{
    let low = (register ^ byte as u16) % 256;
    (register >> 8) ^ REMAINDERS[low as usize]
}

/// Divides the bytes of a message, and returns the remainder.
///
/// The lowest bit of the number is that of the highest power. The division starts with the bits of `start` added to
/// the highest powers.
pub fn divide(start: u16, bytes: &[u8]) -> u16
    ensures bits { bits_from 16 result ≡ remainder start bytes.now }
    ensures number { result ≡ number_of (remainder start bytes.now) }
{
    let mut register = start;
    for byte in bytes {
        register = after_byte(register, *byte);
    }
    register
}
