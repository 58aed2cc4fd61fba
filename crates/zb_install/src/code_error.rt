//! Why a text or some bytes aren't an install code.

/// What is wrong with an install code, in the order of the checks.
#[derive(Clone, Copy, Debug, PartialEq, Eq)]
pub enum CodeError {
    /// If the number of characters is odd, `at` is that number. Otherwise the character at the place `at` is the first
    /// that isn't a hexadecimal digit.
    NotHex {
        /// That number, or that place, from 0.
        at: u32,
    },
    /// The total length of code and CRC is none of 8, 10, 14 and 18.
    Length {
        /// How many bytes code and CRC have.
        len: u32,
    },
    /// The last two bytes, least significant byte first, are `kept`, but the CRC of the others is `found`.
    Crc {
        /// The last two bytes.
        kept: u16,
        /// The CRC of the others.
        found: u16,
    },
}
