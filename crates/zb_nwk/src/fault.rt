//! Why bytes aren't a NWK frame.
use std::error::Error;
use std::fmt;

/// The first fault of bytes that aren't a NWK frame.
///
/// `TooLong` comes before all others. Among these, the fault is the first one on a walk over the fields from the
/// start.
#[derive(Clone, Copy, Debug, PartialEq, Eq)]
pub enum NwkError {
    /// More than 127 bytes.
    TooLong,
    /// A field isn't whole.
    Short {
        /// The number of all bytes.
        at: u32,
    },
    /// The frame type is neither data (0) nor command (1); an inter-PAN frame is 3.
    FrameType {
        /// The type of the frame.
        found: u8,
    },
    /// The version of the protocol isn't 2.
    Version {
        /// The version of the frame.
        found: u8,
    },
    /// The auxiliary header doesn't name the network key (1).
    KeyId {
        /// The key identifier of the header.
        found: u8,
    },
    /// The auxiliary header has no source address, because its extended nonce bit is 0.
    NoSource,
}

impl fmt::Display for NwkError {
    ghost use Rattle.std.specs.Prelude.{Some};
    ghost use Rattle.zb_nwk.specs.Texts.{fault_text};

    ghost output = { λ fault. Some (fault_text fault) };

    fn fmt<W: fmt::Write>(&self, f: &mut fmt::Formatter<W>) -> fmt::Result {
        match self {
            NwkError::TooLong => f.write_str("a NWK frame has at most 127 bytes"),
            NwkError::Short { at } => write!(f, "the NWK frame is cut at byte {at}"),
            NwkError::FrameType { found } => write!(f, "no NWK frame type {found}"),
            NwkError::Version { found } => write!(f, "no NWK version {found}"),
            NwkError::KeyId { found } => write!(f, "key identifier {found} at NWK"),
            NwkError::NoSource => f.write_str("no source in the NWK auxiliary header"),
        }
    }
}

impl Error for NwkError {}
