//! Why bytes aren't an APS frame.
use std::error::Error;
use std::fmt;

/// The first fault of bytes that aren't an APS frame.
///
/// `TooLong` comes before all others. Among these, the fault is the first one on a walk over the fields from the
/// start.
#[derive(Clone, Copy, Debug, PartialEq, Eq)]
pub enum ApsError {
    /// More than 127 bytes.
    TooLong,
    /// A field isn't whole.
    Short {
        /// The number of all bytes.
        at: u32,
    },
    /// The frame type is neither data (0), command (1) nor ack (2).
    FrameType {
        /// The type of the frame.
        found: u8,
    },
    /// The delivery mode is neither unicast (0), broadcast (2) nor group (3).
    Delivery {
        /// The delivery mode of the frame.
        found: u8,
    },
    /// The auxiliary header names the network key (1).
    KeyId {
        /// The key identifier of the header.
        found: u8,
    },
}

impl fmt::Display for ApsError {
    ghost use Rattle.std.specs.Prelude.{Some};
    ghost use Rattle.zb_aps.specs.Texts.{fault_text};

    ghost output = { λ fault. Some (fault_text fault) };

    fn fmt<W: fmt::Write>(&self, f: &mut fmt::Formatter<W>) -> fmt::Result {
        match self {
            ApsError::TooLong => f.write_str("an APS frame has at most 127 bytes"),
            ApsError::Short { at } => write!(f, "the APS frame is cut at byte {at}"),
            ApsError::FrameType { found } => write!(f, "no APS frame type {found}"),
            ApsError::Delivery { found } => write!(f, "no APS delivery mode {found}"),
            ApsError::KeyId { found } => write!(f, "key identifier {found} at APS"),
        }
    }
}

impl Error for ApsError {}
