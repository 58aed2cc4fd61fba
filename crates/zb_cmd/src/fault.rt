//! Why bytes aren't a command.
use std::error::Error;
use std::fmt;

/// The first fault of bytes that aren't a command.
///
/// The faults have this order: `Unknown`, `KeyType`, `Short`, `Trailing`.
#[derive(Clone, Copy, Debug, PartialEq, Eq)]
pub enum CmdError {
    /// No command has this identifier.
    Unknown {
        /// The identifier in the bytes.
        id: u8,
    },
    /// A Transport-Key or a Request-Key with an unknown key type.
    KeyType {
        /// The key type in the bytes.
        found: u8,
    },
    /// A field isn't whole, or the frame in a Tunnel has no extended nonce.
    Short {
        /// The number of all bytes.
        at: u32,
    },
    /// There are bytes after the command.
    Trailing {
        /// How many bytes.
        count: u32,
    },
}

impl fmt::Display for CmdError {
    ghost use Rattle.std.specs.Prelude.{Some};
    ghost use Rattle.zb_cmd.specs.Texts.{fault_text};

    ghost output = { λ fault. Some (fault_text fault) };

    fn fmt<W: fmt::Write>(&self, f: &mut fmt::Formatter<W>) -> fmt::Result {
        match self {
            CmdError::Unknown { id } => write!(f, "no command {id}"),
            CmdError::KeyType { found } => write!(f, "no key type {found}"),
            CmdError::Short { at } => write!(f, "the command is cut at byte {at}"),
            CmdError::Trailing { count } => write!(f, "{count} bytes behind the command"),
        }
    }
}

impl Error for CmdError {}
