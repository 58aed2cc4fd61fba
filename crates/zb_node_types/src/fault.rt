//! Why a call on a node's tables is refused.
use std::error::Error;
use std::fmt;
use zb_base::Eui;

/// Why a call on tables is refused.
#[derive(Clone, Copy, Debug, PartialEq, Eq)]
pub enum KeyError {
    /// The network key was dropped before; its row stands at that place, from 0.
    KeyOld { place: u32 },
    /// There are 256 network keys.
    KeysFull,
    /// There is no room for another link key or pair.
    RowsFull,
    /// Another partner's row has the link key.
    KeyInUse { partner: Eui },
    /// There is no row that the call could be about.
    NoRow,
    /// The hash is that of no key of the partner.
    WrongHash,
    /// The bytes are no record, or no payloads that fit.
    ///
    /// `at` is the place of the first byte of the first field that isn't whole or breaks a rule, or the length where
    /// bytes are left over.
    BadRecord { at: u32 },
}

impl fmt::Display for KeyError {
    ghost use Rattle.std.specs.Prelude.{Some};
    ghost use Rattle.zb_node_types.specs.Texts.{key_error_text};

    ghost output = { λ it. Some (key_error_text it) };

    fn fmt<W: fmt::Write>(&self, f: &mut fmt::Formatter<W>) -> fmt::Result {
        match self {
            KeyError::KeyOld { place } => write!(
                f,
                "the network key was dropped, at place {place}"
            ),
            KeyError::KeysFull => f.write_str("no room for another network key"),
            KeyError::RowsFull => f.write_str("no room for another row"),
            KeyError::KeyInUse { .. } => f.write_str("another partner has the key"),
            KeyError::NoRow => f.write_str("no such row"),
            KeyError::WrongHash => f.write_str("the hash is of no key"),
            KeyError::BadRecord { at } => write!(f, "no record, at byte {at}"),
        }
    }
}

impl Error for KeyError {}
