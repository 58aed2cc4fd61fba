//! The versions of records.
ghost use Rattle.std.specs.Prelude.{◌≡◌};
ghost use Rattle.zb_cursor.specs.Reading.{Gives};
ghost use Rattle.zb_record.specs.Fields.{record_version, version_at};

use zb_cursor::Reader;

/// The version of a record.
///
/// Since the second version each network key has its own limit; since the third there are pairs.
#[derive(Clone, Copy, Debug, PartialEq, Eq)]
pub enum Version {
    /// One outgoing NWK limit for all network keys.
    First,
    /// A limit for each network key.
    Second,
    /// Keys of pairs of devices too.
    Third,
}

/// Reads a version: 01, 02 or 03.
///
/// # Errors
/// The reader's fault at any other byte, or if no byte is left.
#[tactic(auto, unfolding(crate::specs::Fields::version_at))]
pub(crate) fn read_version(reader: &mut Reader<usize>) -> Result<Version, usize>
    ensures { Gives result reader.new.rest.now (version_at reader.old.cut reader.old.rest.now) }
{
    match reader.byte()? {
        1 => Ok(Version::First),
        2 => Ok(Version::Second),
        3 => Ok(Version::Third),
        _ => Err(reader.cut),
    }
}

/// Returns the version in the first byte of a record, if the byte is a version.
pub fn version_of(bytes: &[u8]) -> Option<Version>
    ensures { result ≡ record_version bytes.now }
{
    match bytes.first() {
        Some(1) => Some(Version::First),
        Some(2) => Some(Version::Second),
        Some(3) => Some(Version::Third),
        _ => None,
    }
}
