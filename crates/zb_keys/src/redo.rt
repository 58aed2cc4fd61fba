//! Making the changes of journal entries again.
ghost use Rattle.std.specs.Prelude.{◌≡◌, ◌≤◌, ◌∷◌, [], length, IfNone, IfSome, OnOk};
ghost use Rattle.zb_node_types.specs.declared.fault.KeyError.TheVariants.{BadRecord};
ghost use Rattle.zb_keys.specs.Tables.{state_of, IsSound};
ghost use Rattle.zb_record.specs.Redoing.{Redoes, change_redone, changes_redone, place_of, redone, redo_answer};

use crate::Tables;
use crate::contents::Contents;
use zb_cursor::Reader;
use zb_node_types::KeyError;
use zb_record::{Version, read_change};

impl Contents {
    /// Makes the change at the start again, after a record of a version. A fault is told by the number of bytes from
    /// the change's first one on.
    fn redo_change(&mut self, version: Version, reader: &mut Reader<usize>) -> Result<(), usize>
        requires { IsSound self.old }
        ensures redone { Redoes result reader.new.rest.now (state_of self.new)
            (change_redone version reader.old.rest.now (state_of self.old)) }
        ensures sound { IsSound self.new }
        ensures shorter { OnOk result (length reader.new.rest.now ≤ length reader.old.rest.now) }
    {
        let left = reader.rest.len();
        reader.cut = left;
        let change = read_change(reader)?;
        if !self.fits_behind(version, &change) {
            return Err(left);
        }
        self.change_behind(version, &change);
        Ok(())
    }

    /// Makes `count` changes again.
    fn redo_changes(
        &mut self,
        version: Version,
        reader: &mut Reader<usize>,
        count: u8,
    ) -> Result<(), usize>
        requires { IsSound self.old }
        ensures redone { Redoes result reader.new.rest.now (state_of self.new)
            (changes_redone version count reader.old.rest.now (state_of self.old)) }
        ensures sound { IsSound self.new }
        ensures shorter { OnOk result (length reader.new.rest.now ≤ length reader.old.rest.now) }
    {
        for _ in 0..count {
            self.redo_change(version, reader)?;
        }
        Ok(())
    }

    /// Makes the changes of all payloads again.
    fn redo(&mut self, version: Version, reader: &mut Reader<usize>) -> Result<(), usize>
        requires { IsSound self.old }
        ensures redone { Redoes result [] (state_of self.new)
            (redone version reader.old.rest.now (state_of self.old)) }
        ensures sound { IsSound self.new }
    {
        while let Some(count) = next_count(reader) {
            self.redo_changes(version, reader, count)?;
        }
        Ok(())
    }
}

/// Returns the number of changes with which the next payload begins.
fn next_count(reader: &mut Reader<usize>) -> Option<u8>
    ensures some { IfSome result (λ count. reader.old.rest.now ≡ count ∷ reader.new.rest.now) }
    ensures none { IfNone result (reader.old.rest.now ≡ []) }
{
    match reader.byte() {
        Ok(count) => Some(count),
        Err(_) => None,
    }
}

impl Tables {
    /// Makes the changes of journal entries again, after a record of a version.
    ///
    /// `entries` is their payloads, one after the other, as `change_bytes` wrote them. After a record of version 1 all
    /// network keys have one NWK limit, which is the declared start. A NWK reserve sets it, whether a key is active or
    /// not. A new key goes on from it, and counts as started.
    ///
    /// # Errors
    /// `BadRecord` where a change isn't whole, is none or doesn't fit, at the place of its first byte, which is
    /// its kind. After a record of version 1 a start and a pair are none. Then the changes before it are made.
    pub fn redo(&mut self, version: Version, entries: &[u8]) -> Result<(), KeyError>
        ensures answer { result ≡ redo_answer (length entries.now) (redone version entries.now self.old).1 }
        ensures made { self.new ≡ (redone version entries.now self.old).0 }
    {
        let mut reader = Reader {
            rest: entries,
            cut: 0,
        };
        match self.contents.redo(version, &mut reader) {
            Ok(()) => Ok(()),
            Err(left) => Err(bad_record(entries.len(), left)),
        }
    }
}

/// Makes the fault that is `left` bytes before the end of `total` bytes.
pub(crate) fn bad_record(total: usize, left: usize) -> KeyError
    ensures { result ≡ BadRecord (place_of total left) }
{
    KeyError::BadRecord {
        at: total.saturating_sub(left).min(4_294_967_295) as u32,
    }
}
