//! The store: where it stands, and its calls.
ghost use Rattle.std.specs.Prelude.{Some, ◌≡◌, ◌+◌, ◌<◌, ◌≤◌, ◌^◌, [], ◌∷◌, ℕ, length, true, IsTrue, IfOk, IfErr, OnOk, OnErr, IsErrOf};
ghost use Rattle.zb_disk.specs.View.{IsStill, LeavesOnly};
ghost use Rattle.zb_base.specs.Outside.{Unrisen};
ghost use Rattle.zb_store.specs.Layout.{Standing, stands};
ghost use Rattle.zb_store.specs.Reading.{AreCounted, AreContents};
ghost use Rattle.zb_base.specs.Sizes.{record_room, payload_room, entries_room, payloads_room, last_generation};
ghost use Rattle.zb_store.specs.Steps.{WentThrough, WasAsked};
ghost use Rattle.zb_store.specs.Store.{IsReady, IsWholeEither, appended, replaced, formatted, open_calls, IsAnswer, AllWhole, WasThere, AppendStop, PutStop, OpenStop, FormatStop};
ghost use Rattle.zb_store.specs.Faults.{OnlyReads, IsSpared, IsAppendFault, IsPutFault, IsFormatFault, IsReadFault, IsStandingFault};

use crate::StoreFault;
use crate::commit::{base, lay_out, replace, settle, write_gated};
use crate::reading::{count_standing, read_standing};
use crate::sizes::BODY_ROOM;
use crate::spelling::{spell_body, spell_entry};
use std::alloc::Global;
use std::marker::Model;
use zb_base::{Failed, PAYLOAD_ROOM, RECORD_ROOM};
use zb_disk::Disk;

/// A store of one record, and the entries after it, on any disk.
///
/// It is open: it knows where its record stands on the disk and where the next entry goes.
#[derive(Drop)]
pub struct Store {
    second: bool,
    generation: u64,
    // The place in the slot after the last entry.
    end: u32,
    entries: u32,
    // Room for what a call writes.
    buffer: Vec<u8>,
}

impl Model for Store {
    ghost use Rattle.zb_store.specs.Store.{Place};

    ghost Value = { Place };

    ghost use Rattle.zb_store.specs.StoreInside.{place_inside, IsStore};

    ghost view = { place_inside };

    ghost invariant = { IsStore };
}

impl Store {
    /// Returns how many entries stand after the record: at most `ENTRIES_ROOM`.
    pub fn entries(&self) -> u32
        ensures count { result ≡ self.now.entries }
        ensures few { self.now.entries ≤ entries_room }
    {
        self.entries
    }

    /// Adds an entry with this payload in four device calls. Requires room for one more entry. After a fault the store
    /// is opened again.
    ///
    /// # Errors
    /// - `Disk` where the disk failed.
    /// - `TooLarge` for more bytes than `PAYLOAD_ROOM`, before any device call.
    pub fn append<D: Disk>(mut self, disk: &mut D, change: &[u8]) -> Result<Store, StoreFault>
        requires few { self.entries < entries_room }
        requires short { length change.now < 2 ^ 32 }

        // It goes on from a ready store: every moment leaves the old or the new, and after Ok the new is held.
        ensures moments { (s : Standing) → IsReady self s (D.state disk.old) → IsTrue D.tells.content
            → LeavesOnly (D.state disk.old) (D.state disk.new) (IsWholeEither s (appended s change.now)) }
        ensures ready { IfOk result (λ store. (s : Standing) → IsReady self s (D.state disk.old)
            → IsTrue D.tells.content → IsReady store (appended s change.now) (D.state disk.new)) }
        ensures through { OnOk result (WentThrough D.tells 4 (D.state disk.old) (D.state disk.new)) }

        // Where the disk failed, it stopped at one of the four calls.
        ensures stopped { IsErrOf result StoreFault.Disk → (s : Standing) → IsReady self s (D.state disk.old)
            → IsTrue D.tells.content → IsTrue D.tells.steady
            → AppendStop D.tells s change.now (D.state disk.old) (D.state disk.new) }

        // Too large a payload is refused before any device call.
        ensures too_large { payload_room < length change.now
            → result ≡ Err (StoreFault.TooLarge (length change.now)) }
        ensures untouched { payload_room < length change.now → IsStill (D.state disk.old) (D.state disk.new) }
        ensures faults { IfErr result (IsAppendFault change.now (D.state disk.old) (D.state disk.new)) }
        ensures count { (D.state disk.old).faults ≤ (D.state disk.new).faults }
        ensures unrisen { OnOk result (Unrisen (D.state disk.old).faults (D.state disk.new).faults) }
        ensures asked { WasAsked D.tells (D.state disk.old) (D.state disk.new) }
    {
        if change.len() > PAYLOAD_ROOM {
            return Err(StoreFault::TooLarge {
                len: change.len() as u32,
            });
        }
        spell_entry(&mut self.buffer, change);
        let gate = base(self.second) + u64::from(self.end);
        match write_gated(disk, gate, &self.buffer) {
            Ok(()) => {
                self.end += 3 + change.len() as u32;
                self.entries += 1;
                Ok(self)
            }
            Err(Failed) => Err(StoreFault::Disk),
        }
    }

    /// Writes a new record, with no entries, in six device calls. After a fault the store is opened again.
    ///
    /// # Errors
    /// - `Disk` where the disk failed.
    /// - `TooLarge` for more bytes than `RECORD_ROOM`, before any device call.
    /// - `Worn` where the generation can't rise any more, before any device call.
    pub fn put<D: Disk>(mut self, disk: &mut D, content: &[u8]) -> Result<Store, StoreFault>
        requires short { length content.now < 2 ^ 32 }

        ensures moments { (s : Standing) → IsReady self s (D.state disk.old) → IsTrue D.tells.content
            → LeavesOnly (D.state disk.old) (D.state disk.new) (IsWholeEither s (replaced s content.now)) }
        ensures ready { IfOk result (λ store. (s : Standing) → IsReady self s (D.state disk.old)
            → IsTrue D.tells.content → IsReady store (replaced s content.now) (D.state disk.new)) }
        ensures through { OnOk result (WentThrough D.tells 6 (D.state disk.old) (D.state disk.new)) }

        // Where the disk failed, it stopped at one of the six calls.
        ensures stopped { IsErrOf result StoreFault.Disk → (s : Standing) → IsReady self s (D.state disk.old)
            → IsTrue D.tells.content → IsTrue D.tells.steady
            → PutStop D.tells s content.now (D.state disk.old) (D.state disk.new) }

        // Too large a record, and the last generation, are refused before any device call.
        ensures too_large { record_room < length content.now
            → result ≡ Err (StoreFault.TooLarge (length content.now)) }
        ensures worn { length content.now ≤ record_room → self.generation ≡ last_generation
            → result ≡ Err StoreFault.Worn }
        ensures untouched { IsSpared result (D.state disk.old) (D.state disk.new) }
        ensures faults { IfErr result (IsPutFault self content.now (D.state disk.old) (D.state disk.new)) }
        ensures count { (D.state disk.old).faults ≤ (D.state disk.new).faults }
        ensures unrisen { OnOk result (Unrisen (D.state disk.old).faults (D.state disk.new).faults) }
        ensures asked { WasAsked D.tells (D.state disk.old) (D.state disk.new) }
    {
        if content.len() > RECORD_ROOM {
            return Err(StoreFault::TooLarge {
                len: content.len() as u32,
            });
        }
        if self.generation == u64::MAX {
            return Err(StoreFault::Worn);
        }
        self.second = !self.second;
        self.generation += 1;
        spell_body(&mut self.buffer, self.generation, content);
        match replace(disk, self.second, &self.buffer) {
            Ok(()) => {
                self.end = 13 + content.len() as u32;
                self.entries = 0;
                Ok(self)
            }
            Err(Failed) => Err(StoreFault::Disk),
        }
    }

    /// Makes a store whose first record this is, with generation 1, in five device calls. Whatever the disk held is
    /// given up.
    ///
    /// # Errors
    /// - `Disk` where the disk failed.
    /// - `TooLarge` for more bytes than `RECORD_ROOM`, before any device call.
    /// - `NoMemory`.
    pub fn format<D: Disk>(alloc: Global, disk: &mut D, first: &[u8]) -> Result<Store, StoreFault>
        requires short { length first.now < 2 ^ 32 }
        ensures ready { IfOk result (λ store. IsTrue D.tells.content
            → IsReady store (formatted first.now) (D.state disk.new)) }
        ensures through { OnOk result (WentThrough D.tells 5 (D.state disk.old) (D.state disk.new)) }

        // Where the disk failed, it stopped at one of the five calls.
        ensures stopped { IsErrOf result StoreFault.Disk → IsTrue D.tells.content → IsTrue D.tells.steady
            → FormatStop D.tells first.now (D.state disk.old) (D.state disk.new) }

        // Too large a record is refused before any device call.
        ensures too_large { record_room < length first.now → result ≡ Err (StoreFault.TooLarge (length first.now)) }
        ensures untouched { IsSpared result (D.state disk.old) (D.state disk.new) }
        ensures faults { IfErr result (IsFormatFault first.now (D.state disk.old) (D.state disk.new)) }
        ensures count { (D.state disk.old).faults ≤ (D.state disk.new).faults }
        ensures unrisen { OnOk result (Unrisen (D.state disk.old).faults (D.state disk.new).faults) }
        ensures asked { WasAsked D.tells (D.state disk.old) (D.state disk.new) }
    {
        if first.len() > RECORD_ROOM {
            return Err(StoreFault::TooLarge {
                len: first.len() as u32,
            });
        }
        let mut buffer = Vec::with_capacity(alloc, BODY_ROOM)?;
        spell_body(&mut buffer, 1, first);
        match lay_out(disk, &buffer) {
            Ok(()) => Ok(Store {
                second: false,
                generation: 1,
                end: 13 + first.len() as u32,
                entries: 0,
                buffer,
            }),
            Err(Failed) => Err(StoreFault::Disk),
        }
    }

    /// Opens the store that stands on the disk.
    ///
    /// Returns it, its record, and the payloads one after the other.
    ///
    /// It makes its reads first, then one device call, or three where the gates of both slots are open.
    ///
    /// # Errors
    /// `Disk` where the disk failed, `NoRecord` where nothing stands on it, or `NoMemory`.
    pub fn open<D: Disk>(
        alloc: Global,
        disk: &mut D,
    ) -> Result<(Store, Vec<u8>, Vec<u8>), StoreFault>
        // What it returns is what the disk as it reads represents.
        ensures answer { IfOk result (λ r. IsTrue D.tells.content
            → IsAnswer r.0 r.1.items r.2.items (D.state disk.old).seen) }
        ensures record_size { IfOk result (λ r. length r.1.items ≤ record_room) }
        ensures payloads_size { IfOk result (λ r. length r.2.items ≤ payloads_room) }

        // Where each image at entry is whole, each image at each moment is whole too, and represents what one at entry
        // stood for. After Ok the store is ready.
        ensures moments { AllWhole (D.state disk.old) → IsTrue D.tells.content
            → LeavesOnly (D.state disk.old) (D.state disk.new) (WasThere (D.state disk.old)) }
        ensures ready { IfOk result (λ r. AllWhole (D.state disk.old) → IsTrue D.tells.content
            → (s : Standing) → stands (D.state disk.old).seen ≡ Some s → IsReady r.0 s (D.state disk.new)) }
        ensures through { OnOk result (IsTrue D.tells.content
            → WentThrough D.tells (open_calls (D.state disk.old).seen) (D.state disk.old) (D.state disk.new)) }

        // Where the disk failed, it stopped at a read or at one of the three calls.
        ensures stopped { IsErrOf result StoreFault.Disk → AllWhole (D.state disk.old) → IsTrue D.tells.content
            → IsTrue D.tells.steady → (s : Standing) → stands (D.state disk.old).seen ≡ Some s
            → OpenStop D.tells s (D.state disk.old) (D.state disk.new) }
        ensures untouched { IsSpared result (D.state disk.old) (D.state disk.new) }
        ensures faults { IfErr result (IsReadFault D.tells (D.state disk.old) (D.state disk.new)) }
        ensures count { (D.state disk.old).faults ≤ (D.state disk.new).faults }
        ensures unrisen { OnOk result (Unrisen (D.state disk.old).faults (D.state disk.new).faults) }
        ensures asked { WasAsked D.tells (D.state disk.old) (D.state disk.new) }
    {
        let buffer = Vec::with_capacity(alloc, BODY_ROOM)?;
        let contents = read_standing(alloc, disk)?;
        match settle(disk, contents.found.second, contents.found.other_open) {
            Ok(()) => Ok((
                Store {
                    second: contents.found.second,
                    generation: contents.found.generation,
                    end: contents.end,
                    entries: contents.entries,
                    buffer,
                },
                contents.content,
                contents.payloads,
            )),
            Err(Failed) => Err(StoreFault::Disk),
        }
    }

    /// Returns the generation that stands on the disk, and how many entries. It writes nothing and takes no memory.
    ///
    /// # Errors
    /// `Disk` where the disk failed, or `NoRecord` where nothing stands on it.
    pub fn standing<D: Disk>(disk: &mut D) -> Result<(u64, u32), StoreFault>
        ensures reads { OnlyReads D.tells (D.state disk.old) (D.state disk.new) result }
        ensures answer { IfOk result (λ r. IsTrue D.tells.content → AreCounted r.0 r.1 (D.state disk.old).seen) }
        ensures faults { IfErr result (IsStandingFault D.tells (D.state disk.old) (D.state disk.new)) }
    {
        count_standing(disk)
    }

    /// Returns the record that stands on the disk, and the payloads one after the other. It writes nothing.
    ///
    /// # Errors
    /// `Disk` where the disk failed, `NoRecord` where nothing stands on it, or `NoMemory`.
    pub fn peek<D: Disk>(alloc: Global, disk: &mut D) -> Result<(Vec<u8>, Vec<u8>), StoreFault>
        ensures reads { OnlyReads D.tells (D.state disk.old) (D.state disk.new) result }
        ensures answer { IfOk result (λ r. IsTrue D.tells.content
            → AreContents r.0.items r.1.items (D.state disk.old).seen) }
        ensures record_size { IfOk result (λ r. length r.0.items ≤ record_room) }
        ensures payloads_size { IfOk result (λ r. length r.1.items ≤ payloads_room) }
        ensures faults { IfErr result (IsReadFault D.tells (D.state disk.old) (D.state disk.new)) }
    {
        let contents = read_standing(alloc, disk)?;
        Ok((contents.content, contents.payloads))
    }
}
