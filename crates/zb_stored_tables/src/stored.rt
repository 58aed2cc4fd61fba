//! A node's tables, as the core of a host keeps them.
ghost use Rattle.std.specs.Prelude.{◌≡◌, ◌<◌, ◌≤◌, ◌^◌, ◌-◌, Ok, IfOk, IfErr, length, take};
ghost use Rattle.std.specs.List.{AllByRecursion};
ghost use Rattle.zb_node_types.specs.Changes.{model_role, edits, model_layer};
ghost use Rattle.zb_host.specs.Plans.{gives, IsRestoreFault};
ghost use Rattle.zb_keys.specs.Reading.{IsNext};
ghost use Rattle.zb_model.specs.Data.{Term};
ghost use Rattle.zb_model.specs.Fits.{AllFit};
ghost use Rattle.zb_model.specs.Record.{record_of};
ghost use Rattle.zb_model.specs.State.{applied_all, after_hearing, after_sealing, shown};
ghost use Rattle.zb_record.specs.Ranges.{InRange};
ghost use Rattle.zb_base.specs.Sizes.{payloads_room, record_room};
ghost use Rattle.zb_stored_tables.specs.Stored.{restored, state_given, IsGivenFault, IsKept};

use crate::restore::restore;
use std::alloc::Global;
use std::marker::Model;
use zb_base::{Eui, Key, Layer, OrMemory, Role};
use zb_keys::Tables;
use zb_node_types::{Changes, KeyError};

/// A node's tables as the core of a host keeps them.
///
/// They are what a record and the entries after it gave, and what plans made of it since. Their values fit the widths
/// of a record.
#[derive(Debug, Drop)]
pub struct StoredTables {
    tables: Tables,
}

impl Model for StoredTables {
    ghost use Rattle.zb_model.specs.State.{NodeState};
    ghost use Rattle.zb_record.specs.Ranges.{FitsBytes};

    ghost Value = { NodeState };

    ghost view = { λ t. t.tables };

    ghost invariant = { λ t. FitsBytes t.tables };
}

impl StoredTables {
    /// Makes the tables with which a node of that role boots on a record and the payloads after it.
    ///
    /// # Errors
    /// - `BadRecord` at the place of the first fault. It is 1 where the record is of another role. In the record it is
    ///   where `Tables::from_record` finds it. In the entries it is where `Tables::redo` finds it, counted on from the
    ///   record's length.
    /// - `NoMemory` out of memory.
    pub fn restore(
        alloc: Global,
        role: Role,
        content: &[u8],
        entries: &[u8],
    ) -> Result<StoredTables, OrMemory<KeyError>>
        requires record_size { length content.now ≤ record_room }
        requires entries_size { length entries.now ≤ payloads_room }
        ensures given { IfOk result (λ t. state_given (model_role role) content.now entries.now ≡ Ok t) }
        ensures role { IfOk result (λ t. t.role ≡ model_role role) }
        ensures fault { IfErr result (IsGivenFault (state_given (model_role role) content.now entries.now)) }

        // So a core over them is the one that its host asks for.
        ensures core { IfOk result (λ t. restored (model_role role) content.now entries.now ≡ gives (record_of t)) }
        ensures no_core { IfErr result (IsRestoreFault (restored (model_role role) content.now entries.now)) }
    {
        let tables = restore(alloc, role, content, entries)?;
        Ok(StoredTables { tables })
    }

    /// Returns the tables.
    pub fn tables(&self) -> &Tables
        ensures { result.now ≡ self.now }
    {
        &self.tables
    }

    /// States what holds of them at all times. It does nothing.
    pub fn keep_rules(&self)
        ensures { IsKept self.now }
    {
        self.tables.keep_rules();
    }

    /// Makes changes in their order.
    ///
    /// Requires changes that fit and have values that can be spelled.
    pub fn apply(&mut self, changes: &Changes)
        requires fit { AllFit (edits changes.now.items) self.old }
        requires range { AllByRecursion InRange changes.now.items }
        ensures made { self.new ≡ shown (applied_all (edits changes.now.items) self.old) }
        ensures role { self.new.role ≡ self.old.role }
    {
        self.tables.apply(changes);
    }

    /// Uses the next counter of a base key of a layer: a term was sealed under it.
    ///
    /// At NWK that is the counter of the key's row, at APS the node's own. Requires that there is one, and that it
    /// isn't the greatest.
    pub fn sealed_under(&mut self, layer: Layer, key: &Key)
        requires { (t : Term) × IsNext (model_layer layer) key.now.0 self.old t }
        ensures counted { (t : Term) → IsNext (model_layer layer) key.now.0 self.old t
            → self.new ≡ after_sealing t self.old }
        ensures role { self.new.role ≡ self.old.role }
    {
        self.tables.sealed_under(layer, key);
    }

    /// Keeps what was accepted of a sender under a base key of a layer.
    ///
    /// At APS the sender is the partner. A dropped network key keeps nothing.
    pub fn heard(&mut self, layer: Layer, key: &Key, sender: Eui, counter: u32)
        requires { counter < 2 ^ 32 - 1 }
        ensures heard { self.new ≡ after_hearing (model_layer layer) key.now.0 sender.0 counter self.old }
        ensures role { self.new.role ≡ self.old.role }
    {
        self.tables.heard(layer, key, sender, counter);
    }

    /// Writes their record, and returns its length.
    ///
    /// Requires `RECORD_ROOM` bytes of room.
    pub fn record(&self, into: &mut [u8]) -> u32
        requires { record_room ≤ length into.old }
        ensures len { result ≡ length (record_of self.now) }
        ensures small { result ≤ record_room }
        ensures bytes { take result into.new ≡ record_of self.now }
    {
        self.tables.record_bytes(into)
    }
}
