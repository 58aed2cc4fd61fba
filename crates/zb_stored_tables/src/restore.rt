//! Tables from a record and the entries after it.
ghost use Rattle.std.specs.Prelude.{◌≡◌, ◌≤◌, Ok, OnOk, IfOk, IfErr, length};
ghost use Rattle.zb_base.specs.declared.fault.OrMemory.TheVariants.{Fault};
ghost use Rattle.zb_node_types.specs.Changes.{model_role};
ghost use Rattle.zb_model.specs.State.{after_boot};
ghost use Rattle.zb_record.specs.Ranges.{FitsBytes};
ghost use Rattle.zb_record.specs.Redoing.{redone};
ghost use Rattle.zb_base.specs.Sizes.{payloads_room, record_room};
ghost use Rattle.zb_stored_tables.specs.Stored.{behind, is_of_other, state_given, version_in, IsGivenFault};

use std::alloc::Global;
use zb_base::{OrMemory, Role};
use zb_keys::Tables;
use zb_node_types::KeyError;
use zb_record::{Version, role_byte, version_of};

// Returns whether a record is of another role, or of none.
fn is_of_other(role: Role, content: &[u8]) -> bool
    ensures { result ≡ is_of_other (model_role role) content.now }
{
    version_of(content).is_some() && content.get(1) != Some(&role_byte(role))
}

// Returns the version of a record.
fn version(content: &[u8]) -> Version
    ensures { result ≡ version_in content.now }
{
    version_of(content).unwrap_or(Version::Third)
}

// Makes the entries after a record of `before` bytes again. The place of a fault counts on from the record's length.
fn redo(
    tables: &mut Tables,
    version: Version,
    before: usize,
    entries: &[u8],
) -> Result<(), KeyError>
    requires before { before ≤ record_room }
    requires entries { length entries.now ≤ payloads_room }
    ensures made { OnOk result (behind before (length entries.now) (redone version entries.now tables.old).0
        (redone version entries.now tables.old).1 ≡ Ok (after_boot tables.new)) }
    ensures fault { IfErr result (λ e. IsGivenFault
        (behind before (length entries.now) (redone version entries.now tables.old).0
        (redone version entries.now tables.old).1) (Fault e)) }
{
    match tables.redo(version, entries) {
        Ok(()) => Ok(()),
        Err(KeyError::BadRecord { at }) => Err(KeyError::BadRecord {
            at: before as u32 + at,
        }),
        // It has no other fault.
        Err(fault) => Err(fault),
    }
}

// Makes the tables that a record and the payloads after it lead to, before a boot.
fn read(
    alloc: Global,
    role: Role,
    content: &[u8],
    entries: &[u8],
) -> Result<Tables, OrMemory<KeyError>>
    requires record_size { length content.now ≤ record_room }
    requires entries_size { length entries.now ≤ payloads_room }
    ensures given { IfOk result (λ t. state_given (model_role role) content.now entries.now ≡ Ok (after_boot t)) }
    ensures widths { IfOk result (λ t. FitsBytes t) }
    ensures role { IfOk result (λ t. t.role ≡ model_role role) }
    ensures fault { IfErr result (IsGivenFault (state_given (model_role role) content.now entries.now)) }
{
    if is_of_other(role, content) {
        return Err(OrMemory::Fault(KeyError::BadRecord { at: 1 }));
    }
    let mut tables = Tables::from_record(alloc, content)?;
    match redo(&mut tables, version(content), content.len(), entries) {
        Ok(()) => Ok(tables),
        Err(fault) => Err(OrMemory::Fault(fault)),
    }
}

/// Makes the tables with which a node of that role boots on a record and the payloads after it.
///
/// # Errors
/// `BadRecord` at the place of the first fault; `NoMemory`.
pub(crate) fn restore(
    alloc: Global,
    role: Role,
    content: &[u8],
    entries: &[u8],
) -> Result<Tables, OrMemory<KeyError>>
    requires record_size { length content.now ≤ record_room }
    requires entries_size { length entries.now ≤ payloads_room }
    ensures given { IfOk result (λ t. state_given (model_role role) content.now entries.now ≡ Ok t) }
    ensures widths { IfOk result (λ t. FitsBytes t) }
    ensures role { IfOk result (λ t. t.role ≡ model_role role) }
    ensures fault { IfErr result (IsGivenFault (state_given (model_role role) content.now entries.now)) }
{
    let mut tables = read(alloc, role, content, entries)?;
    tables.boot();
    Ok(tables)
}
