//! Reading a backup.
ghost use Rattle.std.specs.Prelude.{◌≡◌, ◌≤◌, bytes_eq, false, filter, length, true, IfErr, IfOk};
ghost use Rattle.serde_json.specs.Data.{depth};
ghost use Rattle.serde_json.specs.Errors.{IsMemory};
ghost use Rattle.serde_json.specs.Read.{max_depth};
ghost use Rattle.serde_json.specs.View.{view};
ghost use Rattle.zb_model.specs.Data.{Centre};
ghost use Rattle.zb_record.specs.Records.{record_read};
ghost use Rattle.zb_record.specs.RowViews.{net_key};
ghost use Rattle.zb_base.specs.Sizes.{record_room};
ghost use Rattle.zb_backup.specs.Format.{backup_of};
ghost use Rattle.zb_backup.specs.Raised.{raised};
ghost use Rattle.zb_backup.specs.Reading.{backup_in, has_widths, tables_in, ReadsBackup};
ghost use Rattle.zb_backup.specs.Steps.{has_room, told_state, IsMade, IsOfRecord, IsRefusal};
ghost use Rattle.zb_backup.specs.declared.error.BackupError.TheVariants.{NoMemory as lacks};

use crate::digits::raised;
use crate::error::BackupError;
use crate::told_rows::{Parts, told};
use crate::write::backup_value;
use serde_json::{Category, Error, Value};
use std::alloc::Global;
use zb_base::{OrMemory, RECORD_ROOM, Role};
use zb_keys::{NetRow, Tables};
use zb_record::write_record;

/// Returns how many network keys are in use.
fn live_count(rows: &[NetRow]) -> usize
    ensures { result ≡ length (filter (λ r. (net_key r).live) rows.now) }
{
    rows.iter().filter(|row| row.live).count()
}

/// Returns whether rows have room in a record.
fn has_room(parts: &Parts) -> bool
    ensures { result ≡ has_room parts.now }
{
    parts.nets.len() <= 256
        && live_count(parts.nets.as_slice()) <= 2
        && parts.links.len() <= 1024
        && parts.pairs.len() <= 256
}

/// Returns the tables of a record.
fn tables_of(alloc: Global, bytes: &[u8]) -> Result<Tables, BackupError>
    ensures { IsOfRecord result (record_read bytes.now) }
{
    match Tables::from_record(alloc, bytes) {
        Ok(tables) => Ok(tables),
        Err(OrMemory::Fault(_)) => Err(BackupError::Form),
        Err(OrMemory::NoMemory) => Err(BackupError::NoMemory),
    }
}

/// Makes tables of what was told, by their record, for which there is room.
fn made_in(alloc: Global, parts: &Parts, room: &mut [u8]) -> Result<Tables, BackupError>
    requires few { has_room parts.now ≡ true }
    requires room { record_room ≤ length room.old }
    ensures { IsMade result (told_state parts.now) }
{
    let len = write_record(
        &parts.heading,
        parts.nets.as_slice(),
        parts.links.as_slice(),
        parts.pairs.as_slice(),
        room,
    );
    tables_of(alloc, &room[..len as usize])
}

/// Makes tables of what was told, by their record.
fn made(alloc: Global, parts: &Parts) -> Result<Tables, BackupError>
    ensures { IsMade result (told_state parts.now) }
{
    if !has_room(parts) {
        return Err(BackupError::Form);
    }
    let mut room = vec![in alloc; 0; RECORD_ROOM]?;
    made_in(alloc, parts, room.as_mut_slice())
}

/// Returns whether a value is the backup of a centre's tables.
fn is_backup_of(alloc: Global, value: &Value, tables: &Tables) -> Result<bool, BackupError>
    requires { depth (view value.now) ≤ max_depth }
    ensures same { IfOk result (λ is. is ≡ true → view value.now ≡ backup_of tables.now) }
    ensures centre { IfOk result (λ is. is ≡ true → tables.now.role ≡ Centre) }
    ensures fits { IfOk result (λ is. is ≡ true → has_widths tables.now ≡ true) }
    ensures other { IfOk result (λ is. is ≡ false → tables.now.role ≡ Centre
        → view value.now ≡ backup_of tables.now → ⊥) }
    ensures memory { IfErr result (λ e. e ≡ lacks) }
{
    if tables.role() != Role::Centre {
        return Ok(false);
    }
    let own = backup_value(alloc, tables)?;
    let own_text = own.to_vec(alloc)?;
    let text = value.to_vec(alloc)?;
    let is = same_bytes(own_text.as_slice(), text.as_slice());
    Ok(is)
}

/// Returns whether bytes are the same.
fn same_bytes(bytes: &[u8], other: &[u8]) -> bool
    ensures { result ≡ bytes_eq bytes.now other.now }
{
    bytes == other
}

/// Makes tables of a value.
fn tables_in(alloc: Global, value: &Value) -> Result<Tables, BackupError>
    requires { depth (view value.now) ≤ max_depth }
    ensures { ReadsBackup result (tables_in (view value.now)) }
{
    let parts = told(alloc, value)?;
    let mut tables = made(alloc, &parts)?;
    tables.boot();
    tables.keep_rules();
    let is = is_backup_of(alloc, value, &tables)?;
    if is {
        Ok(tables)
    } else {
        Err(BackupError::Form)
    }
}

/// Makes tables of a value, whose hexadecimal digits may have either case.
fn tables_raised(alloc: Global, value: &Value) -> Result<Tables, BackupError>
    requires { depth (view value.now) ≤ max_depth }
    ensures { ReadsBackup result (tables_in (raised (view value.now))) }
{
    let upper = raised(alloc, value)?;
    tables_in(alloc, &upper)
}

/// Returns why a text is no value.
fn refusal(error: Error) -> BackupError
    ensures { IsRefusal result error }
{
    match error.classify() {
        Category::Memory => BackupError::NoMemory,
        _ => BackupError::Form,
    }
}

/// Reads a backup as the tables that it tells, as they are after a boot.
///
/// The order of members and white space are free, and of a member that stands twice the last one counts. The
/// hexadecimal digits of keys and EUIs may have either case.
///
/// # Errors
/// `Form` where the text is no backup: no JSON, a member missing or too many, a value of another form, or rows
/// that no record of a centre has. `NoMemory` where memory is short.
#[tactic(auto, unfolding(crate::specs::Reading::backup_in))]
pub fn read_backup(alloc: Global, text: &[u8]) -> Result<Tables, BackupError>
    ensures { ReadsBackup result (backup_in text.now) }
{
    match Value::from_slice(alloc, text) {
        Ok(value) => tables_raised(alloc, &value),
        Err(error) => Err(refusal(error)),
    }
}
