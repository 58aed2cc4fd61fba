//! The centre over its store: how it is judged, made anew, and handles an event.
ghost use Rattle.std.specs.Prelude.{◌≡◌, ◌≢◌, ◌≤◌, List, ℕ, length, true, is_some, Err, IfErr, IfOk, IsTrue, OnOk};
ghost use Rattle.zb_centre_store.specs.Calls.{HasBooted, HasHandled, HasLaidOut, HasSetting, IsJudged, IsLayOutFault};
ghost use Rattle.zb_centre_store.specs.Makings.{first_tables, tables_of};
ghost use Rattle.zb_backup.specs.Reading.{IsOfCentre};
ghost use Rattle.zb_base.specs.Config.{IsConfig};
ghost use Rattle.zb_core.specs.Events.{task_of};
ghost use Rattle.zb_base.specs.Outside.{Unrisen};
ghost use Rattle.zb_keys.specs.Declarations.{declared_state};
ghost use Rattle.zb_model.specs.Data as model;
ghost use Rattle.zb_model.specs.Record.{record_of};
ghost use Rattle.zb_model.specs.Rules.{Setting};
ghost use Rattle.zb_model.specs.State.{NodeState, after_boot, shown};
ghost use Rattle.zb_setting.specs.Settings.{setting_for};
ghost use Rattle.zb_record.specs.Ranges.{FitsBytes};
ghost use Rattle.zb_record.specs.Records.{record_read};
ghost use Rattle.zb_centre_store.specs.Skipping.{skipped};
ghost use Rattle.zb_base.specs.Sizes.{record_room};
ghost use Rattle.zb_store.specs.Store.{IsHeld, formatted};
ghost use Rattle.zb_stored_tables.specs.Cores.{IsOfRole};

use crate::{AdminFault, skip};
use std::alloc::Global;
use zb_base::{Config, Failed, Key, NoMemory, OrMemory, RECORD_ROOM, Role};
use zb_centre::{Centre, CentreEvent};
use zb_disk::Disk;
use zb_host::{Host, Outcome, Plan};
use zb_keys::{Declaration, HeldNetwork, Tables};
use zb_node_types::Refusal;
use zb_seal::Term;
use zb_store::{Store, StoreFault};

// Boots the centre whose store stands on the disk.
fn boot<D: Disk>(alloc: Global, config: &Config, disk: &mut D) -> Result<Host<Centre>, AdminFault>
    requires config { IsConfig config.now }
    requires role { IsOfRole model.Centre config.now }
    ensures booted { HasBooted D.tells (setting_for config.now) (D.state disk.old) result (D.state disk.new) }
    ensures configured { IfOk result (λ centre. centre.core.setting ≡ setting_for config.now) }
    ensures count { (D.state disk.old).faults ≤ (D.state disk.new).faults }
{
    match Host::boot(alloc, config, disk) {
        Ok(host) => Ok(host),
        Err(fault) => Err(AdminFault::from(fault)),
    }
}

/// Judges the store, and boots the centre from it. It returns None where the disk is empty.
///
/// Requires a configuration of the centre.
///
/// # Errors
/// `Disk`; `NoStore`; `BadStore`, with the place of the fault; `NoMemory`.
pub fn judge<D: Disk>(
    alloc: Global,
    config: &Config,
    disk: &mut D,
) -> Result<Option<Host<Centre>>, AdminFault>
    requires config { IsConfig config.now }
    requires role { IsOfRole model.Centre config.now }
    ensures judged { IsJudged D.tells (setting_for config.now) (D.state disk.old) result (D.state disk.new) }
    ensures configured { IfOk result (HasSetting (setting_for config.now)) }
    ensures count { (D.state disk.old).faults ≤ (D.state disk.new).faults }
{
    match disk.size() {
        Ok(size) => judge_sized(alloc, config, disk, size),
        Err(Failed) => Err(AdminFault::Disk),
    }
}

// Judges the store on a disk of that size, as `judge` does.
fn judge_sized<D: Disk>(
    alloc: Global,
    config: &Config,
    disk: &mut D,
    size: u64,
) -> Result<Option<Host<Centre>>, AdminFault>
    requires config { IsConfig config.now }
    requires role { IsOfRole model.Centre config.now }
    requires size { IsTrue D.tells.content → size ≡ length (D.state disk.old).seen }
    ensures judged { IsJudged D.tells (setting_for config.now) (D.state disk.old) result (D.state disk.new) }
    ensures configured { IfOk result (HasSetting (setting_for config.now)) }
    ensures count { (D.state disk.old).faults ≤ (D.state disk.new).faults }
{
    if size == 0 {
        return Ok(None);
    }
    match boot(alloc, config, disk) {
        Ok(host) => Ok(Some(host)),
        Err(fault) => Err(fault),
    }
}

// Makes a store with the record of tables. Requires room for a record.
fn format<D: Disk>(
    alloc: Global,
    disk: &mut D,
    tables: &Tables,
    room: &mut [u8],
) -> Result<(), AdminFault>
    requires { record_room ≤ length room.old }
    ensures held { OnOk result (IsTrue D.tells.content
        → IsHeld (formatted (record_of tables.now)) (D.state disk.new)) }
    ensures faults { IfErr result (IsLayOutFault D.tells (D.state disk.old) (D.state disk.new)) }
    ensures count { (D.state disk.old).faults ≤ (D.state disk.new).faults }
    ensures unrisen { result ≢ Err AdminFault.Disk
        → Unrisen (D.state disk.old).faults (D.state disk.new).faults }
{
    let len = tables.record_bytes(room) as usize;
    match Store::format(alloc, disk, &room[..len]) {
        Ok(_) => Ok(()),
        Err(StoreFault::Disk) => Err(AdminFault::Disk),
        Err(StoreFault::NoMemory) => Err(AdminFault::NoMemory),
        // A record isn't too large, and there is no other fault.
        Err(StoreFault::NoRecord) => unreachable!(),
        Err(StoreFault::TooLarge { len: _ }) => unreachable!(),
        Err(StoreFault::Worn) => unreachable!(),
    }
}

// Makes a store with the record of tables, and boots the centre from it.
fn lay_out<D: Disk>(
    alloc: Global,
    config: &Config,
    disk: &mut D,
    tables: &Tables,
) -> Result<Host<Centre>, AdminFault>
    requires config { IsConfig config.now }
    requires role { IsOfRole model.Centre config.now }
    requires centre { tables.now.role ≡ model.Centre }
    requires booted { after_boot tables.now ≡ tables.now }
    requires widths { FitsBytes tables.now }
    ensures made { HasLaidOut D.tells (setting_for config.now) tables.now (D.state disk.old) result
        (D.state disk.new) }
    ensures configured { IfOk result (λ centre. centre.core.setting ≡ setting_for config.now) }
    ensures count { (D.state disk.old).faults ≤ (D.state disk.new).faults }
{
    tables.keep_rules();
    let mut room = Vec::with_capacity(alloc, RECORD_ROOM)?;
    room.resize(RECORD_ROOM, 0)?;
    match format(alloc, disk, tables, room.as_mut_slice()) {
        Ok(()) => boot(alloc, config, disk),
        Err(fault) => Err(fault),
    }
}

// Returns what a centre is declared with that has a network key of sequence 0.
fn first_declaration(key: Key) -> Declaration
    requires { length key.0 ≡ 16 }
    ensures is { declared_state result ≡ first_tables key.0 }
    ensures fits { FitsBytes (first_tables key.0) }
{
    Declaration {
        role: Role::Centre,
        network: Some(HeldNetwork { key, sequence: 0 }),
        code: None,
        nwk: 0,
        aps: 0,
    }
}

/// Makes the store of a centre that has a network key of sequence 0, and boots the centre.
///
/// Requires a configuration of the centre.
///
/// # Errors
/// `Disk`, `NoMemory`.
pub fn init<D: Disk>(
    alloc: Global,
    config: &Config,
    disk: &mut D,
    key: Key,
) -> Result<Host<Centre>, AdminFault>
    requires config { IsConfig config.now }
    requires role { IsOfRole model.Centre config.now }
    requires key { length key.0 ≡ 16 }
    ensures made { HasLaidOut D.tells (setting_for config.now) (first_tables key.0) (D.state disk.old) result
        (D.state disk.new) }
    ensures configured { IfOk result (λ centre. centre.core.setting ≡ setting_for config.now) }
    ensures count { (D.state disk.old).faults ≤ (D.state disk.new).faults }
{
    match Tables::from_declaration(alloc, &first_declaration(key)) {
        Ok(tables) => lay_out(alloc, config, disk, &tables),
        Err(NoMemory) => Err(AdminFault::NoMemory),
    }
}

// Reads the tables of a backup from their record, and skips `by` of their counters.
fn skipped(alloc: Global, by: u32, kept: &[u8]) -> Result<Tables, NoMemory>
    requires { (s : NodeState) × IsOfCentre s × (kept.now ≡ record_of s) }
    ensures is { IfOk result (λ t. t ≡ skipped by (tables_of (record_read kept.now))) }
    ensures centre { IfOk result (λ t. t.role ≡ model.Centre) }
    ensures booted { IfOk result (λ t. after_boot t ≡ t) }
    ensures widths { IfOk result FitsBytes }
{
    let mut tables = match Tables::from_record(alloc, kept) {
        Ok(tables) => tables,
        Err(OrMemory::NoMemory) => return Err(NoMemory),
        // The bytes are a record.
        Err(OrMemory::Fault(_)) => unreachable!(),
    };
    skip(&mut tables, by);
    Ok(tables)
}

/// Makes the store of a centre that goes on from a backup, and boots the centre. It skips `by` counters of each layer
/// and each network key.
///
/// Requires a configuration of the centre, and the record of a centre's tables.
///
/// # Errors
/// `Disk`, `NoMemory`.
pub fn restore<D: Disk>(
    alloc: Global,
    config: &Config,
    disk: &mut D,
    by: u32,
    kept: &[u8],
) -> Result<Host<Centre>, AdminFault>
    requires config { IsConfig config.now }
    requires role { IsOfRole model.Centre config.now }
    requires kept { (s : NodeState) × IsOfCentre s × (kept.now ≡ record_of s) }
    ensures made { HasLaidOut D.tells (setting_for config.now) (skipped by (tables_of (record_read kept.now)))
        (D.state disk.old) result (D.state disk.new) }
    ensures configured { IfOk result (λ centre. centre.core.setting ≡ setting_for config.now) }
    ensures count { (D.state disk.old).faults ≤ (D.state disk.new).faults }
{
    match skipped(alloc, by, kept) {
        Ok(tables) => lay_out(alloc, config, disk, &tables),
        Err(NoMemory) => Err(AdminFault::NoMemory),
    }
}

/// Returns the tables of a centre that is up.
pub fn centre_tables(host: &Host<Centre>) -> &Tables
    requires { IsTrue (is_some host.now.store) }
    ensures { result.now ≡ host.now.core.tables }
{
    host.core().node().tables()
}

// States what holds of the tables of a centre that is up, and does nothing.
fn keep_rules(host: &Host<Centre>)
    requires { IsTrue (is_some host.now.store) }
    ensures { shown host.now.core.tables ≡ host.now.core.tables }
{
    centre_tables(host).keep_rules();
}

/// Lets the centre handle an event, and returns what goes out once its changes are stored.
///
/// A refused one of its own changes nothing. Requires a centre that is up.
///
/// # Errors
/// `Disk` where a call of the disk failed; `Worn` where the whole record has to be written, and no generation is left.
pub fn handle<D: Disk>(
    host: &mut Host<Centre>,
    disk: &mut D,
    event: &CentreEvent,
) -> Result<Plan<Outcome<Term, Refusal>>, AdminFault>
    requires { IsTrue (is_some host.old.store) }
    ensures handled { (c : Setting) → HasHandled D.tells c (task_of event.now) host.old (D.state disk.old) result
        host.new (D.state disk.new) }
    ensures count { (D.state disk.old).faults ≤ (D.state disk.new).faults }
    ensures unrisen { result ≢ Err AdminFault.Disk
        → Unrisen (D.state disk.old).faults (D.state disk.new).faults }
{
    keep_rules(host);
    let mut plan = Plan::new();
    match host.handle_into(disk, event, &mut plan) {
        Ok(()) => Ok(plan),
        Err(fault) => Err(AdminFault::from(OrMemory::Fault(fault))),
    }
}
