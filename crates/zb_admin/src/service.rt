//! Serving a script: command by command.
ghost use Rattle.std.specs.Prelude.{◌≡◌, ◌≢◌, ◌≤◌, ◌⊎◌, ◌++◌, ◌∷◌, [], Option as Maybe, Some, None, Ok, Err, false, true, is_some, option_map, IfErr, IsOk, OnOk, OnErr, IsTrue};
ghost use Rattle.std.specs.Io.KnownBytes.{Appends};
ghost use Rattle.std.specs.List.{AllByRecursion};
ghost use Rattle.zb_centre_store.specs.Calls.{HasSetting, HasStore, IsShort, is_own, tables_in};
ghost use Rattle.zb_admin.specs.Commands.{IsCarriedOut, IsCommandFault, items_of, lays_out};
ghost use Rattle.zb_admin.specs.Following.{with_setting, Follows, WritesAll, WritesFront, WritesWorn};
ghost use Rattle.zb_admin.specs.Served.{HasChanges, changes_for, done, handled, on_empty, on_store, outcome_lines, sent_lines};
ghost use Rattle.zb_admin.specs.Serving.{HasServed, IsServiceFault, Runs, Serves, outside};
ghost use Rattle.zb_centre_store.specs.Standing.{IsEmpty, IsUp, Stands};
ghost use Rattle.zb_centre_store.specs.Rows.{listed};
ghost use Rattle.zb_admin.specs.Texts.{ok_line, refuse_line};
ghost use Rattle.zb_backup.specs.Format.{backup_text};
ghost use Rattle.zb_base.specs.Config.{IsConfig};
ghost use Rattle.zb_base.specs.Outside.{AppendsFront, Rose, Unrisen};
ghost use Rattle.zb_centre_store.specs.Events.{task_of};
ghost use Rattle.zb_host.specs.Hosts.{Hosted};
ghost use Rattle.zb_model.specs.Answer.{answer};
ghost use Rattle.zb_model.specs.Data as model;
ghost use Rattle.zb_model.specs.Rules.{Setting};
ghost use Rattle.zb_model.specs.State.{NodeState};
ghost use Rattle.zb_model_real.specs.Real.{real};
ghost use Rattle.zb_setting.specs.Settings.{setting_for};
ghost use Rattle.zb_node_types.specs.Changes.{reason};
ghost use Rattle.zb_script.specs.Scripts.{IsScript, IsStep};
ghost use Rattle.zb_stored_tables.specs.Cores.{CoreValue, IsOfRole};
ghost use Rattle.zb_text.specs.Pages.{ended, page as page_of};

use crate::lines::{put_ok, put_refusal, put_refused, put_sent};
use std::alloc::{AllocError, Global};
use zb_base::{Config, Failed, Frame, Sink};
use zb_centre_store::{
    AdminFault, Centre, CentreEvent, centre_tables, handle, init, judge, put_backup, put_tables,
    restore,
};
use zb_disk::Disk;
use zb_host::{Host, Outcome};
use zb_keys::Tables;
use zb_node_types::Refusal;
use zb_script::{Order, Script, Step};
use zb_seal::Term;
use zb_text::page::hand_out;

// Prints the frame that goes on the air, if there is one.
fn put_frame(page: &mut Vec<u8>, frame: &Option<Frame>) -> Result<(), AllocError>
    ensures { OnOk result (page.new.items ≡ page.old.items ++ page_of (sent_lines (items_of frame.now))) }
{
    match frame {
        Some(frame) => put_sent(page, frame),
        None => Ok(()),
    }
}

// Prints how the event of a line went.
fn put_outcome(
    page: &mut Vec<u8>,
    line: u32,
    out: &Outcome<Term, Refusal>,
) -> Result<(), AllocError>
    ensures { OnOk result (page.new.items ≡ page.old.items
        ++ page_of (outcome_lines line (option_map reason out.now.refused) (items_of out.now.frame))) }
{
    match &out.refused {
        Some(refusal) => put_refusal(page, line, refusal),
        None => {
            put_frame(page, &out.frame)?;
            put_ok(page, line)
        }
    }
}

// Prints how the event of a line went.
fn tell(page: &mut Vec<u8>, line: u32, out: &Outcome<Term, Refusal>) -> Result<(), AdminFault>
    ensures text { OnOk result (page.new.items ≡ page.old.items
        ++ page_of (outcome_lines line (option_map reason out.now.refused) (items_of out.now.frame))) }
    ensures short { IsShort result }
{
    put_outcome(page, line, out)?;
    Ok(())
}

// Prints that the command of a line was refused.
fn refuse(page: &mut Vec<u8>, line: u32, why: &[u8]) -> Result<(), AdminFault>
    ensures text { OnOk result (page.new.items ≡ page.old.items ++ page_of (refuse_line line why.now ∷ [])) }
    ensures short { IsShort result }
{
    put_refused(page, line, why)?;
    Ok(())
}

// Prints that the command of a line was carried out.
fn confirm(page: &mut Vec<u8>, line: u32) -> Result<(), AdminFault>
    ensures text { OnOk result (page.new.items ≡ page.old.items ++ page_of (ok_line line ∷ [])) }
    ensures short { IsShort result }
{
    put_ok(page, line)?;
    Ok(())
}

// Prints what tables hold, for the command of a line.
#[tactic(auto, using(std::proofs::Common::append_assoc))]
fn show(page: &mut Vec<u8>, line: u32, tables: &Tables) -> Result<(), AdminFault>
    ensures text { OnOk result (page.new.items
        ≡ page.old.items ++ (page_of (listed tables.now) ++ page_of (ok_line line ∷ []))) }
    ensures short { IsShort result }
{
    put_tables(page, tables)?;
    confirm(page, line)?;
    Ok(())
}

// Prints the backup of tables, for the command of a line.
#[tactic(auto, using(std::proofs::Common::append_assoc))]
fn back_up(alloc: Global, page: &mut Vec<u8>, line: u32, tables: &Tables) -> Result<(), AdminFault>
    ensures text { OnOk result (page.new.items
        ≡ page.old.items ++ (ended (backup_text tables.now) ++ page_of (ok_line line ∷ []))) }
    ensures short { IsShort result }
{
    put_backup(alloc, page, tables)?;
    confirm(page, line)?;
    Ok(())
}

// Lets the centre handle the event of a line, one of its own, and prints how it went.
fn handle_event<D: Disk>(
    host: &mut Host<Centre>,
    disk: &mut D,
    line: u32,
    event: &CentreEvent,
    page: &mut Vec<u8>,
) -> Result<(), AdminFault>
    requires up { IsTrue (is_some host.old.store) }
    requires own { is_own (task_of event.now) ≡ true }
    ensures carried { IsTrue D.tells.content → (c : Setting) (s : NodeState) → IsUp c s host.old (D.state disk.old)
        → IsCarriedOut c false (Some s) (handled c line (task_of event.now) s) (D.state disk.old) page.old.items
        result (Some host.new) (D.state disk.new) page.new.items }
    ensures follows { OnOk result (Some host.new.core ≡ with_setting host.old.core.setting
        (handled host.old.core.setting line (task_of event.now) host.old.core.tables).after) }
    ensures writes { OnOk result (page.new.items ≡ page.old.items
        ++ page_of (handled host.old.core.setting line (task_of event.now) host.old.core.tables).lines) }
    ensures store { OnOk result (is_some host.new.store ≡ true) }
    ensures faults { IfErr result
        (IsCommandFault D.tells (D.state disk.old) (Some host.old) (D.state disk.new)) }
    // It is worn only where the policy's answer has changes.
    ensures worn { IfErr result (λ fault. fault ≡ AdminFault.Worn
        → (answer real host.old.core.setting host.old.core.tables (task_of event.now)).edits ≢ []) }
    ensures count { (D.state disk.old).faults ≤ (D.state disk.new).faults }
    ensures unrisen { result ≢ Err AdminFault.Disk
        → Unrisen (D.state disk.old).faults (D.state disk.new).faults }
{
    match handle(host, disk, event) {
        Ok(plan) => tell(page, line, &plan.out),
        Err(fault) => Err(fault),
    }
}

// Carries out a command where a store stands.
fn on_store<D: Disk>(
    alloc: Global,
    host: &mut Host<Centre>,
    disk: &mut D,
    step: &Step,
    page: &mut Vec<u8>,
) -> Result<(), AdminFault>
    requires { IsTrue (is_some host.old.store) }
    ensures carried { IsTrue D.tells.content → (c : Setting) (s : NodeState) → IsUp c s host.old (D.state disk.old)
        → IsCarriedOut c false (Some s) (on_store c step.now.line step.now.order s) (D.state disk.old)
        page.old.items result (Some host.new) (D.state disk.new) page.new.items }
    ensures follows { OnOk result (Some host.new.core ≡ with_setting host.old.core.setting
        (on_store host.old.core.setting step.now.line step.now.order host.old.core.tables).after) }
    ensures writes { OnOk result (page.new.items ≡ page.old.items
        ++ page_of (on_store host.old.core.setting step.now.line step.now.order host.old.core.tables).lines) }
    ensures store { OnOk result (is_some host.new.store ≡ true) }
    ensures faults { IfErr result
        (IsCommandFault D.tells (D.state disk.old) (Some host.old) (D.state disk.new)) }
    ensures worn { IfErr result (λ fault. fault ≡ AdminFault.Worn
        → changes_for host.old.core.setting step.now.order host.old.core.tables ≢ []) }
    ensures count { (D.state disk.old).faults ≤ (D.state disk.new).faults }
    ensures unrisen { result ≢ Err AdminFault.Disk
        → Unrisen (D.state disk.old).faults (D.state disk.new).faults }
{
    match &step.order {
        Order::Init { key: _ } => refuse(page, step.line, b"exists"),
        Order::Provision { device, code } => {
            let event = CentreEvent::Provision {
                device: *device,
                key: code.link_key(),
            };
            handle_event(host, disk, step.line, &event, page)
        }
        Order::Remove { device, via } => {
            let event = CentreEvent::Remove {
                device: *device,
                via: *via,
            };
            handle_event(host, disk, step.line, &event, page)
        }
        Order::List => show(page, step.line, centre_tables(host)),
        Order::Backup => back_up(alloc, page, step.line, centre_tables(host)),
        Order::Restore { skip: _, bytes: _ } => refuse(page, step.line, b"exists"),
    }
}

// Keeps the centre that was made with a new store, and confirms the command of a line.
fn keep(
    centre: &mut Option<Host<Centre>>,
    made: Result<Host<Centre>, AdminFault>,
    page: &mut Vec<u8>,
    line: u32,
) -> Result<(), AdminFault>
    ensures kept { OnOk result ((h : Hosted CoreValue) → made ≡ Ok h → centre.new ≡ Some h) }
    ensures made { OnOk result (IsOk made) }
    ensures text { OnOk result (page.new.items ≡ page.old.items ++ page_of (ok_line line ∷ [])) }
    ensures fault { IfErr result (λ f. (made ≡ Err f) ⊎ (IsOk made × (f ≡ AdminFault.NoMemory))) }
{
    match made {
        Ok(host) => {
            *centre = Some(host);
            confirm(page, line)
        }
        Err(fault) => Err(fault),
    }
}

// Carries out a command where no store stands.
fn on_empty<D: Disk>(
    alloc: Global,
    config: &Config,
    centre: &mut Option<Host<Centre>>,
    disk: &mut D,
    step: &Step,
    page: &mut Vec<u8>,
) -> Result<(), AdminFault>
    requires config { IsConfig config.now }
    requires role { IsOfRole model.Centre config.now }
    requires step { IsStep step.now }
    requires none { centre.old ≡ None }
    ensures carried { IsTrue D.tells.content → IsEmpty (D.state disk.old)
        → IsCarriedOut (setting_for config.now) (lays_out step.now.order None) None
        (on_empty step.now.line step.now.order) (D.state disk.old) page.old.items
        result centre.new (D.state disk.new) page.new.items }
    ensures configured { OnOk result (HasSetting (setting_for config.now) centre.new) }
    ensures follows { OnOk result (is_some (tables_in centre.new) ≡ lays_out step.now.order None) }
    ensures writes { OnOk result (page.new.items
        ≡ page.old.items ++ page_of (on_empty step.now.line step.now.order).lines) }
    ensures store { OnOk result (HasStore centre.new) }
    ensures faults { IfErr result
        (IsCommandFault D.tells (D.state disk.old) None (D.state disk.new)) }
    // A new store isn't worn.
    ensures worn { IfErr result (λ fault. fault ≢ AdminFault.Worn) }
    ensures count { (D.state disk.old).faults ≤ (D.state disk.new).faults }
    ensures unrisen { result ≢ Err AdminFault.Disk
        → Unrisen (D.state disk.old).faults (D.state disk.new).faults }
{
    match &step.order {
        Order::Init { key } => {
            let made = init(alloc, config, disk, *key);
            keep(centre, made, page, step.line)
        }
        Order::Restore { skip, bytes } => {
            let made = restore(alloc, config, disk, *skip, bytes.as_slice());
            keep(centre, made, page, step.line)
        }
        _ => refuse(page, step.line, b"empty"),
    }
}

// Carries out a command, and prints its lines.
fn carry_out<D: Disk>(
    alloc: Global,
    config: &Config,
    centre: &mut Option<Host<Centre>>,
    disk: &mut D,
    step: &Step,
    page: &mut Vec<u8>,
) -> Result<(), AdminFault>
    requires config { IsConfig config.now }
    requires role { IsOfRole model.Centre config.now }
    requires step { IsStep step.now }
    requires store { HasStore centre.old }
    requires configured { HasSetting (setting_for config.now) centre.old }
    ensures carried { IsTrue D.tells.content → (b : Maybe NodeState)
        → Stands (setting_for config.now) b centre.old (D.state disk.old)
        → IsCarriedOut (setting_for config.now) (lays_out step.now.order b) b
        (done (setting_for config.now) step.now b) (D.state disk.old) page.old.items
        result centre.new (D.state disk.new) page.new.items }
    ensures configured { OnOk result (HasSetting (setting_for config.now) centre.new) }
    ensures follows { OnOk result
        (Follows (setting_for config.now) step.now (tables_in centre.old) (tables_in centre.new)) }
    ensures writes { OnOk result (page.new.items
        ≡ page.old.items ++ page_of (done (setting_for config.now) step.now (tables_in centre.old)).lines) }
    ensures store { OnOk result (HasStore centre.new) }
    ensures faults { IfErr result
        (IsCommandFault D.tells (D.state disk.old) centre.old (D.state disk.new)) }
    ensures worn { IfErr result (λ fault. fault ≡ AdminFault.Worn
        → HasChanges (setting_for config.now) step.now (tables_in centre.old)) }
    ensures count { (D.state disk.old).faults ≤ (D.state disk.new).faults }
    ensures unrisen { result ≢ Err AdminFault.Disk
        → Unrisen (D.state disk.old).faults (D.state disk.new).faults }
{
    match centre {
        Some(host) => on_store(alloc, host, disk, step, page),
        None => on_empty(alloc, config, centre, disk, step, page),
    }
}

// Writes the page.
fn write_page<W: Sink>(page: &mut Vec<u8>, out: &mut W) -> Result<(), AdminFault>
    ensures whole { OnOk result (Appends (W.taken out.old) (W.taken out.new) page.old.items) }
    ensures empty { OnOk result (page.new.items ≡ []) }
    ensures front { OnErr result (AppendsFront (W.taken out.old) (W.taken out.new) page.old.items) }
    ensures fault { IfErr result (λ f. (f ≡ AdminFault.Write) × Rose (W.faults out.old) (W.faults out.new)) }
    ensures later { W.faults out.old ≤ W.faults out.new }
    ensures unrisen { OnOk result (Unrisen (W.faults out.old) (W.faults out.new)) }
{
    match hand_out(page, out) {
        Ok(()) => Ok(()),
        Err(Failed) => Err(AdminFault::Write),
    }
}

// Serves a command: carries it out, and then writes its lines.
fn serve_step<D: Disk, W: Sink>(
    alloc: Global,
    config: &Config,
    centre: &mut Option<Host<Centre>>,
    disk: &mut D,
    step: &Step,
    page: &mut Vec<u8>,
    out: &mut W,
) -> Result<(), AdminFault>
    requires config { IsConfig config.now }
    requires role { IsOfRole model.Centre config.now }
    requires step { IsStep step.now }
    requires store { HasStore centre.old }
    requires configured { HasSetting (setting_for config.now) centre.old }
    requires empty { page.old.items ≡ [] }
    ensures served { IsTrue D.tells.content → (b : Maybe NodeState)
        → Stands (setting_for config.now) b centre.old (D.state disk.old)
        → HasServed (outside D.tells D.state W.taken W.faults) (setting_for config.now) step.now b
        disk.old out.old result centre.new disk.new out.new }
    // Whatever the disk tells, its lines are those of the definition for the tables of the centre.
    ensures configured { OnOk result (HasSetting (setting_for config.now) centre.new) }
    ensures follows { OnOk result
        (Follows (setting_for config.now) step.now (tables_in centre.old) (tables_in centre.new)) }
    ensures writes { OnOk result (Appends (W.taken out.old) (W.taken out.new)
        (page_of (done (setting_for config.now) step.now (tables_in centre.old)).lines)) }
    ensures front { OnErr result (AppendsFront (W.taken out.old) (W.taken out.new)
        (page_of (done (setting_for config.now) step.now (tables_in centre.old)).lines)) }
    ensures store { OnOk result (HasStore centre.new) }
    ensures empty { OnOk result (page.new.items ≡ []) }
    ensures faults { IfErr result (IsServiceFault (outside D.tells D.state W.taken W.faults) (setting_for config.now)
        centre.old disk.old out.old disk.new out.new) }
    ensures worn { IfErr result (λ fault. fault ≡ AdminFault.Worn
        → HasChanges (setting_for config.now) step.now (tables_in centre.old) × (out.new ≡ out.old)) }
    ensures count { (D.state disk.old).faults ≤ (D.state disk.new).faults }
    ensures unrisen { result ≢ Err AdminFault.Disk
        → Unrisen (D.state disk.old).faults (D.state disk.new).faults }
    ensures later { W.faults out.old ≤ W.faults out.new }
    ensures out_unrisen { result ≢ Err AdminFault.Write → Unrisen (W.faults out.old) (W.faults out.new) }
{
    match carry_out(alloc, config, centre, disk, step, page) {
        Ok(()) => write_page(page, out),
        Err(fault) => Err(fault),
    }
}

// Serves commands, one after the other.
fn serve_steps<D: Disk, W: Sink>(
    alloc: Global,
    config: &Config,
    centre: &mut Option<Host<Centre>>,
    disk: &mut D,
    steps: &[Step],
    out: &mut W,
) -> Result<(), AdminFault>
    requires config { IsConfig config.now }
    requires role { IsOfRole model.Centre config.now }
    requires steps { AllByRecursion IsStep steps.now }
    requires store { HasStore centre.old }
    requires configured { HasSetting (setting_for config.now) centre.old }
    ensures run { IsTrue D.tells.content → (b : Maybe NodeState)
        → Stands (setting_for config.now) b centre.old (D.state disk.old)
        → Runs (outside D.tells D.state W.taken W.faults) (setting_for config.now) steps.now b
        disk.old out.old result disk.new out.new }
    ensures told { OnOk result (WritesAll (setting_for config.now) steps.now (tables_in centre.old)
        (W.taken out.old) (W.taken out.new)) }
    ensures told_front { OnErr result (WritesFront (setting_for config.now) steps.now (tables_in centre.old)
        (W.taken out.old) (W.taken out.new)) }
    ensures told_worn { IfErr result (λ fault. fault ≡ AdminFault.Worn
        → WritesWorn (setting_for config.now) steps.now (tables_in centre.old) (W.taken out.old) (W.taken out.new)) }
    ensures faults { IfErr result (IsServiceFault (outside D.tells D.state W.taken W.faults) (setting_for config.now)
        centre.old disk.old out.old disk.new out.new) }
    ensures unrisen { result ≢ Err AdminFault.Disk
        → Unrisen (D.state disk.old).faults (D.state disk.new).faults }
    ensures out_unrisen { result ≢ Err AdminFault.Write → Unrisen (W.faults out.old) (W.faults out.new) }
{
    let mut page = Vec::new(alloc);
    for step in steps {
        match serve_step(alloc, config, centre, disk, step, &mut page, out) {
            Ok(()) => {}
            Err(fault) => return Err(fault),
        }
    }
    Ok(())
}

/// Serves a script over the store on a disk, and writes what its commands answer.
///
/// The store is judged before the first command. Each command is carried out and stored, and then its lines are
/// written, before the next one begins. Requires a script that `zb_script::read` gives.
///
/// # Errors
/// - `Disk`, and nothing else, where a call of the disk failed.
/// - `NoStore` where the disk isn't empty and no slot is open.
/// - `BadStore` where what is there is no record of a centre, with the place of the fault.
/// - `Worn` where a command has something to store, the whole record has to be written, and no generation is left.
/// - `Write` where the output failed.
/// - `NoMemory`.
pub fn serve<D: Disk, W: Sink>(
    alloc: Global,
    script: &Script,
    disk: &mut D,
    out: &mut W,
) -> Result<(), AdminFault>
    requires { IsScript script.now }
    ensures served { Serves (outside D.tells D.state W.taken W.faults) script.now disk.old out.old
        result disk.new out.new }
    // No fault of the sink is reported as another one.
    ensures out_unrisen { result ≢ Err AdminFault.Write → Unrisen (W.faults out.old) (W.faults out.new) }
{
    match judge(alloc, &script.config, disk) {
        Ok(made) => {
            let mut centre = made;
            serve_steps(
                alloc,
                &script.config,
                &mut centre,
                disk,
                script.steps.as_slice(),
                out,
            )
        }
        Err(fault) => Err(fault),
    }
}
