//! A trust centre in a short program. It makes its store if there is none, boots the centre from it, admits a device
//! by its install code, and lets the device join. Each line says what is stored and what is sent. docs/EMBEDDING.md
//! explains it.
#![tactic(auto)]

ghost use Rattle.zb_base.specs.Config.{IsConfig};
ghost use Rattle.zb_model.specs.Data as model;
ghost use Rattle.zb_stored_tables.specs.Cores.{IsOfRole};

mod network;

use crate::network::{DEVICE, config, first_keys};
use std::alloc::Global;
use std::{env, io};
use zb_base::{Config, Key, RECORD_ROOM};
use zb_centre::{Centre, CentreEvent};
use zb_disk::{Disk, MemDisk};
use zb_host::{Host, Outcome, Plan};
use zb_install::InstallCode;
use zb_keys::Tables;
use zb_node_types::Refusal;
use zb_seal::Term;
use zb_store::Store;

fn main(rt: HostRuntime) -> io::Result<()> {
    match env::args(&rt)?.nth(1) {
        Some(word) => admit(&rt, word.as_str()),
        None => println!(rt; "the word is missing: an install code"),
    }
}

/// Boots a centre on a disk in memory, admits a device, and lets it join.
///
/// The word is the install code of the device.
fn admit(rt: &(impl Print + AllocGlobal), word: &str) -> io::Result<()> {
    let Some(key) = link_key(word) else {
        return println!(rt; "the word isn't an install code");
    };
    let Ok(mut disk) = MemDisk::new(rt.alloc(), &[]) else {
        return println!(rt; "no memory");
    };
    let Some(mut centre) = open(rt.alloc(), &config(), &mut disk) else {
        return println!(rt; "no store");
    };
    let device = DEVICE;
    let provision = CentreEvent::Provision { device, key };
    handle(rt, &mut centre, &mut disk, &provision)?;
    let child = CentreEvent::Child {
        device,
        rejoin: false,
    };
    handle(rt, &mut centre, &mut disk, &child)
}

/// Returns the link key of an install code.
fn link_key(word: &str) -> Option<Key> {
    if word.len() > 100 {
        return None;
    }
    let code = InstallCode::from_hex(word).ok()?;
    Some(code.link_key())
}

/// Boots the centre from its store, which is made first if the disk is empty.
fn open<D: Disk>(alloc: Global, config: &Config, disk: &mut D) -> Option<Host<Centre>>
    requires config { IsConfig config.now }
    requires role { IsOfRole model.Centre config.now }
{
    if disk.size().ok()? == 0 {
        init(alloc, disk)?;
    }
    Host::boot(alloc, config, disk).ok()
}

/// Makes the store of a centre with its first keys.
fn init<D: Disk>(alloc: Global, disk: &mut D) -> Option<()> {
    let tables = Tables::from_declaration(alloc, &first_keys()).ok()?;
    let mut room = Vec::new(alloc);
    room.resize(RECORD_ROOM, 0).ok()?;
    let len = tables.record_bytes(&mut room) as usize;
    let _ = Store::format(alloc, disk, &room[..len]).ok()?;
    Some(())
}

/// Lets the centre handle an event. What is sent is shown after the changes are stored.
fn handle<D: Disk>(
    rt: &(impl Print + AllocGlobal),
    centre: &mut Host<Centre>,
    disk: &mut D,
    event: &CentreEvent,
) -> io::Result<()> {
    if !centre.is_up() {
        return println!(rt; "the centre is down: boot it again");
    }
    let mut plan = Plan::new();
    match centre.handle_into(disk, event, &mut plan) {
        Ok(()) => show(rt, &plan),
        Err(_) => println!(rt; "not stored, so nothing goes out"),
    }
}

/// Prints how many changes are stored, and the frame that is sent, if there is one.
fn show(rt: &(impl Print + AllocGlobal), plan: &Plan<Outcome<Term, Refusal>>) -> io::Result<()> {
    let stored = plan.changes.len();
    if let Some(frame) = &plan.out.frame {
        let bytes = hex::encode_upper(rt.alloc(), frame.as_slice())?;
        println!(rt; "stored {stored}, send {bytes}")
    } else if plan.out.refused.is_some() {
        println!(rt; "stored {stored}, refused")
    } else {
        println!(rt; "stored {stored}, nothing to send")
    }
}
