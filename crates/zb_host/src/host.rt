//! The host: a core, its store, and the rule that what goes out is stored first.
ghost use Rattle.std.specs.Prelude.{if◌then◌else◌, Some, None, ◌≡◌, ◌≢◌, ◌==◌, ◌≤◌, ◌⊎◌, [], List, ℕ, length, get_or, Bool, true, false, is_some, IsTrue, IsErrOf, IfOk, IfErr, OnOk, OnErr};
ghost use Rattle.zb_base.specs.Config.{IsConfig};
ghost use Rattle.zb_disk.specs.View.{IsStill};
ghost use Rattle.zb_base.specs.Outside.{Unrisen};
ghost use Rattle.zb_store.specs.Layout.{Standing, stands};
ghost use Rattle.zb_store.specs.Steps.{WentThrough, WasAsked};
ghost use Rattle.std.specs.List.{concat};
ghost use Rattle.zb_store.specs.Store.{IsHeld, AllWhole, open_calls, OpenStop};
ghost use Rattle.zb_host.specs.declared.plan.Plan.{Plan as APlan};
ghost use Rattle.zb_host.specs.Hosts.{IsCurrent, writes_whole, commit_calls, HasStopped, IsWorn};
ghost use Rattle.zb_host.specs.HostFaults.{IsHandleFault, IsOfCommit, IsUnstored};
ghost use Rattle.zb_host.specs.Calls.{words_of, handled, IsHandled, IsBooted};

use crate::commit::{commit, make_room};
use crate::{Core, HostFault, Plan, RecordFault};
use std::alloc::Global;
use std::marker::Model;
use zb_base::{Config, OrMemory};
use zb_disk::Disk;
use zb_node_types::{Changes, KeyError};
use zb_store::{Store, StoreFault};

/// Runs a node's core over its store: what goes out is stored first.
#[derive(Drop)]
pub struct Host<C: Core> {
    core: C,
    // Whether the next commit writes the whole record, since the stored one is of the first version.
    whole: bool,
    // It is there while the host is up.
    store: Option<Store>,
    // Room for an entry. It has the memory for a record, and is filled up when the whole record is written.
    room: Vec<u8>,
}

impl<C: Core> Model for Host<C> {
    ghost use Rattle.zb_host.specs.Hosts.{Hosted};
    ghost use Rattle.zb_host.specs.Hosts.{IsRoom};

    ghost Value = { Hosted C };

    ghost view = { λ h. record { core = h.core; whole = h.whole; store = h.store } };

    ghost invariant = { λ h. IsRoom h.room };
}

impl<C: Core> Host<C> {
    /// Handles an event, and returns its changes and what goes out once they are stored.
    ///
    /// One entry stores them, or the whole record if no further entry fits. It takes no memory. Requires a host that
    /// is up. After a fault the host is down.
    ///
    /// # Errors
    /// `Disk`, with the changes; `Worn`.
    pub fn handle<D: Disk>(
        &mut self,
        disk: &mut D,
        event: &C::Event,
    ) -> Result<(Changes, C::Out), HostFault>
        requires up { IsTrue (is_some self.old.store) }

        // The changes and what goes out are those of a plan of the core, and the core is the one after it. If they
        // weren't stored, the plan had changes.
        ensures planned { (p : APlan C.Out) × C.is_plan self.old.core event.now p
            × C.is_after self.old.core p self.new.core × IfOk result (λ r. (r.0 ≡ p.changes) × (r.1 ≡ p.out))
            × IfErr result (λ e. ((e ≡ HostFault.Disk p.changes) ⊎ (e ≡ HostFault.Worn))
            × (p.changes.items ≢ [])) }

        // A crash at any moment leaves the old record's core or the new one's. What goes out goes out where every
        // image represents the new. After a fault the host is down.
        ensures step { IsHandled (words_of D.tells D.state C.restored C.recorded C.payload)
            self.old disk.old result self.new disk.new }
        ensures through { IfOk result (λ r. r.0.items ≢ []
            → WentThrough D.tells (commit_calls (writes_whole self.old)) (D.state disk.old) (D.state disk.new)) }

        // Without changes there is no call to the disk.
        ensures idle { IfOk result (λ r. r.0.items ≡ [] → disk.new ≡ disk.old) }
        ensures idle_store { IfOk result (λ r. r.0.items ≡ [] → self.new.store ≡ self.old.store) }
        ensures idle_whole { IfOk result (λ r. r.0.items ≡ [] → self.new.whole ≡ self.old.whole) }

        // Where the disk failed, it stopped at one of the calls, and an image in which the gate is open represents the
        // new.
        ensures stopped { IfErr result (λ e. (changes : _) → e ≡ HostFault.Disk changes
            → (s : Standing) → IsCurrent C.restored C.recorded s self.old (D.state disk.old)
            → IsTrue D.tells.content → IsTrue D.tells.steady
            → HasStopped D.tells C.restored (writes_whole self.old) s
            (C.recorded self.new.core) (C.payload changes.items) (D.state disk.old) (D.state disk.new)) }

        // An event for which the disk failed had changes.
        ensures changed { IfErr result (λ e. (changes : _) → e ≡ HostFault.Disk changes → changes.items ≢ []) }

        // After a commit the next one is an entry, unless no entry more fits. Where the whole record would need one
        // generation more than there are, nothing is stored, and the disk is left as it was.
        ensures entry_next { IfOk result (λ r. r.0.items ≢ [] → self.new.whole ≡ false) }
        ensures not_worn { IfOk result (λ r. r.0.items ≢ [] → IsWorn self.old → ⊥) }
        ensures worn { IfErr result (λ e. e ≡ HostFault.Worn → IsStill (D.state disk.old) (D.state disk.new)) }
        ensures not_worn_disk { IfErr result (λ e. (changes : _) → e ≡ HostFault.Disk changes → IsWorn self.old → ⊥) }

        ensures up { OnOk result (IsTrue (is_some self.new.store)) }
        ensures faults { IfErr result
            (IsHandleFault (writes_whole self.old) self.old.store (D.state disk.old) (D.state disk.new)) }
        ensures count { (D.state disk.old).faults ≤ (D.state disk.new).faults }
        ensures unrisen { OnOk result (Unrisen (D.state disk.old).faults (D.state disk.new).faults) }
        ensures asked { WasAsked D.tells (D.state disk.old) (D.state disk.new) }
    {
        let mut plan = Plan::new();
        match self.handle_into(disk, event, &mut plan) {
            Ok(()) => Ok((plan.changes, plan.out)),
            Err(RecordFault::Disk) => Err(HostFault::Disk {
                changes: plan.changes,
            }),
            Err(RecordFault::Worn) => Err(HostFault::Worn),
            // These are faults of a boot.
            Err(RecordFault::NoRecord | RecordFault::BadRecord { .. }) => unreachable!(),
        }
    }

    /// Handles an event as `handle` does, and writes its changes and what goes out into `plan`.
    ///
    /// It overwrites `plan`. Requires a host that is up. After a fault the host is down, and `plan` has the changes
    /// that were to be stored, and nothing that goes out.
    ///
    /// # Errors
    /// `Disk`; `Worn`.
    pub fn handle_into<D: Disk>(
        &mut self,
        disk: &mut D,
        event: &C::Event,
        plan: &mut Plan<C::Out>,
    ) -> Result<(), RecordFault>
        requires up { IsTrue (is_some self.old.store) }

        // What is written is a plan of the core, and the core is the one after it.
        ensures planned { OnOk result (C.is_plan self.old.core event.now plan.new) }
        ensures after { OnOk result (C.is_after self.old.core plan.new self.new.core) }

        // After a fault it has the changes of such a plan, and nothing goes out.
        ensures withheld { OnErr result ((p : APlan C.Out) × C.is_plan self.old.core event.now p
            × C.is_after self.old.core p self.new.core × (plan.new.changes ≡ p.changes)
            × C.Out.is_default plan.new.out) }

        // A crash at any moment leaves the old record's core or the new one's. What goes out goes out where every
        // image represents the new. After a fault the host is down.
        ensures step { IsHandled (words_of D.tells D.state C.restored C.recorded C.payload)
            self.old disk.old (handled result plan.new) self.new disk.new }
        ensures through { OnOk result (plan.new.changes.items ≢ []
            → WentThrough D.tells (commit_calls (writes_whole self.old)) (D.state disk.old) (D.state disk.new)) }

        // Without changes there is no call to the disk.
        ensures idle { OnOk result (plan.new.changes.items ≡ [] → disk.new ≡ disk.old) }
        ensures idle_store { OnOk result (plan.new.changes.items ≡ [] → self.new.store ≡ self.old.store) }
        ensures idle_whole { OnOk result (plan.new.changes.items ≡ [] → self.new.whole ≡ self.old.whole) }

        // Where the disk failed, it stopped at one of the calls, and an image in which the gate is open represents the
        // new.
        ensures stopped { IsErrOf result RecordFault.Disk
            → (s : Standing) → IsCurrent C.restored C.recorded s self.old (D.state disk.old)
            → IsTrue D.tells.content → IsTrue D.tells.steady
            → HasStopped D.tells C.restored (writes_whole self.old) s
            (C.recorded self.new.core) (C.payload plan.new.changes.items) (D.state disk.old) (D.state disk.new) }

        // An event for which it failed had changes.
        ensures changed { OnErr result (plan.new.changes.items ≢ []) }

        // After a commit the next one is an entry, unless no entry more fits. Where the whole record would need one
        // generation more than there are, nothing is stored, and the disk is left as it was.
        ensures entry_next { OnOk result (plan.new.changes.items ≢ [] → self.new.whole ≡ false) }
        ensures not_worn { OnOk result (plan.new.changes.items ≢ [] → IsWorn self.old → ⊥) }
        ensures worn { IsErrOf result RecordFault.Worn → IsStill (D.state disk.old) (D.state disk.new) }
        ensures not_worn_disk { IsErrOf result RecordFault.Disk → IsWorn self.old → ⊥ }

        ensures up { OnOk result (IsTrue (is_some self.new.store)) }
        ensures faults { IfErr result
            (IsUnstored (writes_whole self.old) self.old.store (D.state disk.old) (D.state disk.new)) }
        ensures count { (D.state disk.old).faults ≤ (D.state disk.new).faults }
        ensures unrisen { OnOk result (Unrisen (D.state disk.old).faults (D.state disk.new).faults) }
        ensures asked { WasAsked D.tells (D.state disk.old) (D.state disk.new) }
    {
        self.core.plan(event, plan);
        self.core.apply(plan);
        if plan.changes.is_empty() {
            return Ok(());
        }
        let store = self.store.take().unwrap();
        match commit(
            store,
            disk,
            self.whole,
            &mut self.room,
            &self.core,
            &plan.changes,
        ) {
            Ok(store) => {
                self.store = Some(store);
                self.whole = false;
                Ok(())
            }
            Err(fault) => {
                plan.withhold();
                Err(fault_of(fault))
            }
        }
    }

    /// Makes the host of the node whose record and entries are on the disk.
    ///
    /// It makes the device calls of `Store::open`: one, or three if the gates of both slots are open. Requires a
    /// configuration of a node of the core's role.
    ///
    /// # Errors
    /// `Disk`; `NoRecord`; `BadRecord`, with the place of the fault; out of memory.
    pub fn boot<D: Disk>(
        alloc: Global,
        config: &Config,
        disk: &mut D,
    ) -> Result<Host<C>, OrMemory<RecordFault>>
        requires config { IsConfig config.now }
        requires role { C.is_of_role config.now }

        // Its core is that of the record and the entries that the disk as it reads represents, and then every image
        // represents them. Each image at each moment represents the same as some image at entry.
        ensures step { IsBooted (words_of D.tells D.state C.restored C.recorded C.payload) disk.old result disk.new }
        ensures through { OnOk result (IsTrue D.tells.content
            → WentThrough D.tells (open_calls (D.state disk.old).seen) (D.state disk.old) (D.state disk.new)) }

        // It is the core with which a node of this configuration boots on them.
        ensures core { IfOk result (λ h. IsTrue D.tells.content → (s : Standing)
            → stands (D.state disk.old).seen ≡ Some s
            → C.is_booted config.now s.content (concat s.payloads) h.core) }

        // Whatever the disk tells, it is one with which a node of this configuration boots on some record.
        ensures configured { IfOk result (λ h. (content : List ℕ) × (payloads : List ℕ)
            × C.is_booted config.now content payloads h.core) }

        // If no slot is open, the disk is left as it was. If its bytes give no core, the calls are made.
        ensures no_record { IfErr result (λ e. e ≡ OrMemory.Fault RecordFault.NoRecord
            → IsStill (D.state disk.old) (D.state disk.new)) }
        ensures bad_record { IfErr result (λ e. (at : ℕ) → e ≡ OrMemory.Fault (RecordFault.BadRecord at)
            → IsTrue D.tells.content
            → WentThrough D.tells (open_calls (D.state disk.old).seen) (D.state disk.old) (D.state disk.new)) }
        ensures bad_record_held { IfErr result (λ e. (at : ℕ) → e ≡ OrMemory.Fault (RecordFault.BadRecord at)
            → AllWhole (D.state disk.old) → IsTrue D.tells.content
            → (s : Standing) → stands (D.state disk.old).seen ≡ Some s → IsHeld s (D.state disk.new)) }
        ensures stopped { IfErr result (λ e. e ≡ OrMemory.Fault RecordFault.Disk → AllWhole (D.state disk.old)
            → IsTrue D.tells.content → IsTrue D.tells.steady
            → (s : Standing) → stands (D.state disk.old).seen ≡ Some s
            → OpenStop D.tells s (D.state disk.old) (D.state disk.new)) }
        ensures count { (D.state disk.old).faults ≤ (D.state disk.new).faults }
        ensures up { IfOk result (λ h. IsTrue (is_some h.store)) }
        ensures unrisen { OnOk result (Unrisen (D.state disk.old).faults (D.state disk.new).faults) }
        ensures asked { WasAsked D.tells (D.state disk.old) (D.state disk.new) }
    {
        let room = make_room(alloc)?;
        let (store, record, payloads) = match Store::open(alloc, disk) {
            Ok(opened) => opened,
            Err(StoreFault::Disk) => return Err(OrMemory::Fault(RecordFault::Disk)),
            Err(StoreFault::NoRecord) => return Err(OrMemory::Fault(RecordFault::NoRecord)),
            Err(StoreFault::NoMemory) => return Err(OrMemory::NoMemory),
            // These are faults of a write.
            Err(StoreFault::TooLarge { .. } | StoreFault::Worn) => unreachable!(),
        };
        match C::restore(alloc, config, &record, &payloads) {
            Ok(core) => Ok(Host {
                core,
                whole: record.first() == Some(&1),
                store: Some(store),
                room,
            }),
            Err(OrMemory::NoMemory) => Err(OrMemory::NoMemory),
            Err(OrMemory::Fault(KeyError::BadRecord { at })) => {
                Err(OrMemory::Fault(RecordFault::BadRecord { at }))
            }
            // These are faults of a change of keys.
            Err(OrMemory::Fault(_)) => unreachable!(),
        }
    }

    /// Returns whether the host is up: no fault has come.
    pub fn is_up(&self) -> bool
        ensures { result ≡ is_some self.now.store }
    {
        self.store.is_some()
    }

    /// Returns the core. Requires a host that is up.
    pub fn core(&self) -> &C
        requires { IsTrue (is_some self.now.store) }
        ensures { result.now ≡ self.now.core }
    {
        &self.core
    }
}

// Returns why a commit failed. It reads nothing and takes no memory, and what it writes fits.
fn fault_of(fault: StoreFault) -> RecordFault
    requires { (of : RecordFault) × IsOfCommit fault of }
    ensures { IsOfCommit fault result }
{
    match fault {
        StoreFault::Disk => RecordFault::Disk,
        StoreFault::Worn => RecordFault::Worn,
        StoreFault::NoRecord | StoreFault::TooLarge { .. } | StoreFault::NoMemory => unreachable!(),
    }
}
