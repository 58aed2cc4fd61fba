//! Which keys come out for removed devices, and how early these were removed.
ghost use Rattle.std.specs.Prelude.{◌≡◌, ◌≢◌, ◌∷◌, ◌+◌, ◌<◌, ◌||◌, ◌&&◌, ℕ, List, [], IfOk, OnOk, nat_eq};
ghost use Rattle.std.specs.Prelude.{if◌then◌else◌};
ghost use Rattle.std.specs.BTreeSet.{contains};
ghost use Rattle.zb_audit_lockout.specs.Backing.{is_one_of};
ghost use Rattle.zb_audit_lockout.specs.Withdrawing.{Unmarks, Withdraws, holds_any};
ghost use Rattle.zb_audit_lockout.specs.Ordered.{is_number, opening_at, opening_cmp};
ghost use Rattle.zb_audit_lockout.specs.Raising.{Raises};
ghost use Rattle.zb_audit_lockout.specs.Reading.{early_of, number_of, open_at, earliest};
ghost use Rattle.zb_audit_lockout.specs.Spreading.{Enters};
ghost use Rattle.zb_model.specs.Secrets.{well_known};

use crate::back::Back;
use crate::numbers::Numbers;
use crate::opened::{Opening, append_all};
use crate::windows::Windows;
use std::alloc::{AllocError, Global};
use std::collections::{BTreeMap, BTreeSet};
use zb_base::{Eui, Key, WELL_KNOWN};
use zb_trace_watch::holdings::Holdings;

/// Returns how early a removal by the line of that number is: the earlier, the greater.
pub fn earliness(number: u32) -> u64
    ensures { result + number ≡ earliest }
{
    4294967296 - u64::from(number)
}

/// How early devices were removed, and how early one for which each key comes out.
#[derive(Drop)]
pub struct Spread {
    /// How early each device was removed.
    pub devices: BTreeMap<Eui, u64>,
    /// For each key, how early a device was removed for which it comes out.
    pub keys: Numbers,
}

impl Spread {
    /// Makes the value of no removals.
    pub fn new(alloc: Global) -> Spread
        ensures devices { (d : ℕ) → early_of result d ≡ 0 }
        ensures keys { (k : List ℕ) → number_of result.keys k ≡ 0 }
    {
        Spread {
            devices: BTreeMap::new(alloc),
            keys: Numbers::new(alloc),
        }
    }

    /// Returns how early a device was removed.
    pub fn of(&self, device: &Eui) -> u64
        ensures { result ≡ early_of self.now device.now.0 }
    {
        match self.devices.get(device) {
            Some(early) => *early,
            None => 0,
        }
    }

    fn mark(&mut self, device: Eui, early: u64) -> Result<(), AllocError>
        ensures devices { OnOk result ((d : ℕ) → early_of self.new d
            ≡ (if nat_eq d device.0 then early else early_of self.old d)) }
        ensures keys { OnOk result (self.new.keys ≡ self.old.keys) }
    {
        self.devices.insert(device, early)?;
        Ok(())
    }

    /// Notes how early a device was removed, unless it is noted as early already.
    ///
    /// Returns the keys that come out for it now, and came out for no device that was removed as early.
    ///
    /// # Errors
    /// `AllocError`, if memory runs out.
    pub fn enter(
        &mut self,
        alloc: Global,
        leads: &Holdings<Key>,
        held: &Holdings<Eui>,
        device: Eui,
        early: u64,
    ) -> Result<Vec<Key>, AllocError>
        ensures { IfOk result (λ raised. Enters leads.now held.now self.old self.new device.0 early raised.items) }
    {
        let before = self.of(&device);
        if before < early {
            let raised = self.enter_anew(alloc, leads, held, device, early)?;
            Ok(raised)
        } else {
            Ok(Vec::new(alloc))
        }
    }

    fn enter_anew(
        &mut self,
        alloc: Global,
        leads: &Holdings<Key>,
        held: &Holdings<Eui>,
        device: Eui,
        early: u64,
    ) -> Result<Vec<Key>, AllocError>
        ensures { IfOk result (λ raised. early_of self.old device.0 < early
            → Enters leads.now held.now self.old self.new device.0 early raised.items) }
    {
        self.mark(device, early)?;
        let mut keys = Vec::new(alloc);
        keys.push(WELL_KNOWN)?;
        held.append_to(&device, &mut keys)?;
        let raised = self.keys.raise(alloc, leads, keys, early)?;
        Ok(raised)
    }

    /// Raises a key, and what comes out under it. Returns the keys that were raised.
    ///
    /// # Errors
    /// `AllocError`, if memory runs out.
    pub fn follow(
        &mut self,
        alloc: Global,
        leads: &Holdings<Key>,
        key: Key,
        early: u64,
    ) -> Result<Vec<Key>, AllocError>
        ensures keys { IfOk result (λ raised. Raises leads.now self.old.keys self.new.keys (key ∷ []) early
            raised.items) }
        ensures devices { OnOk result (self.new.devices ≡ self.old.devices) }
    {
        let mut keys = Vec::new(alloc);
        keys.push(key)?;
        let raised = self.keys.raise(alloc, leads, keys, early)?;
        Ok(raised)
    }

    /// Forgets the removals of all devices that hold one of these keys, which no longer come out. Returns those that
    /// are still removed, the earliest removal first.
    ///
    /// # Errors
    /// `AllocError`, if memory runs out.
    pub fn forget(
        &mut self,
        alloc: Global,
        back: &Back,
        windows: &Windows,
        keys: &[Key],
    ) -> Result<Vec<Opening>, AllocError>
        ensures { IfOk result (λ openings. Withdraws windows.now back.now self.old self.new keys.now openings.items) }
    {
        if self.keys.of(&WELL_KNOWN) == 0 {
            self.unmark_all(alloc);
            let openings = windows.removals.list(alloc)?;
            Ok(openings)
        } else {
            let openings = self.forget_holders(alloc, back, windows, keys)?;
            Ok(openings)
        }
    }

    fn unmark_all(&mut self, alloc: Global)
        ensures devices { (d : ℕ) → early_of self.new d ≡ 0 }
        ensures keys { self.new.keys ≡ self.old.keys }
    {
        self.devices = BTreeMap::new(alloc);
    }

    fn forget_holders(
        &mut self,
        alloc: Global,
        back: &Back,
        windows: &Windows,
        keys: &[Key],
    ) -> Result<Vec<Opening>, AllocError>
        ensures { IfOk result (λ openings. number_of self.old.keys well_known ≢ 0
            → Withdraws windows.now back.now self.old self.new keys.now openings.items) }
    {
        let mut opened = BTreeSet::new(alloc);
        self.forget_all(back, windows, keys, &mut opened)?;
        let mut openings = Vec::new(alloc);
        append_all(&opened, &mut openings)?;
        Ok(openings)
    }

    // Forgets the holders of keys, and puts those that are still removed into a set.
    fn forget_all(
        &mut self,
        back: &Back,
        windows: &Windows,
        keys: &[Key],
        opened: &mut BTreeSet<Opening>,
    ) -> Result<(), AllocError>
        ensures { OnOk result (Unmarks windows.now self.old self.new opened.old opened.new
            (holds_any back.now keys.now)) }
    {
        for key in keys {
            self.forget_each(windows, back.holders.at(key), opened)?;
        }
        Ok(())
    }

    fn forget_each(
        &mut self,
        windows: &Windows,
        devices: &[Eui],
        opened: &mut BTreeSet<Opening>,
    ) -> Result<(), AllocError>
        ensures { OnOk result (Unmarks windows.now self.old self.new opened.old opened.new (is_one_of devices.now)) }
    {
        for device in devices {
            self.forget_one(windows, *device, opened)?;
        }
        Ok(())
    }

    fn forget_one(
        &mut self,
        windows: &Windows,
        device: Eui,
        opened: &mut BTreeSet<Opening>,
    ) -> Result<(), AllocError>
        ensures { OnOk result (Unmarks windows.now self.old self.new opened.old opened.new (λ d. nat_eq d device.0)) }
    {
        note_open(windows, device, opened)?;
        self.unmark(&device);
        Ok(())
    }

    fn unmark(&mut self, device: &Eui)
        ensures devices { (d : ℕ) → early_of self.new d ≡ (if nat_eq d device.now.0 then 0 else early_of self.old d) }
        ensures keys { self.new.keys ≡ self.old.keys }
    {
        self.devices.remove(device);
    }
}

/// Puts a device into a set, if it is still removed.
fn note_open(
    windows: &Windows,
    device: Eui,
    opened: &mut BTreeSet<Opening>,
) -> Result<(), AllocError>
    ensures { OnOk result ((n d : ℕ) → contains opening_cmp opened.new (opening_at n d)
        ≡ (contains opening_cmp opened.old (opening_at n d)
        || (nat_eq d device.0 && is_number n (open_at windows.now d)))) }
{
    match windows.removals.number(&device) {
        Some(number) => {
            opened.insert(Opening { number, device })?;
            Ok(())
        }
        None => Ok(()),
    }
}
