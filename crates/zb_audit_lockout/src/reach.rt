//! Whether keys come out for removed devices that were drawn after the removal.
ghost use Rattle.std.specs.Prelude.{◌≡◌, ◌≤◌, ◌||◌, ◌&&◌, ◌⊎◌, ℕ, List, None, true, false, bytes_eq, nat_eq};
ghost use Rattle.std.specs.Prelude.{IfOk, OnOk};
ghost use Rattle.std.specs.List.{list_any};
ghost use Rattle.zb_base.specs.declared.key.Key.{Key as AnyKey};
ghost use Rattle.zb_audit_lockout.specs.Reading.{early_of, is_late, number_of, open_at};
ghost use Rattle.zb_audit_lockout.specs.Standing.{Carries, Checked, Draws, EnteredAll, CameToHold, Judged};
ghost use Rattle.zb_audit_lockout.specs.Standing.{Removes, Settles, TakenBack, Tells, TriedOne};
ghost use Rattle.zb_trace_watch.specs.Sets.{is_among, is_carried, is_node, node_has};

use crate::back::Back;
use crate::levels::level_above;
use crate::numbers::Numbers;
use crate::opened::Opening;
use crate::spread::{Spread, earliness};
use crate::windows::Windows;
use std::alloc::{AllocError, Global};
use zb_base::{Eui, Key};
use zb_trace_watch::holdings::Holdings;

/// Holds which keys lead to which, who held them, when they were drawn, and which come out for removed devices.
#[derive(Drop)]
pub struct Reach {
    /// The removed devices.
    pub windows: Windows,
    /// For each key, the keys that terms carry under it.
    pub leads: Holdings<Key>,
    /// The keys that each device ever held.
    pub held: Holdings<Eui>,
    /// For each key, the keys and the devices that lead to it.
    pub back: Back,
    /// For each key, the number of the last removal before it was drawn last.
    pub drawn: Numbers,
    /// Which keys come out for removed devices.
    pub spread: Spread,
}

impl Reach {
    /// Makes the state before the first line.
    pub fn new(alloc: Global) -> Reach
        ensures found { (d : ℕ) → open_at result.windows d ≡ None }
        ensures last { result.windows.last ≡ 0 }
        ensures leads { (b k : List ℕ) → is_carried result.leads b k ≡ false }
        ensures held { (d : ℕ) (k : List ℕ) → node_has result.held d k ≡ false }
        ensures drawn { (k : List ℕ) → number_of result.drawn k ≡ 0 }
        ensures devices { (d : ℕ) → early_of result.spread d ≡ 0 }
        ensures keys { (k : List ℕ) → number_of result.spread.keys k ≡ 0 }
    {
        Reach {
            windows: Windows::new(alloc),
            leads: Holdings::new(alloc),
            held: Holdings::new(alloc),
            back: Back::new(alloc),
            drawn: Numbers::new(alloc),
            spread: Spread::new(alloc),
        }
    }

    /// Notes that a key was drawn, and returns whether drawn keys stay out of the reach of removed devices.
    ///
    /// # Errors
    /// `AllocError`, if memory runs out.
    pub fn draw(&mut self, alloc: Global, key: Key) -> Result<bool, AllocError>
        ensures draws { OnOk result (Draws self.old self.new key) }
        ensures tells { IfOk result (λ stays. Tells self.old self.new stays) }
    {
        let last = u64::from(self.windows.last);
        self.drawn.set(key, last)?;
        let mut keys = Vec::new(alloc);
        keys.push(key)?;
        let stays = self.check(alloc, &keys)?;
        Ok(stays)
    }

    /// Notes that a term under a base key carries a key, and returns whether drawn keys stay out of reach.
    ///
    /// # Errors
    /// `AllocError`, if memory runs out.
    pub fn carry(&mut self, alloc: Global, base: Key, key: Key) -> Result<bool, AllocError>
        ensures carries { OnOk result (Carries self.old self.new base key) }
        ensures tells { IfOk result (λ stays. Tells self.old self.new stays) }
    {
        self.leads.add(alloc, base, key)?;
        self.back.bases.add(alloc, key, base)?;
        let early = self.spread.keys.of(&base);
        self.follow(alloc, key, early)
    }

    /// Notes that a device, if there is one, holds a key. Returns whether drawn keys stay out of reach.
    ///
    /// # Errors
    /// `AllocError`, if memory runs out.
    pub fn hold(&mut self, alloc: Global, device: Option<Eui>, key: Key) -> Result<bool, AllocError>
        ensures holds { OnOk result (CameToHold self.old self.new (λ d k. is_node device d && bytes_eq k key.0)) }
        ensures tells { IfOk result (λ stays. Tells self.old self.new stays) }
    {
        match device {
            Some(device) => self.hold_one(alloc, device, key),
            None => Ok(true),
        }
    }

    fn hold_one(&mut self, alloc: Global, device: Eui, key: Key) -> Result<bool, AllocError>
        ensures holds { OnOk result (CameToHold self.old self.new (λ d k. nat_eq d device.0 && bytes_eq k key.0)) }
        ensures tells { IfOk result (λ stays. Tells self.old self.new stays) }
    {
        self.back.hold(alloc, &self.held, device, key)?;
        self.held.add(alloc, device, key)?;
        let early = self.spread.of(&device);
        self.follow(alloc, key, early)
    }

    /// Notes that up to two devices hold a key. Returns whether drawn keys stay out of reach.
    ///
    /// # Errors
    /// `AllocError`, if memory runs out.
    pub fn hold_both(
        &mut self,
        alloc: Global,
        first: Option<Eui>,
        second: Option<Eui>,
        key: Key,
    ) -> Result<bool, AllocError>
        ensures holds { OnOk result (CameToHold self.old self.new
            (λ d k. (is_node first d && bytes_eq k key.0) || (is_node second d && bytes_eq k key.0))) }
        ensures tells { IfOk result (λ stays. Tells self.old self.new stays) }
    {
        let firsts = self.hold(alloc, first, key)?;
        let seconds = self.hold(alloc, second, key)?;
        Ok(firsts && seconds)
    }

    /// Notes that the line of that number removed a device.
    ///
    /// # Errors
    /// `AllocError`, if memory runs out.
    pub fn remove(&mut self, alloc: Global, device: Eui, number: u32) -> Result<(), AllocError>
        ensures { OnOk result (Removes self.old self.new device.0 number) }
    {
        self.windows.remove(device, number)?;
        self.spread
            .enter(alloc, &self.leads, &self.held, device, earliness(number))?;
        Ok(())
    }

    // Raises a key, and what comes out under it, and returns whether none of that was drawn after the removal.
    fn follow(&mut self, alloc: Global, key: Key, early: u64) -> Result<bool, AllocError>
        ensures settles { OnOk result (Settles self.old self.new) }
        ensures judged { IfOk result (λ stays. Judged self.old self.new key early stays) }
    {
        let level = self.level(alloc, key, early)?;
        let raised = self.spread.follow(alloc, &self.leads, key, level)?;
        let stays = self.check(alloc, &raised)?;
        Ok(stays)
    }

    // Returns how far to raise a key that has to become as early as `early`: so far that it needn't be raised again
    // soon.
    fn level(&self, alloc: Global, key: Key, early: u64) -> Result<u64, AllocError>
        ensures { IfOk result (λ level. early ≤ level) }
    {
        if self.spread.keys.of(&key) < early {
            let level = level_above(
                alloc,
                &self.leads,
                &self.spread.keys,
                &self.drawn,
                key,
                early,
            )?;
            Ok(level)
        } else {
            Ok(early)
        }
    }

    // Checks keys, and returns whether none was drawn after the removal of a device for which it comes out.
    fn check(&mut self, alloc: Global, keys: &[Key]) -> Result<bool, AllocError>
        ensures settles { OnOk result (Settles self.old self.new) }
        ensures checked { IfOk result (λ stays. Checked self.old self.new keys.now stays) }
    {
        let late = self.late_ones(alloc, keys)?;
        if late.is_empty() {
            Ok(true)
        } else {
            let stays = self.find_anew(alloc, late)?;
            Ok(stays)
        }
    }

    // Returns those of the keys that were drawn after a removal that is as early as they are noted.
    fn late_ones(&self, alloc: Global, keys: &[Key]) -> Result<Vec<Key>, AllocError>
        ensures { IfOk result (λ late. (k : List ℕ) → is_among keys.now k ≡ true
            → (is_among late.items k ≡ true) ⊎ (is_late self.now.drawn (number_of self.now.spread.keys k) k ≡ false)) }
    {
        let mut late = Vec::new(alloc);
        for key in keys {
            self.sift(*key, &mut late)?;
        }
        Ok(late)
    }

    // Puts a key into a list, if it was drawn after a removal that is as early as the key is noted.
    fn sift(&self, key: Key, late: &mut Vec<Key>) -> Result<(), AllocError>
        ensures kept { OnOk result ((k : List ℕ) → is_among late.old.items k ≡ true
            → is_among late.new.items k ≡ true) }
        ensures sifted { OnOk result ((is_among late.new.items key.0 ≡ true)
            ⊎ (is_late self.now.drawn (number_of self.now.spread.keys key.0) key.0 ≡ false)) }
    {
        let early = self.spread.keys.of(&key);
        if self.is_late(&key, early) {
            late.push(key)?;
            Ok(())
        } else {
            Ok(())
        }
    }

    // Finds again for which removed devices keys come out, and returns whether these keys were drawn before.
    fn find_anew(&mut self, alloc: Global, keys: Vec<Key>) -> Result<bool, AllocError>
        ensures settles { OnOk result (Settles self.old self.new) }
        ensures checked { IfOk result (λ stays. Checked self.old self.new keys.items stays) }
    {
        let openings = self.take_back(alloc, keys)?;
        let stays = self.try_all(alloc, &openings)?;
        Ok(stays)
    }

    // Withdraws that keys come out, with all that leads to them. Returns the devices among that which are removed.
    fn take_back(&mut self, alloc: Global, keys: Vec<Key>) -> Result<Vec<Opening>, AllocError>
        ensures settles { OnOk result (Settles self.old self.new) }
        ensures taken { IfOk result (λ openings. TakenBack self.old self.new keys.items openings.items) }
    {
        let cleared = self.spread.keys.clear(alloc, &self.back.bases, keys)?;
        let openings = self
            .spread
            .forget(alloc, &self.back, &self.windows, &cleared)?;
        Ok(openings)
    }

    // Enters removed devices, and returns whether no key that comes out for one was drawn since.
    fn try_all(&mut self, alloc: Global, openings: &[Opening]) -> Result<bool, AllocError>
        ensures settles { OnOk result (Settles self.old self.new) }
        ensures entered { IfOk result (λ stays. EnteredAll self.old self.new openings.now stays) }
    {
        for opening in openings {
            let stays = self.try_one(alloc, opening)?;
            if !stays {
                return Ok(false);
            }
        }
        Ok(true)
    }

    // Enters a removed device, and returns whether no key that comes out for it was drawn since.
    fn try_one(&mut self, alloc: Global, opening: &Opening) -> Result<bool, AllocError>
        ensures settles { OnOk result (Settles self.old self.new) }
        ensures tried { IfOk result (λ stays. TriedOne self.old self.new opening.now stays) }
    {
        let early = earliness(opening.number);
        let raised = self
            .spread
            .enter(alloc, &self.leads, &self.held, opening.device, early)?;
        Ok(!self.any_late(&raised, early))
    }

    fn any_late(&self, keys: &[Key], early: u64) -> bool
        ensures { result ≡ list_any (λ (key : AnyKey). is_late self.now.drawn early key.0) keys.now }
    {
        for key in keys {
            if self.is_late(key, early) {
                return true;
            }
        }
        false
    }

    // Returns whether the key was drawn after a removal that is as early as `early`.
    fn is_late(&self, key: &Key, early: u64) -> bool
        ensures { result ≡ is_late self.now.drawn early key.now.0 }
    {
        u128::from(early) + u128::from(self.drawn.of(key)) >= 4294967296
    }
}
