//! Which keys and which devices lead to each key.
ghost use Rattle.std.specs.Prelude.{◌≡◌, ℕ, List, false, OnOk};
ghost use Rattle.zb_audit_lockout.specs.Backing.{Notes, is_holder};
ghost use Rattle.zb_trace_watch.specs.Sets.{is_carried};

use crate::bags::Bags;
use std::alloc::{AllocError, Global};
use zb_base::{Eui, Key};
use zb_trace_watch::holdings::Holdings;

/// For each key, the base keys under which terms carry it, and the devices that ever held it.
#[derive(Drop)]
pub struct Back {
    /// For each key, the keys under which terms carry it.
    pub bases: Holdings<Key>,
    /// For each key, the devices that ever held it.
    pub holders: Bags<Key, Eui>,
}

impl Back {
    /// Makes the state before the first line.
    pub fn new(alloc: Global) -> Back
        ensures bases { (b k : List ℕ) → is_carried result.bases b k ≡ false }
        ensures holders { (d : ℕ) (k : List ℕ) → is_holder result k d ≡ false }
    {
        Back {
            bases: Holdings::new(alloc),
            holders: Bags::new(alloc),
        }
    }

    /// Notes that a device holds a key, unless it held it before.
    ///
    /// # Errors
    /// `AllocError`, if memory runs out.
    pub fn hold(
        &mut self,
        alloc: Global,
        held: &Holdings<Eui>,
        device: Eui,
        key: Key,
    ) -> Result<(), AllocError>
        ensures { OnOk result (Notes held.now self.old self.new device.0 key.0) }
    {
        if held.has(&device, &key) {
            Ok(())
        } else {
            self.holders.add(alloc, key, device)?;
            Ok(())
        }
    }
}
