//! Devices that were removed and weren't admitted since.
ghost use Rattle.std.specs.Prelude.{◌≡◌, ◌<◌, ℕ, OnOk, None, Some, if◌then◌else◌, nat_eq};
ghost use Rattle.std.specs.Map.{keys_of};
ghost use Rattle.std.specs.Option.{option_or};
ghost use Rattle.zb_audit_lockout.specs.Reading.{open_at, opened_by, some_open, earliest};

use crate::opened::Opened;
use std::alloc::{AllocError, Global};
use zb_base::Eui;

/// The removed devices, each with the number of the line that removed it first since it was last admitted.
#[derive(Drop)]
pub struct Windows {
    /// The number of the line that removed each device.
    pub removals: Opened,
    /// The number of the last line that removed any device, or 0 if there is none.
    pub last: u32,
}

impl Windows {
    /// Makes the state before the first line.
    pub fn new(alloc: Global) -> Windows
        ensures found { (d : ℕ) → open_at result d ≡ None }
        ensures last { result.last ≡ 0 }
    {
        Windows {
            removals: Opened::new(alloc),
            last: 0,
        }
    }

    /// Notes that the line of that number removed a device.
    ///
    /// # Errors
    /// `AllocError`, if memory runs out.
    pub fn remove(&mut self, device: Eui, number: u32) -> Result<(), AllocError>
        ensures found { OnOk result ((d : ℕ)
            → open_at self.new d ≡ option_or (open_at self.old d) (if nat_eq d device.0 then Some number else None)) }
        ensures last { OnOk result (self.new.last ≡ number) }
        ensures small { OnOk result (number < earliest) }
    {
        self.removals.note(device, number)?;
        self.last = number;
        Ok(())
    }

    /// Notes that a device was admitted.
    pub fn admit(&mut self, device: Eui)
        ensures found { (d : ℕ) → open_at self.new d ≡ (if nat_eq d device.0 then None else open_at self.old d) }
        ensures last { self.new.last ≡ self.old.last }
    {
        self.removals.remove(device);
    }

    /// Returns whether a device is removed by a line of at most that number.
    pub fn is_open(&self, device: &Eui, number: u32) -> bool
        ensures { result ≡ opened_by (open_at self.now device.now.0) number }
    {
        match self.removals.number(device) {
            Some(opened) => opened <= number,
            None => false,
        }
    }

    /// Returns whether any device is removed by a line of at most that number.
    pub fn any_open(&self, number: u32) -> bool
        ensures { result ≡ some_open self.now number (keys_of self.now.removals) }
    {
        self.removals.any_by(number)
    }
}
