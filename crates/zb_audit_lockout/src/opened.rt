//! Devices with a number each, and the least of these numbers.
ghost use Rattle.std.specs.Prelude.{◌≡◌, ◌++◌, ℕ, IfOk, OnOk, None, Some, if◌then◌else◌, nat_eq};
ghost use Rattle.std.specs.Map.{keys_of};
ghost use Rattle.std.specs.Option.{option_or};
ghost use Rattle.zb_audit_lockout.specs.Ordered.{is_listed, is_number};
ghost use Rattle.zb_audit_lockout.specs.Reading.{number_in, some_by};

use std::alloc::{AllocError, Global};
use std::collections::{BTreeMap, BTreeSet};
use std::marker::Model;
use zb_base::Eui;

/// A device after its number, so that the least number comes first.
#[derive(Clone, Copy, Drop, PartialEq, Eq, PartialOrd, Ord)]
pub struct Opening {
    /// The number.
    pub number: u32,
    /// The device.
    pub device: Eui,
}

/// Holds a number for each of some devices, and finds the least one without a walk.
///
/// A contract sees it as a list of the devices with their numbers.
#[derive(Drop)]
pub struct Opened {
    numbers: BTreeMap<Eui, u32>,
    /// The same, in the order of the numbers.
    order: BTreeSet<Opening>,
}

impl Model for Opened {
    ghost use Rattle.std.specs.Prelude.{List, ℕ};
    ghost use Rattle.zb_base.specs.declared.address.Eui.{Eui as AnyEui};
    ghost use Rattle.zb_audit_lockout.specs.Ordered.{IsInOrder};

    ghost Value = { List (AnyEui × ℕ) };

    ghost view = { λ o. o.numbers.entries };

    ghost invariant = { λ o. IsInOrder o.numbers o.order };
}

impl Opened {
    /// Makes the value of no devices.
    pub fn new(alloc: Global) -> Opened
        ensures { (d : ℕ) → number_in result d ≡ None }
    {
        Opened {
            numbers: BTreeMap::new(alloc),
            order: BTreeSet::new(alloc),
        }
    }

    /// Returns the number of a device.
    pub fn number(&self, device: &Eui) -> Option<u32>
        ensures { result ≡ number_in self.now device.now.0 }
    {
        match self.numbers.get(device) {
            Some(number) => Some(*number),
            None => None,
        }
    }

    /// Notes the number of a device, unless it has one.
    ///
    /// # Errors
    /// `AllocError`, if memory runs out.
    pub fn note(&mut self, device: Eui, number: u32) -> Result<(), AllocError>
        ensures { OnOk result ((d : ℕ) → number_in self.new d
            ≡ option_or (number_in self.old d) (if nat_eq d device.0 then Some number else None)) }
    {
        if !self.numbers.contains_key(&device) {
            let opening = Opening { number, device };
            self.order.insert(opening)?;
            match self.numbers.insert(device, number) {
                Ok(_) => Ok(()),
                Err(_) => {
                    self.order.remove(&opening);
                    Err(AllocError)
                }
            }
        } else {
            Ok(())
        }
    }

    /// Returns the devices with their numbers, the least number first.
    ///
    /// # Errors
    /// `AllocError`, if memory runs out.
    pub fn list(&self, alloc: Global) -> Result<Vec<Opening>, AllocError>
        ensures { IfOk result (λ list. (n d : ℕ) → is_listed n d list.items ≡ is_number n (number_in self.now d)) }
    {
        let mut list = Vec::new(alloc);
        append_all(&self.order, &mut list)?;
        Ok(list)
    }

    /// Removes a device.
    pub fn remove(&mut self, device: Eui)
        ensures { (d : ℕ) → number_in self.new d ≡ (if nat_eq d device.0 then None else number_in self.old d) }
    {
        if let Some(number) = self.numbers.remove(&device) {
            self.order.remove(&Opening { number, device });
        }
    }

    /// Returns whether a device has a number that is at most that one.
    pub fn any_by(&self, number: u32) -> bool
        ensures { result ≡ some_by self.now number (keys_of self.now) }
    {
        match self.order.first() {
            Some(opening) => opening.number <= number,
            None => false,
        }
    }
}

/// Appends the devices of an order to a list.
///
/// # Errors
/// `AllocError`, if memory runs out.
pub fn append_all(order: &BTreeSet<Opening>, list: &mut Vec<Opening>) -> Result<(), AllocError>
    ensures { OnOk result (list.new.items ≡ list.old.items ++ order.now.keys) }
{
    for opening in order {
        list.push(*opening)?;
    }
    Ok(())
}
