//! The known EUIs of short addresses.
ghost use Rattle.std.specs.Prelude.{◌≡◌, ◌==◌, ℕ, Some, None, OnOk, if◌then◌else◌};
ghost use Rattle.std.specs.Option.{option_or};
ghost use Rattle.zb_inspect_frame.specs.Known.{known_of};

use std::alloc::{AllocError, Global};
use std::collections::BTreeMap;
use std::marker::Model;
use zb_base::{Eui, Short};

/// Finds the known EUIs of short addresses.
///
/// A contract sees them as their list. If a short address is in it twice, the first EUI counts.
#[derive(Drop)]
pub struct Addresses<'a> {
    list: &'a [(Short, Eui)],
    by_short: BTreeMap<Short, Eui>,
}

impl<'a> Model for Addresses<'a> {
    ghost use Rattle.std.specs.Prelude.{◌≡◌, ℕ, List};
    ghost use Rattle.zb_base.specs.declared.address.Eui.{Eui};
    ghost use Rattle.zb_base.specs.declared.address.Short.{Short};
    ghost use Rattle.zb_inspect_frame.specs.Known.{known_of};
    ghost use Rattle.zb_inspect_frame.specs.Shows.{addr_of};

    ghost Value = { List (Short × Eui) };

    ghost view = { λ a. a.list.now };

    ghost invariant = { λ a. (short : ℕ) → known_of a.by_short short ≡ addr_of (record { 0 = short }) a.list.now };
}

impl<'a> Addresses<'a> {
    ghost use Rattle.std.specs.Prelude.{◌≡◌, IfOk};
    ghost use Rattle.zb_inspect_frame.specs.Shows.{addr_of};

    /// Notes the addresses of a list.
    ///
    /// # Errors
    /// `AllocError`, if memory runs out.
    pub fn new(alloc: Global, list: &'a [(Short, Eui)]) -> Result<Addresses<'a>, AllocError>
        ensures { IfOk result (λ a. a ≡ list.now) }
    {
        let mut by_short = BTreeMap::new(alloc);
        for addr in list {
            note(&mut by_short, *addr)?;
        }
        Ok(Addresses { list, by_short })
    }

    /// Finds the first EUI of a short address.
    pub fn of(&self, short: Short) -> Option<Eui>
        ensures { result ≡ addr_of short self.now }
    {
        self.by_short.get(&short).copied()
    }
}

/// Notes the EUI of a short address, if none is noted yet.
fn note(by_short: &mut BTreeMap<Short, Eui>, addr: (Short, Eui)) -> Result<(), AllocError>
    ensures { OnOk result ((q : ℕ) → known_of by_short.new q ≡ option_or (known_of by_short.old q)
        (if addr.0.0 == q then Some addr.1 else None)) }
{
    if !by_short.contains_key(&addr.0) {
        by_short.insert(addr.0, addr.1)?;
    }
    Ok(())
}
