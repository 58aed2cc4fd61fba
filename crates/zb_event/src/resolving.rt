//! Events as lines say them, and the one place in which their names and codes are resolved.
ghost use Rattle.std.specs.Prelude.{◌≡◌, ℕ, List, Option, None, Some, Ok, Err};
ghost use Rattle.std.specs.Option.{option_map};
ghost use Rattle.zb_event.specs.Resolving.{IsFound, Resolves, provided, resolved, said_of, with_node, with_two};
ghost use Rattle.zb_model.specs.Data.{DoRemove, DoShare};

use crate::event::{Event, NodeEvent};
use zb_base::{Eui, Name};
use zb_install::InstallCode;

/// An event as a line says it: nodes are named by name, and an install code admits a device.
///
/// The code is None if the bytes of the line aren't an install code.
pub type Said = Event<Name, Option<InstallCode>>;

/// Why the names or the code of an event don't resolve.
#[derive(Clone, Copy, Debug, PartialEq, Eq)]
pub enum Unresolved {
    /// A node isn't declared or has another role, or a node is its own parent or partner.
    UnknownNode,
    /// The bytes aren't an install code.
    BadCode,
}

/// Finds declared nodes by their names.
pub trait Names {
    /// The EUI of the router or device of a name.
    ghost device: { Self → List ℕ → Option ℕ };

    /// The EUI of the centre or router of a name.
    ghost parent: { Self → List ℕ → Option ℕ };

    /// Returns the EUI of the router or device of a name.
    fn find_device(&self, name: &Name) -> Option<Eui>
        ensures { option_map (λ eui. eui.0) result ≡ device self.now name.now.bytes };

    /// Returns the EUI of the centre or router of a name.
    fn find_parent(&self, name: &Name) -> Option<Eui>
        ensures { option_map (λ eui. eui.0) result ≡ parent self.now name.now.bytes };
}

// Returns the router or device of a name.
fn device_of<T: Names>(names: &T, name: &Name) -> Result<Eui, Unresolved>
    ensures { IsFound result (T.device names.now name.now.bytes) }
{
    match names.find_device(name) {
        Some(eui) => Ok(eui),
        None => Err(Unresolved::UnknownNode),
    }
}

// Returns the centre or router of a name.
fn parent_of<T: Names>(names: &T, name: &Name) -> Result<Eui, Unresolved>
    ensures { IsFound result (T.parent names.now name.now.bytes) }
{
    match names.find_parent(name) {
        Some(eui) => Ok(eui),
        None => Err(Unresolved::UnknownNode),
    }
}

fn provide<T: Names>(
    names: &T,
    name: &Name,
    code: Option<InstallCode>,
) -> Result<NodeEvent, Unresolved>
    ensures { Resolves result (with_node (T.device names.now name.now.bytes) (provided code)) }
{
    let device = device_of(names, name)?;
    match code {
        Some(code) => Ok(Event::Provision {
            device,
            key: code.link_key(),
        }),
        None => Err(Unresolved::BadCode),
    }
}

fn remove<T: Names>(names: &T, name: &Name, parent: &Name) -> Result<NodeEvent, Unresolved>
    ensures { Resolves result (with_two (T.device names.now) (T.parent names.now) name.now.bytes parent.now.bytes
        (λ device via. DoRemove device via)) }
{
    if *name == *parent {
        return Err(Unresolved::UnknownNode);
    }
    let device = device_of(names, name)?;
    let via = parent_of(names, parent)?;
    Ok(Event::Remove { device, via })
}

fn share<T: Names>(names: &T, name: &Name, partner: &Name) -> Result<NodeEvent, Unresolved>
    ensures { Resolves result (with_two (T.device names.now) (T.device names.now) name.now.bytes partner.now.bytes
        (λ device partner. DoShare device partner)) }
{
    if *name == *partner {
        return Err(Unresolved::UnknownNode);
    }
    let device = device_of(names, name)?;
    let partner = device_of(names, partner)?;
    Ok(Event::Share { device, partner })
}

/// Returns the event that a line says, with its names and its code resolved.
///
/// # Errors
/// `UnknownNode`, which comes before `BadCode`.
pub fn resolve<T: Names>(names: &T, said: Said) -> Result<NodeEvent, Unresolved>
    ensures { Resolves result (resolved (T.device names.now) (T.parent names.now) (said_of said)) }
{
    match said {
        Event::Say { to, bytes } => Ok(Event::Say { to, bytes }),
        Event::Tell { partner, bytes } => {
            let partner = device_of(names, &partner)?;
            Ok(Event::Tell { partner, bytes })
        }
        Event::Ask { partner } => {
            let partner = device_of(names, &partner)?;
            Ok(Event::Ask { partner })
        }
        Event::Knock => Ok(Event::Knock),
        Event::Rejoin => Ok(Event::Rejoin),
        Event::Timer => Ok(Event::Timer),
        Event::Child { device, rejoin } => {
            let device = device_of(names, &device)?;
            Ok(Event::Child { device, rejoin })
        }
        Event::Provision { device, key } => provide(names, &device, key),
        Event::Remove { device, via } => remove(names, &device, &via),
        Event::Roll { draw } => Ok(Event::Roll { draw }),
        Event::Switch => Ok(Event::Switch),
        Event::Again { device } => {
            let device = device_of(names, &device)?;
            Ok(Event::Again { device })
        }
        Event::Share { device, partner } => share(names, &device, &partner),
        Event::Deliver { bytes, draw } => Ok(Event::Deliver { bytes, draw }),
    }
}
