//! Where the node of each name stands.
ghost use Rattle.std.specs.Prelude.{◌≡◌, ◌++◌, ◌∷◌, [], List, Some, None, IfOk, OnOk, is_some, true, if◌then◌else◌, bytes_eq, length, map};
ghost use Rattle.std.specs.Option.{option_or};
ghost use Rattle.arrayvec.specs.ArrayString.{ArrayString};
ghost use Rattle.zb_model.specs.Data.{Station};
ghost use Rattle.zb_model.specs.State.{is_centre};
ghost use Rattle.law_schedules.specs.Schedules.{named, station_for};
ghost use Rattle.zb_node_types.specs.Changes.{model_role};
ghost use Rattle.zb_player_events.specs.Seats.{AreSeats, first_seat, has_name, seat_in};
ghost use Rattle.zb_sched.specs.Schedules.{node_of};

use std::alloc::{AllocError, Global};
use std::collections::HashMap;
use zb_base::{Eui, Name, Role};
use zb_sched::Node as Declared;

/// Where a node stands: its place in the order of the nodes, from 0, and its EUI.
#[derive(Clone, Copy, PartialEq, Eq)]
pub struct Seat {
    /// The place, from 0.
    pub place: usize,
    /// Its EUI.
    pub eui: Eui,
}

/// The seat of the node of each name, and that of the centre.
#[derive(Drop)]
pub struct Seats {
    /// The seat of the first node of each name.
    pub by_name: HashMap<Name, Seat>,
    /// The seat of the centre.
    pub centre: Option<Seat>,
}

impl Seats {
    /// Finds the seats of nodes, in their order. Where two have one name, the first counts.
    ///
    /// # Errors
    /// `AllocError`.
    pub fn new(alloc: Global, nodes: &[Declared]) -> Result<Seats, AllocError>
        ensures { IfOk result (λ seats. AreSeats seats (map station_for (map node_of nodes.now))) }
    {
        let mut seats = Seats {
            by_name: HashMap::new(alloc),
            centre: None,
        };
        for (place, node) in nodes.iter().enumerate() {
            let seat = Seat {
                place,
                eui: node.peer.eui,
            };
            seats.add(node.peer.name, node.peer.role, seat)?;
        }
        Ok(seats)
    }

    // Adds a node after the others.
    fn add(&mut self, name: Name, role: Role, seat: Seat) -> Result<(), AllocError>
        ensures { OnOk result ((known : List Station) (p : Station) → p.name ≡ name.bytes → p.eui ≡ seat.eui.0
            → p.role ≡ model_role role → seat.place ≡ length known
            → AreSeats self.old known → AreSeats self.new (known ++ p ∷ [])) }
    {
        name_it(&mut self.by_name, name, seat)?;
        self.centre = first_centre(self.centre, role, seat);
        Ok(())
    }

    /// Returns the seat of the first node of that name.
    pub fn named(&self, name: &Name) -> Option<Seat>
        ensures { (known : List Station) → AreSeats self.now known
            → result ≡ first_seat (has_name name.now.bytes) 0 known }
    {
        self.by_name.get(name).copied()
    }

    /// Returns the EUI of the first node of that name, which is declared.
    pub fn eui(&self, name: &Name) -> Eui
        ensures { (known : List Station) → AreSeats self.now known
            → is_some (first_seat (has_name name.now.bytes) 0 known) ≡ true → result.0 ≡ named known name.now.bytes }
    {
        match self.named(name) {
            Some(seat) => seat.eui,
            None => Eui(0),
        }
    }
}

// Returns the seat of the centre, where it came before, or is this node.
fn first_centre(before: Option<Seat>, role: Role, seat: Seat) -> Option<Seat>
    ensures { result ≡ option_or before (if is_centre (model_role role) then Some seat else None) }
{
    match before {
        Some(centre) => Some(centre),
        None if role == Role::Centre => Some(seat),
        None => None,
    }
}

// Notes the seat of a name, unless one is there.
fn name_it(by_name: &mut HashMap<Name, Seat>, name: Name, seat: Seat) -> Result<(), AllocError>
    ensures { OnOk result ((q : ArrayString)
        → seat_in by_name.new q
        ≡ option_or (seat_in by_name.old q) (if bytes_eq name.bytes q.bytes then Some seat else None)) }
{
    if !by_name.contains_key(&name) {
        by_name.insert(name, seat)?;
    }
    Ok(())
}
