//! What the events of a schedule are to the nodes.
ghost use Rattle.std.specs.Prelude.{◌≡◌, List, Some, ℕ};
ghost use Rattle.zb_install.specs.Code.{code_key};
ghost use Rattle.zb_model.specs.Data.{Station, SayTo, TellTo, AskFor, HasChild, DoProvision, DoRemove, DoAgain, DoShare};
ghost use Rattle.zb_model.specs.Play.{ArmStop};
ghost use Rattle.law_schedules.specs.Schedules.{event_for, named};
ghost use Rattle.zb_player_events.specs.Acts.{HasNames, IsNamed, IsOwn, act_for, seat_for};
ghost use Rattle.zb_player_events.specs.Seats.{AreSeats};
ghost use Rattle.zb_player_events.specs.declared.seats.Seat.{Seat as seat};
ghost use Rattle.zb_sched_line.specs.Views.{event_of};

use crate::seats::{Seat, Seats};
use arrayvec::ArrayVec;
use zb_base::{Name, Short};
use zb_install::InstallCode;
use zb_player_node::NodeEvent;
use zb_sched::Event;
use zb_send::copied;

/// What an event is to its node, or that it is the outside's.
#[derive(Drop)]
pub enum Act {
    /// An event of its own.
    Own(NodeEvent),
    /// The centre draws a new network key.
    Roll,
    /// The frame of that number arrives.
    Deliver(u32),
    /// Its power goes off.
    Reset,
    /// Its power comes back.
    Boot,
    /// Its record is shown.
    Dump,
    /// A stop is armed on its disk.
    Stop {
        /// Counts the device calls that go through first.
        calls: u8,
        /// Stands in place of what was written and not synced.
        torn: ArrayVec<u8, 32>,
    },
    /// A failure is armed on its disk.
    Fail {
        /// The number of the device call that fails, counted from 1.
        call: u8,
    },
    /// It is of no node.
    Outside,
}

// Returns the act of a node that says data to a short address.
fn say(to: Short, bytes: &ArrayVec<u8, 64>) -> Act
    ensures { IsOwn result (SayTo to.0 bytes.now.items) }
{
    Act::Own(NodeEvent::Say {
        to,
        bytes: copied(bytes),
    })
}

// Returns the act by which a stop is armed on the disk of a node.
fn stop(calls: u8, torn: &ArrayVec<u8, 32>) -> Act
    ensures { (n : ℕ) → act_for n result ≡ Some (ArmStop n calls torn.now.items) }
{
    let mut copy = ArrayVec::new();
    let _ = copy.try_extend_from_slice(torn.as_slice());
    Act::Stop { calls, torn: copy }
}

impl Seats {
    /// Returns the seat of the node that an event is of, or none where it is the outside's.
    pub fn of_event(&self, event: &Event) -> Option<Seat>
        ensures { (known : List Station) → AreSeats self.now known
            → result ≡ seat_for known (event_of event.now) }
    {
        match event {
            Event::Say { name, .. }
            | Event::Deliver { name, .. }
            | Event::Timer { name }
            | Event::Knock { name }
            | Event::Rejoin { name }
            | Event::Child { parent: name, .. }
            | Event::Reset { name }
            | Event::Boot { name }
            | Event::Dump { name }
            | Event::Stop { name, .. }
            | Event::Fail { name, .. }
            | Event::Ask { name, .. }
            | Event::Tell { name, .. } => self.named(name),
            Event::Provision { .. }
            | Event::Again { .. }
            | Event::Roll
            | Event::Switch
            | Event::Remove { .. }
            | Event::Share { .. } => self.centre,
            Event::Inject { .. }
            | Event::ForgeNet { .. }
            | Event::ForgeNetAps { .. }
            | Event::ForgeOpen { .. } => None,
        }
    }

    /// Returns what an event is to its node.
    pub fn act_of(&self, event: &Event) -> Act
        ensures { (known : List Station) → AreSeats self.now known → HasNames known (event_of event.now)
            → (it : seat) → seat_for known (event_of event.now) ≡ Some it
            → act_for it.eui.0 result ≡ Some (event_for known (event_of event.now)) }
    {
        match event {
            Event::Say { to, bytes, .. } => say(*to, bytes),
            Event::Deliver { frame, .. } => Act::Deliver(*frame),
            Event::Timer { .. } => Act::Own(NodeEvent::Timer),
            Event::Knock { .. } => Act::Own(NodeEvent::Knock),
            Event::Rejoin { .. } => Act::Own(NodeEvent::Rejoin),
            Event::Child { name, rejoin, .. } => self.child(name, *rejoin),
            Event::Provision { name, code } => self.provision(name, code),
            Event::Again { name } => self.again(name),
            Event::Roll => Act::Roll,
            Event::Switch => Act::Own(NodeEvent::Switch),
            Event::Remove { name, parent } => self.remove(name, parent),
            Event::Reset { .. } => Act::Reset,
            Event::Boot { .. } => Act::Boot,
            Event::Dump { .. } => Act::Dump,
            Event::Stop { calls, torn, .. } => stop(*calls, torn),
            Event::Fail { call, .. } => Act::Fail { call: *call },
            Event::Inject { .. } => Act::Outside,
            Event::ForgeNet { .. } => Act::Outside,
            Event::ForgeNetAps { .. } => Act::Outside,
            Event::ForgeOpen { .. } => Act::Outside,
            Event::Ask { partner, .. } => self.ask(partner),
            Event::Share { name, partner } => self.share(name, partner),
            Event::Tell { partner, bytes, .. } => self.tell(partner, bytes),
        }
    }

    fn child(&self, name: &Name, rejoin: bool) -> Act
        ensures { (known : List Station) → AreSeats self.now known → IsNamed known name.now.bytes
            → IsOwn result (HasChild (named known name.now.bytes) rejoin) }
    {
        let device = self.eui(name);
        Act::Own(NodeEvent::Child { device, rejoin })
    }

    fn provision(&self, name: &Name, code: &InstallCode) -> Act
        ensures { (known : List Station) → AreSeats self.now known → IsNamed known name.now.bytes
            → IsOwn result (DoProvision (named known name.now.bytes) (code_key code.now)) }
    {
        let device = self.eui(name);
        let key = code.link_key();
        Act::Own(NodeEvent::Provision { device, key })
    }

    fn again(&self, name: &Name) -> Act
        ensures { (known : List Station) → AreSeats self.now known → IsNamed known name.now.bytes
            → IsOwn result (DoAgain (named known name.now.bytes)) }
    {
        let device = self.eui(name);
        Act::Own(NodeEvent::Again { device })
    }

    fn remove(&self, name: &Name, parent: &Name) -> Act
        ensures { (known : List Station) → AreSeats self.now known → IsNamed known name.now.bytes
            → IsNamed known parent.now.bytes
            → IsOwn result (DoRemove (named known name.now.bytes) (named known parent.now.bytes)) }
    {
        let device = self.eui(name);
        let via = self.eui(parent);
        Act::Own(NodeEvent::Remove { device, via })
    }

    fn ask(&self, partner: &Name) -> Act
        ensures { (known : List Station) → AreSeats self.now known → IsNamed known partner.now.bytes
            → IsOwn result (AskFor (named known partner.now.bytes)) }
    {
        let partner = self.eui(partner);
        Act::Own(NodeEvent::Ask { partner })
    }

    fn share(&self, name: &Name, partner: &Name) -> Act
        ensures { (known : List Station) → AreSeats self.now known → IsNamed known name.now.bytes
            → IsNamed known partner.now.bytes
            → IsOwn result (DoShare (named known name.now.bytes) (named known partner.now.bytes)) }
    {
        let device = self.eui(name);
        let partner = self.eui(partner);
        Act::Own(NodeEvent::Share { device, partner })
    }

    fn tell(&self, partner: &Name, bytes: &ArrayVec<u8, 64>) -> Act
        ensures { (known : List Station) → AreSeats self.now known → IsNamed known partner.now.bytes
            → IsOwn result (TellTo (named known partner.now.bytes) bytes.now.items) }
    {
        let partner = self.eui(partner);
        Act::Own(NodeEvent::Tell {
            partner,
            bytes: copied(bytes),
        })
    }
}
