//! What a host needs of a node's policy.
ghost use Rattle.std.specs.Prelude.{◌≡◌, ◌≢◌, ◌≤◌, ◌++◌, List, [], ℕ, length, take, get_or, IfOk, IfErr};
ghost use Rattle.zb_node_types.specs.declared.change.Change.{Change as change};
ghost use Rattle.zb_base.specs.Config.{IsConfig};
ghost use Rattle.zb_base.specs.declared.node.Config.{Config as configuration};
ghost use Rattle.zb_base.specs.Sizes.{record_room, payload_room, payloads_room};
ghost use Rattle.zb_host.specs.Plans.{Restored, gives, IsRestoreFault};

use std::alloc::Global;
use zb_base::{Config, OrMemory};
use zb_node_types::{Changes, KeyError};

/// What an event leads to: the changes of the stable state, and what goes out once they are stored.
///
/// It is large. So its place is made once, and plans are written there.
#[derive(Debug, Drop)]
pub struct Plan<O> {
    /// The changes, in order.
    pub changes: Changes,
    /// What goes out.
    pub out: O,
}

impl<O: Default + Drop> Plan<O> {
    /// Makes the place of plans: there are no changes, and nothing goes out.
    pub fn new() -> Plan<O>
        ensures changes { result.changes.items ≡ [] }
        ensures out { O.is_default result.out }
    {
        Plan {
            changes: Changes::new(),
            out: O::default(),
        }
    }

    /// Takes back what goes out, and leaves the changes.
    pub fn withhold(&mut self)
        ensures out { O.is_default self.new.out }
        ensures changes { self.new.changes ≡ self.old.changes }
    {
        self.out = O::default();
    }
}

/// Decides what a node does, over its tables.
///
/// It keeps nothing stable but what its record has, and it is of one role: a record of another role is bad at the byte
/// of the role.
pub trait Core: Drop {
    ghost use Rattle.zb_host.specs.declared.plan.Plan.{Plan};

    /// What happens to the node.
    type Event;

    /// What goes out: by default nothing.
    type Out: Default + Drop;

    /// The core's record.
    ghost recorded: { Self → List ℕ };

    /// This is a plan of the core for the event. What else a core's laws need of it may stand here, as a rule that it
    /// keeps by itself and that `plan` shows.
    ghost is_plan: { Self → Self.Event → Plan Self.Out → Type 0 };

    /// What applying it makes of the core.
    ghost is_after: { Self → Plan Self.Out → Self → Type 0 };

    /// How changes are spelled in an entry.
    ghost payload: { List change → List ℕ };

    /// The record of the core that a record and the payloads after it give.
    ghost restored: { List ℕ → List ℕ → Restored };

    /// The configurations of such a node: those in which it is of the core's role.
    ghost is_of_role: { configuration → Type 0 };

    /// The core with which a node boots in a configuration. It is that of a record and the payloads after it, one
    /// after the other. It says what of the core a record doesn't have: the next counters, and what it was configured
    /// with.
    ghost is_booted: { configuration → List ℕ → List ℕ → Self → Type 0 };

    /// Writes the plan of an event in place of the plan that stood there, and changes nothing else.
    fn plan(&self, event: &Self::Event, plan: &mut Plan<Self::Out>)
        ensures { is_plan self.now event.now plan.new };

    /// Makes the changes of a plan. Requires a plan of this core.
    fn apply(&mut self, plan: &Plan<Self::Out>)
        requires { (e : Self.Event) × is_plan self.old e plan.now }
        ensures { is_after self.old plan.now self.new };

    /// Writes the record, and returns its length. Requires room for `RECORD_ROOM` bytes.
    fn record(&self, into: &mut [u8]) -> u32
        requires { record_room ≤ length into.old }
        ensures len { result ≡ length (recorded self.now) }
        ensures small { result ≤ record_room }
        ensures bytes { take result into.new ≡ recorded self.now };

    /// Writes the payload of changes, and returns its length. Requires that it has at most `PAYLOAD_ROOM` bytes, and
    /// room for `PAYLOAD_ROOM` bytes.
    fn change_bytes(changes: &Changes, into: &mut [u8]) -> u32
        requires short { length (payload changes.now.items) ≤ payload_room }
        requires room { payload_room ≤ length into.old }
        ensures len { result ≡ length (payload changes.now.items) }
        ensures bytes { take result into.new ≡ payload changes.now.items };

    /// Makes the core of a node from a record and the payloads after it, one after the other. Requires a configuration
    /// of such a node, and no more bytes than a store has of them.
    ///
    /// # Errors
    /// `BadRecord`, with the place of the fault; out of memory.
    fn restore(
        alloc: Global,
        config: &Config,
        content: &[u8],
        payloads: &[u8],
    ) -> Result<Self, OrMemory<KeyError>>
        requires config { IsConfig config.now }
        requires role { is_of_role config.now }
        requires record_size { length content.now ≤ record_room }
        requires payloads_size { length payloads.now ≤ payloads_room }
        ensures core { IfOk result (λ c. restored content.now payloads.now ≡ gives (recorded c)) }
        ensures booted { IfOk result (λ c. is_booted config.now content.now payloads.now c) }
        ensures fault { IfErr result (IsRestoreFault (restored content.now payloads.now)) };

    /// The payload of a plan's changes fits an entry.
    ghost short: { (c : Self) (e : Self.Event) (p : Plan Self.Out) → is_plan c e p
        → length (payload p.changes.items) ≤ payload_room };

    /// An entry after a record that isn't of the first version leads from the core to the one after the plan.
    ghost adds: { (c d : Self) (e : Self.Event) (p : Plan Self.Out) (r q : List ℕ) → is_plan c e p → is_after c p d
        → get_or r 0 0 ≢ 1 → restored r q ≡ gives (recorded c)
        → restored r (q ++ payload p.changes.items) ≡ gives (recorded d) };

    /// After a plan the record alone gives the core that wrote it.
    ghost keeps: { (c d : Self) (e : Self.Event) (p : Plan Self.Out) → is_plan c e p → is_after c p d
        → restored (recorded d) [] ≡ gives (recorded d) };

    /// It isn't of the first version.
    ghost newest: { (c : Self) → get_or (recorded c) 0 0 ≢ 1 };

    /// A plan without changes leaves the record.
    ghost idle: { (c d : Self) (e : Self.Event) (p : Plan Self.Out) → is_plan c e p → is_after c p d
        → p.changes.items ≡ [] → recorded d ≡ recorded c };
}
