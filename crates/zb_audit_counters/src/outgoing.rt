//! An outgoing counter: that of the APS layer, or of a network key.
ghost use Rattle.std.specs.Prelude.{◌≡◌, ◌+◌, ◌≤◌, ℕ, Some, None, min};
ghost use Rattle.std.specs.Option.{option_map};
ghost use Rattle.zb_audit_counters.specs.Counting.{ahead, greatest, start_value};
ghost use Rattle.zb_audit_counters.specs.Standing.{fresh_outgoing, limit_by, next_by, reserves_by, seals_by, since, before_of};

use crate::versioned::Versioned;

/// The greatest counter and limit.
const GREATEST: u64 = 4294967295;

/// The counter from which a key that becomes active starts again at 0.
const HALF: u64 = 2147483648;

/// The last seal of a counter.
#[derive(Clone, Copy)]
pub struct Sealed {
    /// The counter of the frame.
    pub counter: u32,
    /// The number of the node's last boot line at that time, or 0 if there was none.
    pub boot: u32,
}

/// What is known about an outgoing counter.
#[derive(Clone, Copy)]
pub struct Outgoing {
    /// The stored limit, if a line set it.
    pub limit: Versioned<Option<u32>>,
    /// The last seal.
    pub sealed: Versioned<Option<Sealed>>,
}

/// The moment of a line: its group, and what a counter starts from there.
#[derive(Clone, Copy)]
pub struct Moment {
    /// The number of the first line of its group.
    pub group: u32,
    /// The number of the node's last boot line before the group, or 0 if there was none.
    pub boot: u32,
    /// The counter that was declared for the start.
    pub declared: u32,
}

impl Outgoing {
    /// Makes a counter about which there is no line.
    pub fn new() -> Outgoing
        ensures { result ≡ fresh_outgoing }
    {
        Outgoing {
            limit: Versioned::new(None),
            sealed: Versioned::new(None),
        }
    }

    /// Returns the stored limit before a group.
    fn limit(&self, at: Moment) -> u64
        ensures value { result ≡ limit_by self.now at.group at.declared }
        ensures in_range { result ≤ greatest + 1 }
    {
        match self.limit.before(at.group) {
            Some(limit) => widened(limit),
            None => widened(at.declared),
        }
    }

    /// Returns the next counter before a group.
    pub fn next(&self, at: Moment) -> u64
        ensures value { result ≡ next_by self.now at.group at.boot at.declared }
        ensures in_range { result ≤ greatest + 1 }
    {
        match self.since(at) {
            Some(counter) => one_more(counter),
            None => self.limit(at),
        }
    }

    fn since(&self, at: Moment) -> Option<u32>
        ensures { result ≡ since at.boot (before_of at.group self.now.sealed) }
    {
        match self.sealed.before(at.group) {
            Some(sealed) => sealed.since(at.boot),
            None => None,
        }
    }

    /// Returns whether a seal uses the next counter, after a reserve if that is the limit.
    pub fn seals(&self, at: Moment, counter: u32, reserved: bool) -> bool
        ensures { result ≡ seals_by self.now at.group at.boot at.declared counter reserved }
    {
        let next = self.next(at);
        u64::from(counter) == next && (next != self.limit(at) || reserved)
    }

    /// Returns whether a reserve is a block ahead, and the next counter is the limit.
    pub fn reserves(&self, at: Moment, value: u32, block: u32) -> bool
        ensures { result ≡ reserves_by self.now at.group at.boot at.declared value block }
    {
        let next = self.next(at);
        u64::from(value) == ahead(next, block) && next == self.limit(at)
    }
}

impl Sealed {
    fn since(&self, boot: u32) -> Option<u32>
        ensures { result ≡ since boot (Some self.now) }
    {
        if self.boot == boot {
            Some(self.counter)
        } else {
            None
        }
    }
}

fn widened(counter: u32) -> u64
    ensures value { result ≡ counter }
    ensures in_range { result ≤ greatest + 1 }
{
    u64::from(counter)
}

fn one_more(counter: u32) -> u64
    ensures value { result ≡ counter + 1 }
    ensures in_range { result ≤ greatest + 1 }
{
    u64::from(counter) + 1
}

/// Returns the limit or floor that is a block ahead of a counter.
pub fn ahead(counter: u64, block: u32) -> u64
    requires { counter ≤ greatest + 1 }
    ensures { result ≡ ahead counter block }
{
    (counter + u64::from(block)).min(GREATEST)
}

/// Returns the counter at which a key starts, if the next one is `next`.
pub fn start_value(next: u64) -> u64
    ensures { result ≡ start_value next }
{
    if HALF <= next { 0 } else { next }
}
