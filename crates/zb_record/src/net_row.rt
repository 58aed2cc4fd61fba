//! Rows of network keys.
ghost use Rattle.std.specs.Prelude.{◌≡◌, ◌<◌, ◌≤◌, length, map, if◌then◌else◌, nat_eq, ◌&&◌, find, All, IsTrue, IsFalse};
ghost use Rattle.std.specs.List.{list_any};
ghost use Rattle.std.specs.Option.{option_copied};
ghost use Rattle.zb_record.specs.RowViews.{net_key, heard_floor};
ghost use Rattle.zb_model.specs.State.{booted_floor, booted_net, at_net, new_net, given_net, same_key, reserved, started_at, dropped_net, shown_net, next_at, net_kept, floor_stored, floor_kept};
ghost use Rattle.zb_record.specs.Redoing.{limited};
ghost use Rattle.zb_record.specs.Senders.{IsPlace, IsAbsent, HasRoom, live_floor};
ghost use Rattle.zb_model.specs.Fits.{most_senders};

use arrayvec::ArrayVec;
use zb_base::{Eui, Key};

/// The floor of one sender under a network key.
#[derive(Clone, Copy, Debug, Default, PartialEq, Eq)]
pub struct SenderFloor {
    /// The sender of the frames.
    pub sender: Eui,
    /// The least counter that is taken now.
    pub kept: u32,
    /// The least counter that is taken after a boot. It is stored, and never 0.
    pub stored: u32,
}

/// The floors under one network key, by ascending sender.
pub type Senders = ArrayVec<SenderFloor, 64>;

/// A network key with its counter and its floors.
///
/// A row is never removed: a dropped key is refused if it comes again.
#[derive(Debug, Drop)]
pub struct NetRow {
    /// The key.
    pub key: Key,
    /// Its sequence number, by which a frame names it.
    pub sequence: u8,
    /// Whether it is in use.
    pub live: bool,
    /// Whether it was ever active.
    pub started: bool,
    /// Its outgoing counters below this one are reserved.
    pub limit: u32,
    /// The outgoing counter of the next frame under it.
    pub next: u32,
    /// The floors under it; a dropped key has none.
    pub floors: Senders,
}

impl NetRow {
    /// Makes the row of a key that was just installed.
    pub fn installed(key: Key, sequence: u8) -> NetRow
        ensures { net_key result ≡ new_net key.0 sequence }
    {
        NetRow {
            key,
            sequence,
            live: true,
            started: false,
            limit: 0,
            next: 0,
            floors: ArrayVec::new(),
        }
    }

    /// Makes the row of a new key that counts as started, with the limit that all keys have.
    pub fn given(key: Key, sequence: u8, limit: u32) -> NetRow
        ensures { net_key result ≡ given_net limit key.0 sequence }
    {
        NetRow {
            key,
            sequence,
            live: true,
            started: true,
            limit,
            next: limit,
            floors: ArrayVec::new(),
        }
    }

    /// Continues from a limit that all keys have, started. A limit never falls.
    fn limit_to(&mut self, limit: u32)
        ensures { net_key self.new ≡ limited limit (net_key self.old) }
    {
        self.started = true;
        self.limit = self.limit.max(limit);
        self.next = self.next.max(limit);
    }

    /// Continues from what is stored: the counter from its limit, each floor from the stored one.
    fn boot(&mut self)
        ensures { net_key self.new ≡ booted_net (net_key self.old) }
    {
        self.next = self.limit;
        boot_floors(&mut self.floors);
    }

    /// Drops the row and forgets its floors, if it has that key.
    fn drop_at(&mut self, key: &Key)
        ensures { net_key self.new ≡ (if same_key (net_key self.old).key key.now.0
            then shown_net (dropped_net (net_key self.old)) else net_key self.old) }
    {
        if self.key == *key {
            self.live = false;
            self.floors.clear();
        }
    }

    /// Reserves outgoing counters up to a limit, if the row has that key. A limit never falls.
    fn reserve_at(&mut self, key: &Key, limit: u32)
        ensures { net_key self.new ≡ (if same_key (net_key self.old).key key.now.0
            then reserved limit (net_key self.old) else net_key self.old) }
    {
        if self.key == *key {
            self.started = true;
            self.limit = self.limit.max(limit);
        }
    }

    /// Starts counting at a value, if the row has that key.
    fn start_at(&mut self, key: &Key, value: u32)
        ensures { net_key self.new ≡ (if same_key (net_key self.old).key key.now.0
            then started_at value (net_key self.old) else net_key self.old) }
    {
        if self.key == *key {
            self.started = true;
            self.limit = self.limit.max(value);
            self.next = self.next.max(value);
        }
    }

    /// Continues from a counter, if the row has that key.
    fn go_on_at(&mut self, key: &Key, next: u32)
        ensures { net_key self.new ≡ (if same_key (net_key self.old).key key.now.0
            then next_at next (net_key self.old) else net_key self.old) }
    {
        if self.key == *key {
            self.next = next;
        }
    }

    /// Stores a sender's floor, if the row has that key and is in use.
    fn store_at(&mut self, key: &Key, sender: Eui, value: u32)
        requires { HasRoom (if same_key (net_key self.old).key key.now.0
            then live_floor sender.0 value (net_key self.old) else net_key self.old) }
        ensures { net_key self.new ≡ (if same_key (net_key self.old).key key.now.0
            then live_floor sender.0 value (net_key self.old) else net_key self.old) }
    {
        if self.key == *key && self.live {
            store(&mut self.floors, sender, value);
        }
    }

    /// Stores in memory what was accepted of a sender, if the row has that key.
    fn hear_at(&mut self, key: &Key, sender: Eui, kept: u32)
        ensures { net_key self.new ≡ (if same_key (net_key self.old).key key.now.0
            then net_kept sender.0 kept (net_key self.old) else net_key self.old) }
    {
        if self.key == *key {
            hear(&mut self.floors, sender, kept);
        }
    }
}

/// Returns the place of a sender's floor among those by ascending sender: that of the first sender that isn't below
/// this one.
fn place(floors: &[SenderFloor], sender: Eui) -> usize
    ensures { IsPlace floors.now sender.0 result }
{
    for (i, floor) in floors.iter().enumerate() {
        if floor.sender.0 >= sender.0 {
            return i;
        }
    }
    floors.len()
}

/// Stores a sender's floor. A stored floor never falls.
fn store(floors: &mut Senders, sender: Eui, value: u32)
    requires { length (floor_stored sender.0 value (map heard_floor floors.old.items)) ≤ most_senders }
    ensures { map heard_floor floors.new.items ≡ floor_stored sender.0 value (map heard_floor floors.old.items) }
{
    let at = place(floors.as_slice(), sender);
    if !raise(floors.as_mut_slice(), at, sender, value) {
        let floor = SenderFloor {
            sender,
            kept: 0,
            stored: value,
        };
        floors.insert(at, floor);
    }
}

/// Raises the floor at the sender's place, if it belongs to that sender.
fn raise(floors: &mut [SenderFloor], at: usize, sender: Eui, value: u32) -> bool
    requires { IsPlace floors.old sender.0 at }
    ensures raised { IsTrue result → map heard_floor floors.new
        ≡ floor_stored sender.0 value (map heard_floor floors.old) }
    ensures absent { IsFalse result → (floors.new ≡ floors.old) × IsAbsent floors.old sender.0 at }
{
    if at < floors.len() && floors[at].sender.0 == sender.0 {
        floors[at].stored = floors[at].stored.max(value);
        true
    } else {
        false
    }
}

/// Stores in memory what was accepted of a sender, if a floor of it was stored.
fn hear(floors: &mut [SenderFloor], sender: Eui, kept: u32)
    ensures { map heard_floor floors.new ≡ floor_kept sender.0 kept (map heard_floor floors.old) }
{
    for floor in floors.iter_mut() {
        floor.hear(sender, kept);
    }
}

impl SenderFloor {
    /// Stores in memory what was accepted, if the floor belongs to that sender.
    fn hear(&mut self, sender: Eui, kept: u32)
        ensures { heard_floor self.new ≡ (if nat_eq (heard_floor self.old).sender sender.0
            then record (heard_floor self.old) { kept = kept } else heard_floor self.old) }
    {
        if self.sender == sender {
            self.kept = kept;
        }
    }

    /// Continues from the stored floor.
    fn boot(&mut self)
        ensures { heard_floor self.new ≡ booted_floor (heard_floor self.old) }
    {
        self.kept = self.stored;
    }
}

/// Sets all floors back to the stored ones.
fn boot_floors(floors: &mut [SenderFloor])
    ensures { map heard_floor floors.new ≡ map booted_floor (map heard_floor floors.old) }
{
    for floor in floors.iter_mut() {
        floor.boot();
    }
}

/// Sets all keys back to what is stored, as after a boot.
pub fn boot_nets(rows: &mut [NetRow])
    ensures { map net_key rows.new ≡ map booted_net (map net_key rows.old) }
{
    for row in rows.iter_mut() {
        row.boot();
    }
}

/// Drops the row of a key and forgets its floors.
pub fn drop_net(rows: &mut [NetRow], key: &Key)
    ensures { map net_key rows.new ≡ at_net key.now.0 (λ r. shown_net (dropped_net r)) (map net_key rows.old) }
{
    for row in rows.iter_mut() {
        row.drop_at(key);
    }
}

/// Reserves outgoing counters of a key.
pub fn reserve_net(rows: &mut [NetRow], key: &Key, limit: u32)
    ensures { map net_key rows.new ≡ at_net key.now.0 (reserved limit) (map net_key rows.old) }
{
    for row in rows.iter_mut() {
        row.reserve_at(key, limit);
    }
}

/// Gives all network keys this limit, unless theirs is higher. Each is started, and continues from the limit.
pub fn limit_nets(rows: &mut [NetRow], limit: u32)
    ensures { map net_key rows.new ≡ map (limited limit) (map net_key rows.old) }
{
    for row in rows.iter_mut() {
        row.limit_to(limit);
    }
}

/// Starts counting under a key.
pub fn start_net(rows: &mut [NetRow], key: &Key, value: u32)
    ensures { map net_key rows.new ≡ at_net key.now.0 (started_at value) (map net_key rows.old) }
{
    for row in rows.iter_mut() {
        row.start_at(key, value);
    }
}

/// Sets the next outgoing counter of a key.
pub fn set_net_next(rows: &mut [NetRow], key: &Key, next: u32)
    ensures { map net_key rows.new ≡ at_net key.now.0 (next_at next) (map net_key rows.old) }
{
    for row in rows.iter_mut() {
        row.go_on_at(key, next);
    }
}

/// Stores in memory what was accepted of a sender under a key.
pub fn hear_net(rows: &mut [NetRow], key: &Key, sender: Eui, kept: u32)
    ensures { map net_key rows.new ≡ at_net key.now.0 (net_kept sender.0 kept) (map net_key rows.old) }
{
    for row in rows.iter_mut() {
        row.hear_at(key, sender, kept);
    }
}

/// Stores a sender's floor under a key.
pub fn store_net(rows: &mut [NetRow], key: &Key, sender: Eui, value: u32)
    requires { All HasRoom (at_net key.now.0 (live_floor sender.0 value) (map net_key rows.old)) }
    ensures { map net_key rows.new ≡ at_net key.now.0 (live_floor sender.0 value) (map net_key rows.old) }
{
    for row in rows.iter_mut() {
        row.store_at(key, sender, value);
    }
}

/// Returns whether there is a row of that key, in use or dropped.
pub fn has_key(rows: &[NetRow], key: &Key) -> bool
    ensures { result ≡ list_any (λ r. same_key (net_key r).key key.now.0) rows.now }
{
    rows.iter().any(|row| row.key == *key)
}

/// Returns the row of a key.
pub fn key_row<'a>(rows: &'a [NetRow], key: &Key) -> Option<&'a NetRow>
    ensures { option_copied result ≡ find (λ r. same_key (net_key r).key key.now.0) rows.now }
{
    rows.iter().find(|row| row.key == *key)
}
