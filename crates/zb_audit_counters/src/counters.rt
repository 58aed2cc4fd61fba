//! What is known about the counters of one node.
ghost use Rattle.std.specs.Prelude.{◌≡◌, ◌∷◌, [], ℕ, OnOk, IfOk, IfSome, Option, Some, None, nat_eq};
ghost use Rattle.arrayvec.specs.ArrayString.{ArrayString};
ghost use Rattle.zb_base.specs.declared.key.Key.{Key};
ghost use Rattle.zb_base.specs.declared.label.Layer.TheVariants.{Nwk, Aps};
ghost use Rattle.zb_audit_names.specs.Naming.{speaker};
ghost use Rattle.zb_model.specs.Data.{Bytes};
ghost use Rattle.zb_audit_counters.specs.Counting.{ahead};
ghost use Rattle.zb_audit_counters.specs.Readings.{is_key};
ghost use Rattle.zb_audit_counters.specs.Standing as kept;
ghost use Rattle.zb_audit_counters.specs.Standing.{accept_judged, active_by, active_judged, before_of, floor_judged, is_met, layer_of, next_under, reserve_judged, reserves_at, reserve_under, seal_judged, stands_if, start_judged, waits_if, waits_unless, in_block_by, judged_at, out_block_by, Hears, AreFresh, IsOfSender, PutsFloor, PutsKey};
ghost use Rattle.zb_seal.specs.declared.term.Term.{Term};
ghost use Rattle.zb_trace.specs.declared.line.Line.TheVariants as line;

use crate::floor::{Floor, Sender};
use crate::judgement::{Judgement, Need};
use crate::key::KeyCounters;
use crate::layer::LayerCounters;
use crate::outgoing::{Moment, Outgoing, Sealed, ahead, start_value};
use crate::versioned::Versioned;
use std::alloc::{AllocError, Global};
use std::collections::BTreeMap;
use zb_audit_names::Node;
use zb_base::{Key, Layer};
use zb_seal::Term;
use zb_trace::Line;

/// What is known about the counters of one node.
#[derive(Drop)]
pub struct Counters {
    /// The active network key: that of the last active line, else of the last given one.
    pub active: Versioned<Option<Key>>,
    /// Whether there was an active line.
    pub activated: bool,
    /// The number of the last boot line, or 0 if there was none.
    pub booted: Versioned<u32>,
    /// What is known about the NWK layer.
    pub nwk: LayerCounters,
    /// What is known about the APS layer.
    pub aps: LayerCounters,
    /// The outgoing counter of the APS layer; at NWK each key has its own.
    pub outgoing: Outgoing,
    /// The network keys.
    pub keys: BTreeMap<Key, KeyCounters>,
    /// The senders that the node hears.
    pub floors: BTreeMap<Sender, Floor>,
}

impl Counters {
    /// Makes the counters of a node about which there is no line.
    pub fn new(alloc: Global) -> Counters
        ensures { AreFresh result }
    {
        Counters {
            active: Versioned::new(None),
            activated: false,
            booted: Versioned::new(0),
            nwk: LayerCounters::new(),
            aps: LayerCounters::new(),
            outgoing: Outgoing::new(),
            keys: BTreeMap::new(alloc),
            floors: BTreeMap::new(alloc),
        }
    }

    /// Returns the moment of a line at NWK.
    fn at_nwk(&self, group: u32) -> Moment
        ensures { result
            ≡ record {
              group = group;
              boot = before_of group self.now.booted;
              declared = before_of group self.now.nwk.declared;
            } }
    {
        Moment {
            group,
            boot: self.booted.before(group),
            declared: self.nwk.declared.before(group),
        }
    }

    /// Returns the moment of a line at APS.
    fn at_aps(&self, group: u32) -> Moment
        ensures { result
            ≡ record {
              group = group;
              boot = before_of group self.now.booted;
              declared = before_of group self.now.aps.declared;
            } }
    {
        Moment {
            group,
            boot: self.booted.before(group),
            declared: self.aps.declared.before(group),
        }
    }

    /// Returns the next NWK counter before a group.
    fn next_nwk(&self, group: u32) -> u64
        ensures { result ≡ next_under group self.now (before_of group self.now.active) }
    {
        let at = self.at_nwk(group);
        match self.active.before(group) {
            Some(key) => key_in(&self.keys, &key).outgoing.next(at),
            None => u64::from(at.declared),
        }
    }

    /// Returns whether a key was active before a group.
    fn is_active(&self, group: u32, key: Key) -> bool
        ensures { result ≡ is_key (active_by group self.now) key.0 }
    {
        match self.active.before(group) {
            Some(active) => active == key,
            None => false,
        }
    }

    /// Notes that a counter is declared for the start.
    pub fn declare(&mut self, group: u32, layer: Layer, value: u32)
        ensures { (number : ℕ) (m : ArrayString)
            → Hears group number m.bytes (line.Counter m layer value) self.old self.new }
    {
        match layer {
            Layer::Nwk => self.nwk.declared.set(group, value),
            Layer::Aps => self.aps.declared.set(group, value),
        }
    }

    /// Notes that the node boots, at the line of this number.
    pub fn boot(&mut self, group: u32, number: u32)
        ensures { (e : ℕ) (m : ArrayString) → Hears group number m.bytes (line.Boot e m) self.old self.new }
    {
        self.booted.set(group, number);
    }

    /// Notes that the node is given a network key at the start.
    ///
    /// # Errors
    /// `AllocError`, if memory runs out.
    pub fn give(&mut self, group: u32, key: Key) -> Result<(), AllocError>
        ensures { OnOk result ((number sequence : ℕ) (m : ArrayString)
            → Hears group number m.bytes (line.GivenNet m key sequence) self.old self.new) }
    {
        let mut counters = key_in(&self.keys, &key);
        counters.started.set(group, true);
        put_key(&mut self.keys, key, counters)?;
        if !self.activated {
            self.active.set(group, Some(key));
        }
        Ok(())
    }

    /// Notes that a network key becomes active, and checks the line.
    ///
    /// # Errors
    /// `AllocError`, if memory runs out.
    pub fn activate(&mut self, group: u32, key: Key) -> Result<Judgement, AllocError>
        ensures judged { IfOk result (λ judgement. judgement ≡ active_judged group self.old key) }
        ensures heard { OnOk result ((number e : ℕ) (m : ArrayString)
            → Hears group number m.bytes (line.Active e m key) self.old self.new) }
    {
        let mut counters = key_in(&self.keys, &key);
        let stands = counters.started.before(group);
        counters.active = group;
        put_key(&mut self.keys, key, counters)?;
        self.active.set(group, Some(key));
        self.activated = true;
        Ok(waits_unless(Need::Start(key), stands))
    }

    /// Notes that a network key starts, and checks the line. `declared` says whether a line declares the node.
    ///
    /// # Errors
    /// `AllocError`, if memory runs out.
    pub fn start(
        &mut self,
        group: u32,
        key: Key,
        value: u32,
        declared: bool,
    ) -> Result<Judgement, AllocError>
        ensures judged { IfOk result (λ judgement. judgement ≡ start_judged group self.old key value declared) }
        ensures heard { OnOk result ((number e : ℕ) (m : ArrayString)
            → Hears group number m.bytes (line.Start e m key value) self.old self.new) }
    {
        let mut counters = key_in(&self.keys, &key);
        let next = self.next_nwk(group);
        let is_new = !counters.started.before(group);
        counters.outgoing.limit.set(group, Some(value));
        counters.started.set(group, true);
        counters.start = group;
        put_key(&mut self.keys, key, counters)?;
        let stands = declared && is_new && u64::from(value) == start_value(next);
        Ok(waits_if(Need::Active(key), stands))
    }

    /// Notes that a limit is reserved, and checks the line. `block` is the node's outgoing block, if a line declares
    /// the node.
    ///
    /// # Errors
    /// `AllocError`, if memory runs out.
    pub fn reserve(
        &mut self,
        group: u32,
        layer: Layer,
        value: u32,
        block: Option<u32>,
    ) -> Result<Judgement, AllocError>
        ensures judged { IfOk result (λ judgement. judgement ≡ reserve_judged group self.old layer value block) }
        ensures heard { OnOk result ((number e : ℕ) (m : ArrayString)
            → Hears group number m.bytes (line.Reserve e m layer value) self.old self.new) }
    {
        let stands = self.reserves(group, layer, value, block);
        self.reserve_at(group, layer, value)?;
        Ok(waits_if(Need::Seal(layer), stands))
    }

    fn reserve_at(&mut self, group: u32, layer: Layer, value: u32) -> Result<(), AllocError>
        ensures { OnOk result ((number e : ℕ) (m : ArrayString)
            → Hears group number m.bytes (line.Reserve e m layer value) self.old self.new) }
    {
        match layer {
            Layer::Nwk => self.reserve_nwk(group, value),
            Layer::Aps => {
                self.reserve_aps(group, value);
                Ok(())
            }
        }
    }

    fn reserves(&self, group: u32, layer: Layer, value: u32, block: Option<u32>) -> bool
        ensures { result ≡ reserves_at group self.now layer value block }
    {
        match block {
            Some(block) => self.reserves_ahead(group, layer, value, block),
            None => false,
        }
    }

    fn reserves_ahead(&self, group: u32, layer: Layer, value: u32, block: u32) -> bool
        ensures { result ≡ reserves_at group self.now layer value (Some block) }
    {
        match layer {
            Layer::Nwk => self.reserves_nwk(group, value, block),
            Layer::Aps => self.outgoing.reserves(self.at_aps(group), value, block),
        }
    }

    fn reserves_nwk(&self, group: u32, value: u32, block: u32) -> bool
        ensures { result ≡ reserve_under group self.now (before_of group self.now.active) value block }
    {
        let at = self.at_nwk(group);
        match self.active.before(group) {
            Some(key) => key_in(&self.keys, &key).outgoing.reserves(at, value, block),
            None => is_ahead(at.declared, value, block),
        }
    }

    fn reserve_nwk(&mut self, group: u32, value: u32) -> Result<(), AllocError>
        ensures { OnOk result ((number e : ℕ) (m : ArrayString)
            → Hears group number m.bytes (line.Reserve e m Nwk value) self.old self.new) }
    {
        if let Some(key) = self.active.before(group) {
            let mut counters = key_in(&self.keys, &key);
            counters.outgoing.limit.set(group, Some(value));
            put_key(&mut self.keys, key, counters)?;
        }
        self.nwk.reserved = group;
        Ok(())
    }

    fn reserve_aps(&mut self, group: u32, value: u32)
        ensures { (number e : ℕ) (m : ArrayString)
            → Hears group number m.bytes (line.Reserve e m Aps value) self.old self.new }
    {
        self.outgoing.limit.set(group, Some(value));
        self.aps.reserved = group;
    }

    /// Notes that a term is sealed, and checks the line. `declared` says whether a line declares the node.
    ///
    /// # Errors
    /// `AllocError`, if memory runs out.
    pub fn seal(&mut self, group: u32, term: &Term, declared: bool) -> Result<Judgement, AllocError>
        ensures judged { IfOk result (λ judgement.
            judgement ≡ seal_judged group self.old term.now.layer term.now.base term.now.counter declared) }
        ensures heard { OnOk result ((number e : ℕ) (m : ArrayString)
            → Hears group number m.bytes (line.Seal e m term.now) self.old self.new) }
    {
        match term.layer {
            Layer::Nwk => self.seal_nwk(group, term.base, term.counter, declared),
            Layer::Aps => Ok(self.seal_aps(group, term.counter, declared)),
        }
    }

    fn seal_nwk(
        &mut self,
        group: u32,
        base: Key,
        counter: u32,
        declared: bool,
    ) -> Result<Judgement, AllocError>
        ensures judged { IfOk result (λ judgement. judgement ≡ seal_judged group self.old Nwk base counter declared) }
        ensures heard { OnOk result ((number e : ℕ) (m : ArrayString) (t : Term) → t.layer ≡ Nwk → t.base ≡ base
            → t.counter ≡ counter → Hears group number m.bytes (line.Seal e m t) self.old self.new) }
    {
        let mut counters = key_in(&self.keys, &base);
        let reserved = self.nwk.reserved == group;
        let stands = self.is_active(group, base)
            && declared
            && counters
                .outgoing
                .seals(self.at_nwk(group), counter, reserved);
        let boot = self.booted.latest;
        counters
            .outgoing
            .sealed
            .set(group, Some(Sealed { counter, boot }));
        put_key(&mut self.keys, base, counters)?;
        self.nwk.sealed = group;
        Ok(stands_if(stands))
    }

    fn seal_aps(&mut self, group: u32, counter: u32, declared: bool) -> Judgement
        ensures judged { (base : Key) → result ≡ seal_judged group self.old Aps base counter declared }
        ensures heard { (number e : ℕ) (m : ArrayString) (t : Term) → t.layer ≡ Aps
            → t.counter ≡ counter → Hears group number m.bytes (line.Seal e m t) self.old self.new }
    {
        let reserved = self.aps.reserved == group;
        let stands = declared && self.outgoing.seals(self.at_aps(group), counter, reserved);
        let boot = self.booted.latest;
        self.outgoing
            .sealed
            .set(group, Some(Sealed { counter, boot }));
        self.aps.sealed = group;
        stands_if(stands)
    }

    /// Notes that a frame is accepted, and checks the line.
    ///
    /// # Errors
    /// `AllocError`, if memory runs out.
    pub fn accept(
        &mut self,
        group: u32,
        sender: Sender,
        counter: u32,
    ) -> Result<Judgement, AllocError>
        ensures judged { IfOk result (λ judgement. judgement ≡ accept_judged group self.old sender counter) }
        ensures heard { OnOk result ((number e : ℕ) (m : ArrayString) (t : Term) → IsOfSender t sender counter
            → Hears group number m.bytes (line.Accept e m t) self.old self.new) }
    {
        let mut floor = floor_of(&self.floors, &sender);
        let stands = counter < floor.stored.before(group);
        floor.accept(group, counter);
        put_floor(&mut self.floors, sender, floor)?;
        Ok(waits_unless(Need::Floor(sender), stands))
    }

    /// Notes that a floor is stored, and checks the line. `block` is the node's incoming block, if a line declares
    /// the node.
    ///
    /// # Errors
    /// `AllocError`, if memory runs out.
    pub fn store_floor(
        &mut self,
        group: u32,
        sender: Sender,
        value: u32,
        block: Option<u32>,
    ) -> Result<Judgement, AllocError>
        ensures judged { IfOk result (λ judgement. judgement ≡ floor_judged sender value block) }
        ensures heard { OnOk result ((number e : ℕ) (m : ArrayString)
            → Hears group number m.bytes (line.Floor e m sender.layer sender.key sender.eui value) self.old self.new) }
    {
        let mut floor = floor_of(&self.floors, &sender);
        floor.stored.set(group, value);
        put_floor(&mut self.floors, sender, floor)?;
        Ok(judged_floor(sender, value, block))
    }

    /// Processes a line of this node, which has this number, and checks it. `node` is what earlier lines declare.
    ///
    /// # Errors
    /// `AllocError`, if memory runs out.
    pub fn hear(
        &mut self,
        group: u32,
        number: u32,
        line: &Line,
        node: Option<Node>,
    ) -> Result<Judgement, AllocError>
        ensures judged { IfOk result (λ judgement. judgement
            ≡ judged_at group self.old (out_block_by node) (in_block_by node) line.now) }
        ensures heard { OnOk result ((n : Bytes) → speaker line.now ≡ Some n
            → Hears group number n line.now self.old self.new) }
    {
        match line {
            Line::Counter { layer, limit, .. } => {
                self.declare(group, *layer, *limit);
                Ok(Judgement::Stands)
            }
            Line::GivenNet { key, .. } => {
                self.give(group, *key)?;
                Ok(Judgement::Stands)
            }
            Line::Active { key, .. } => self.activate(group, *key),
            Line::Start { key, value, .. } => self.start(group, *key, *value, node.is_some()),
            Line::Reserve { layer, limit, .. } => {
                self.reserve(group, *layer, *limit, out_block(node))
            }
            Line::Seal { term, .. } => self.seal(group, term, node.is_some()),
            Line::Accept { term, .. } => self.accept(group, sender_of(term), term.counter),
            Line::Floor {
                layer,
                key,
                sender,
                value,
                ..
            } => {
                let sender = Sender {
                    eui: *sender,
                    layer: *layer,
                    key: *key,
                };
                self.store_floor(group, sender, *value, in_block(node))
            }
            Line::Boot { .. } => {
                self.boot(group, number);
                Ok(Judgement::Stands)
            }
            _ => Ok(Judgement::Stands),
        }
    }

    /// Returns whether a group has what one of its lines needs, at the end of the group. `cut` says whether the event
    /// was cut short.
    pub fn meets(&self, group: u32, cut: bool, need: &Need) -> bool
        ensures { result ≡ is_met group cut self.now need.now }
    {
        match need {
            Need::Seal(layer) => cut || self.has_sealed(group, *layer),
            Need::Floor(sender) => floor_of(&self.floors, sender).stored.group == group,
            Need::Accept {
                sender,
                value,
                block,
            } => {
                let floor = floor_of(&self.floors, sender);
                floor.fits(group, *value, *block) && floor.is_called_for(group, cut, *value)
            }
            Need::Start(key) => key_in(&self.keys, key).start == group,
            Need::Active(key) => key_in(&self.keys, key).active == group,
        }
    }

    fn has_sealed(&self, group: u32, layer: Layer) -> bool
        ensures { result ≡ nat_eq (layer_of self.now layer).sealed group }
    {
        match layer {
            Layer::Nwk => self.nwk.sealed == group,
            Layer::Aps => self.aps.sealed == group,
        }
    }
}

fn is_ahead(declared: u32, value: u32, block: u32) -> bool
    ensures { result ≡ nat_eq value (ahead declared block) }
{
    u64::from(value) == ahead(u64::from(declared), block)
}

fn stands_if(stands: bool) -> Judgement
    ensures { result ≡ stands_if stands }
{
    if stands {
        Judgement::Stands
    } else {
        Judgement::Falls
    }
}

fn waits_if(need: Need, stands: bool) -> Judgement
    ensures { result ≡ waits_if need stands }
{
    if stands {
        Judgement::Waits(need)
    } else {
        Judgement::Falls
    }
}

fn waits_unless(need: Need, stands: bool) -> Judgement
    ensures { result ≡ waits_unless need stands }
{
    if stands {
        Judgement::Stands
    } else {
        Judgement::Waits(need)
    }
}

fn sender_of(term: &Term) -> Sender
    ensures { result ≡ kept.sender_of term.now }
{
    Sender {
        eui: term.source,
        layer: term.layer,
        key: term.base,
    }
}

fn out_block(node: Option<Node>) -> Option<u32>
    ensures { result ≡ out_block_by node }
{
    match node {
        Some(node) => Some(node.out_block),
        None => None,
    }
}

fn in_block(node: Option<Node>) -> Option<u32>
    ensures { result ≡ in_block_by node }
{
    match node {
        Some(node) => Some(node.in_block),
        None => None,
    }
}

fn judged_floor(sender: Sender, value: u32, block: Option<u32>) -> Judgement
    ensures { result ≡ floor_judged sender value block }
{
    match block {
        Some(block) => Judgement::Waits(Need::Accept {
            sender,
            value,
            block,
        }),
        None => Judgement::Falls,
    }
}

#[tactic(auto, unfolding(crate::specs::Standing::key_in))]
fn key_in(keys: &BTreeMap<Key, KeyCounters>, key: &Key) -> KeyCounters
    ensures { result ≡ kept.key_in keys.now key.now }
{
    match keys.get(key) {
        Some(counters) => *counters,
        None => KeyCounters::new(),
    }
}

fn put_key(
    keys: &mut BTreeMap<Key, KeyCounters>,
    key: Key,
    counters: KeyCounters,
) -> Result<(), AllocError>
    ensures { OnOk result (PutsKey keys.old keys.new key counters) }
{
    keys.insert(key, counters)?;
    Ok(())
}

#[tactic(auto, unfolding(crate::specs::Standing::floor_of))]
fn floor_of(floors: &BTreeMap<Sender, Floor>, sender: &Sender) -> Floor
    ensures { result ≡ kept.floor_of floors.now sender.now }
{
    match floors.get(sender) {
        Some(floor) => *floor,
        None => Floor::new(),
    }
}

fn put_floor(
    floors: &mut BTreeMap<Sender, Floor>,
    sender: Sender,
    floor: Floor,
) -> Result<(), AllocError>
    ensures { OnOk result (PutsFloor floors.old floors.new sender floor) }
{
    floors.insert(sender, floor)?;
    Ok(())
}
