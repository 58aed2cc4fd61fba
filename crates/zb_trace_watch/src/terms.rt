//! Sets of terms.
ghost use Rattle.std.specs.Prelude.{◌≡◌, ℕ, List, [], ◌||◌, ◌++◌, ◌+◌, ◌-◌, ◌≤◌, bytes_eq, cond, length, OnOk, Some, false, true};
ghost use Rattle.std.specs.List.{list_any};
ghost use Rattle.zb_model.specs.Secrets.{same_term};
ghost use Rattle.zb_model_real.specs.Terms.{model_term};
ghost use Rattle.zb_seal.specs.declared.term.Term.{Term};
ghost use Rattle.zb_trace_watch.specs.Terms.{has_spelled, has_term, is_kept, label_number, layer_number, low_bytes, term_bytes, term_head, term_room};
ghost use Rattle.std.specs.BTreeMap.{get, is_at};
ghost use Rattle.std.specs.Ordering.{nat_cmp};
ghost use Rattle.zb_model.specs.State.{greatest_counter};

use arrayvec::ArrayVec;
use std::alloc::{AllocError, Global};
use std::collections::{BTreeMap, BTreeSet};
use zb_base::{Label, Layer};
use zb_seal::Term;

/// Room for the bytes of a term: two frames, and 33 bytes for its other parts.
type TermBytes = ArrayVec<u8, 287>;

/// A set of terms. Terms are equal if all their parts are; the bytes that were sent don't count.
///
/// Most terms differ in one number, their head. So a look-up compares numbers, and bytes only once.
#[derive(Drop)]
pub struct Terms {
    /// The first term with each head, as its bytes.
    pub firsts: BTreeMap<u64, Vec<u8>>,
    /// The other terms, each as its bytes, in order.
    pub others: BTreeSet<Vec<u8>>,
    // The allocator of new terms' bytes.
    alloc: Global,
}

impl Terms {
    /// Makes a set without terms.
    pub fn new(alloc: Global) -> Terms
        ensures { (t : Term) → has_term result t ≡ false }
    {
        Terms {
            firsts: BTreeMap::new(alloc),
            others: BTreeSet::new(alloc),
            alloc,
        }
    }

    /// Returns whether the set has the term.
    pub fn has(&self, term: &Term) -> bool
        ensures { result ≡ has_term self.now term.now }
    {
        let mut bytes = ArrayVec::new();
        put_bytes(&mut bytes, term);
        self.has_bytes(head_of(term), bytes.as_slice())
    }

    fn has_bytes(&self, head: u64, bytes: &[u8]) -> bool
        ensures { result ≡ has_spelled self.now head bytes.now }
    {
        self.is_first(head, bytes) || self.is_other(bytes)
    }

    fn is_first(&self, head: u64, bytes: &[u8]) -> bool
        ensures { result ≡ is_kept (get nat_cmp self.now.firsts head) bytes.now }
    {
        match self.firsts.get(&head) {
            Some(kept) => bytes == kept.as_slice(),
            None => false,
        }
    }

    fn is_other(&self, bytes: &[u8]) -> bool
        ensures { result ≡ list_any (λ kept. bytes_eq bytes.now kept.items) self.now.others.keys }
    {
        self.others.contains(bytes)
    }

    /// Adds a term.
    ///
    /// # Errors
    /// `AllocError`, if memory runs out.
    pub fn add(&mut self, term: &Term) -> Result<(), AllocError>
        ensures { OnOk result ((t : Term)
            → has_term self.new t ≡ (has_term self.old t || same_term (model_term t) (model_term term.now))) }
    {
        let mut room = ArrayVec::new();
        put_bytes(&mut room, term);
        let bytes = Vec::from_slice(self.alloc, room.as_slice())?;
        self.keep(head_of(term), bytes)?;
        Ok(())
    }

    /// Keeps bytes with a head, mostly as the first that have it: then one look-up finds them. The clause is for
    /// bytes that all have this head.
    fn keep(&mut self, head: u64, bytes: Vec<u8>) -> Result<(), AllocError>
        ensures { OnOk result ((h : ℕ) (b : List ℕ) → (bytes_eq b bytes.items ≡ true → h ≡ head)
            → has_spelled self.new h b ≡ (has_spelled self.old h b || bytes_eq b bytes.items)) }
    {
        let there = self.firsts.insert(head, bytes)?;
        match there {
            Some(first) => self.put_back(head, first)?,
            None => {}
        }
        Ok(())
    }

    /// Puts the first bytes with a head back. The bytes that were in their place become others.
    fn put_back(&mut self, head: u64, first: Vec<u8>) -> Result<(), AllocError>
        ensures firsts { OnOk result ((h : ℕ) → get nat_cmp self.new.firsts h
            ≡ cond (is_at (nat_cmp head) h) (Some first) (get nat_cmp self.old.firsts h)) }
        ensures others { OnOk result ((b : List ℕ)
            → list_any (λ kept. bytes_eq b kept.items) self.new.others.keys
            ≡ (list_any (λ kept. bytes_eq b kept.items) self.old.others.keys
            || is_kept (get nat_cmp self.old.firsts head) b)) }
    {
        let there = self.firsts.insert(head, first)?;
        match there {
            Some(bytes) => {
                self.others.insert(bytes)?;
            }
            None => {}
        }
        Ok(())
    }
}

/// Returns the head of a term.
///
/// A later term of a node has a smaller head, so it is found at the first look into a block of the map.
fn head_of(term: &Term) -> u64
    ensures { result ≡ term_head term.now }
{
    let part = term.source.0 % 16777216;
    let high = part * 256 + u64::from(layer_number(term.layer));
    high * 4294967296 + u64::from(counters_after(term.counter))
}

fn counters_after(counter: u32) -> u32
    ensures { result ≡ greatest_counter - counter }
{
    u32::MAX - counter
}

// Puts the bytes of a term into empty room.
fn put_bytes(bytes: &mut TermBytes, term: &Term)
    requires { bytes.old.items ≡ [] }
    ensures { bytes.new.items ≡ term_bytes term.now }
{
    put(bytes, &low_bytes_4(term.counter));
    put(bytes, &[layer_number(term.layer), 16]);
    put(bytes, &term.base.0);
    put(bytes, &[label_number(term.label)]);
    put(bytes, &low_bytes_8(term.source.0));
    put(bytes, &[term.control, term.header.len() as u8]);
    put(bytes, term.header.as_slice());
    put(bytes, term.content.as_slice());
}

// Appends bytes. There must be room for them.
fn put(out: &mut TermBytes, piece: &[u8])
    ensures { length out.old.items + length piece.now ≤ term_room → out.new.items ≡ out.old.items ++ piece.now }
{
    let _ = out.try_extend_from_slice(piece);
}

fn layer_number(layer: Layer) -> u8
    ensures { result ≡ layer_number layer }
{
    match layer {
        Layer::Nwk => 0,
        Layer::Aps => 1,
    }
}

fn label_number(label: Label) -> u8
    ensures { result ≡ label_number label }
{
    match label {
        Label::Data => 0,
        Label::Network => 1,
        Label::Transport => 2,
        Label::Load => 3,
    }
}

fn low_bytes_4(number: u32) -> [u8; 4]
    ensures { result ≡ low_bytes 3 number }
{
    let second = number / 256;
    let third = second / 256;
    let fourth = third / 256;
    [
        (number % 256) as u8,
        (second % 256) as u8,
        (third % 256) as u8,
        fourth as u8,
    ]
}

fn low_bytes_8(number: u64) -> [u8; 8]
    ensures { result ≡ low_bytes 7 number }
{
    let second = number / 256;
    let third = second / 256;
    let fourth = third / 256;
    let fifth = fourth / 256;
    let sixth = fifth / 256;
    let seventh = sixth / 256;
    let eighth = seventh / 256;
    [
        (number % 256) as u8,
        (second % 256) as u8,
        (third % 256) as u8,
        (fourth % 256) as u8,
        (fifth % 256) as u8,
        (sixth % 256) as u8,
        (seventh % 256) as u8,
        eighth as u8,
    ]
}
