//! Items by their owner.
ghost use Rattle.std.specs.Prelude.{◌≡◌, ◌||◌, ◌&&◌, [], Bool, OnOk, false, take, true};
ghost use Rattle.std.specs.List.{list_any};
ghost use Rattle.std.specs.Ordering.{is_eq};
ghost use Rattle.zb_audit_lockout.specs.Bags.{items_at};

use std::alloc::{AllocError, Global};
use std::collections::BTreeMap;

/// Holds items in the order in which they were added.
#[derive(Drop)]
pub struct Bag<E> {
    /// The items.
    pub items: Vec<E>,
}

impl<E: Drop> Bag<E> {
    /// Makes a bag without items.
    pub fn new(alloc: Global) -> Bag<E>
        ensures { result.items.items ≡ [] }
    {
        Bag {
            items: Vec::new(alloc),
        }
    }

    /// Adds an item.
    ///
    /// # Errors
    /// `AllocError`, if memory runs out.
    pub fn add(&mut self, item: E) -> Result<(), AllocError>
        ensures { OnOk result ((test : E → Bool)
            → list_any test self.new.items.items ≡ (list_any test self.old.items.items || test item)) }
    {
        self.items.push(item)?;
        Ok(())
    }
}

/// Holds, for each owner, the items that were added for it.
#[derive(Drop)]
pub struct Bags<O: Ord, E> {
    /// The bag of each owner that has any.
    pub bags: BTreeMap<O, Bag<E>>,
}

impl<O: Ord + Drop, E: Drop> Bags<O, E> {
    /// Makes the value of no items.
    pub fn new(alloc: Global) -> Bags<O, E>
        ensures { (owner : O) → items_at O.cmp result owner ≡ [] }
    {
        Bags {
            bags: BTreeMap::new(alloc),
        }
    }

    /// Adds an item for an owner.
    ///
    /// # Errors
    /// `AllocError`, if memory runs out.
    pub fn add(&mut self, alloc: Global, owner: O, item: E) -> Result<(), AllocError>
        ensures { OnOk result ((test : E → Bool) (o : O) → list_any test (items_at O.cmp self.new o)
            ≡ (list_any test (items_at O.cmp self.old o) || (is_eq (O.cmp owner o) && test item))) }
    {
        let mut bag = match self.bags.remove(&owner) {
            Some(bag) => bag,
            None => Bag::new(alloc),
        };
        bag.add(item)?;
        self.bags.insert(owner, bag)?;
        Ok(())
    }

    /// Keeps the first `count` items of an owner, and drops its others.
    ///
    /// # Errors
    /// `AllocError`, if memory runs out.
    pub fn keep(&mut self, owner: &O, count: usize) -> Result<(), AllocError>
        ensures kept { OnOk result ((test : E → Bool) (o : O) → is_eq (O.cmp owner.now o) ≡ true
            → list_any test (items_at O.cmp self.new o)
            ≡ list_any test (take count (items_at O.cmp self.old owner.now))) }
        ensures others { OnOk result ((test : E → Bool) (o : O) → is_eq (O.cmp owner.now o) ≡ false
            → list_any test (items_at O.cmp self.new o) ≡ list_any test (items_at O.cmp self.old o)) }
    {
        if let Some((key, mut bag)) = self.bags.remove_entry(owner) {
            bag.items.truncate(count);
            self.bags.insert(key, bag)?;
        }
        Ok(())
    }

    /// Returns the items of an owner.
    pub fn at(&self, owner: &O) -> &[E]
        ensures { result.now ≡ items_at O.cmp self.now owner.now }
    {
        match self.bags.get(owner) {
            Some(bag) => &bag.items,
            None => &[],
        }
    }
}
