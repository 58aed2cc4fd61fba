//! A list of items in a public field: a thin type over `Vec` that contracts see as its items.
ghost use Rattle.std.specs.Prelude.{◌≡◌};

use std::marker::Model;

/// A list that contracts see as its items alone; for a `Vec` they also see its room.
#[derive(Debug, Drop)]
pub struct List<T> {
    items: Vec<T>,
}

impl<T> Model for List<T> {
    ghost use Rattle.std.specs.Prelude as prelude;

    ghost Value = { prelude.List T };

    ghost view = { λ l. l.items.items };
}

impl<T> List<T> {
    /// Makes the list of a vector's items.
    pub fn from_vec(items: Vec<T>) -> List<T>
        ensures { result ≡ items.items }
    {
        List { items }
    }

    /// Returns the items, in their order.
    pub fn as_slice(&self) -> &[T]
        ensures { result.now ≡ self.now }
    {
        self.items.as_slice()
    }

    /// Returns the vector of the list's items.
    pub fn into_vec(self) -> Vec<T>
        ensures { result.items ≡ self }
    {
        self.items
    }
}
