//! Lists, seen as the list of their items.

ghost use Rattle.std.specs.Prelude.{◌≡◌, ◌<◌, ◌↔◌, [], ◌∷◌, ◌++◌, length, IsTrue, OnOk, OnErr, take};

use crate::Same;
use std::alloc::{AllocFailed, Global};
use std::marker::Model;

/// Things in order. Each list type of the engine is one of these.
#[derive(Clone, Debug, Drop)]
pub struct Sequence<T> {
    items: Vec<T>,
}

impl<T> Model for Sequence<T> {
    ghost use Rattle.std.specs.Prelude.{List};

    ghost Value = { List T };

    ghost view = { λ l. l.items.items };
}

impl<T> Sequence<T> {
    /// The list of no items.
    ///
    /// Memory: none.
    pub fn new(alloc: Global) -> Self
        ensures { result ≡ [] }
    {
        Sequence {
            items: Vec::new(alloc),
        }
    }

    /// The vector that the list was made of.
    ///
    /// Memory: none.
    pub fn into_vec(self) -> Vec<T>
        ensures { result.items ≡ self }
    {
        self.items
    }

    /// The items as a slice.
    pub fn as_slice(&self) -> &[T]
        ensures { result.now ≡ self.now }
    {
        self.items.as_slice()
    }

    /// How many items there are.
    pub fn len(&self) -> usize
        ensures { result ≡ length self.now }
    {
        self.items.len()
    }

    /// Whether there are no items.
    pub fn is_empty(&self) -> bool
        ensures { IsTrue result ↔ (self.now ≡ []) }
    {
        self.items.is_empty()
    }

    /// Adds an item at the end.
    ///
    /// Errors: out of memory; it hands the item back; the list is then as it was.
    pub fn push(&mut self, item: T) -> Result<(), AllocFailed<T>>
        ensures ok { OnOk result (self.new ≡ self.old ++ item ∷ []) }
        ensures err { OnErr result (self.new ≡ self.old) }
    {
        self.items.push(item)
    }
}

impl<T> From<Vec<T>> for Sequence<T> {
    ghost from_gives = { λ items made. made ≡ items.items };

    fn from(items: Vec<T>) -> Sequence<T> {
        Sequence { items }
    }
}

impl<T: Same> Same for Sequence<T> {
    fn same_as(&self, other: &Sequence<T>) -> bool {
        if self.items.len() != other.items.len() {
            return false;
        }
        for place in 0..self.items.len() {
            if !self.items[place].same_as(&other.items[place]) {
                return false;
            }
        }
        true
    }
}
