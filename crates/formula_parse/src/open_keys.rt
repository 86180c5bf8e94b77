//! The keys of a lookup that is still open.

ghost use Rattle.std.specs.Prelude.{◌≡◌, [], ◌∷◌, ◌++◌, IfOk};
ghost use Rattle.formula_parse.specs.Standing.{has_key};

use crate::tree::{LookupKey, LookupKeyList};
use cell_types::Name;
use std::alloc::{AllocError, Global};
use std::collections::BTreeSet;
use std::marker::Model;

/// The keys so far, with their names in order, so that a repeated one is found without a look at
/// each. Contracts see the keys.
#[derive(Drop)]
pub struct OpenKeys {
    keys: LookupKeyList,
    names: BTreeSet<Name>,
}

impl Model for OpenKeys {
    ghost use Rattle.std.specs.Prelude.{◌≡◌, List, ℕ};
    ghost use Rattle.std.specs.Ordering.{nat_cmp};
    ghost use Rattle.std.specs.Cmp.Lexicographic.{slice_cmp};
    ghost use Rattle.std.specs.BTreeSet.{contains_by};
    ghost use Rattle.formula_parse.specs.Tree.{Tree};
    ghost use Rattle.formula_parse.specs.TreeCode.{coded_keys};
    ghost use Rattle.formula_parse.specs.Standing.{has_key};

    ghost Value = { List (List ℕ × Tree) };

    ghost coded = { coded_keys };

    ghost view = { λ o. o.keys };

    ghost invariant = { λ o. (q : List ℕ) → contains_by (slice_cmp nat_cmp q) o.names
        ≡ has_key q o.keys };
}

impl OpenKeys {
    /// No keys.
    ///
    /// Memory: none.
    pub fn new(alloc: Global) -> Self
        ensures { result ≡ [] }
    {
        let keys = LookupKeyList::new(alloc);
        let names = BTreeSet::new(alloc);
        OpenKeys { keys, names }
    }

    /// The keys with one more at their end.
    ///
    /// Memory: a copy of the name. Cost: that of a sorted set.
    pub fn with(self, key: LookupKey) -> Result<Self, AllocError>
        ensures { IfOk result (λ made. made ≡ self ++ (key.name, key.value) ∷ []) }
    {
        let OpenKeys {
            mut keys,
            mut names,
        } = self;
        names.insert(key.name.clone()?)?;
        keys.push(key)?;
        Ok(OpenKeys { keys, names })
    }

    /// Whether one of the keys has the name.
    ///
    /// Memory: none. Cost: that of a sorted set.
    pub fn has(&self, name: &Name) -> bool
        ensures { result ≡ has_key name.now self.now }
    {
        self.names.contains(name)
    }

    /// The keys without their names in order.
    ///
    /// Memory: none.
    pub fn into_keys(self) -> LookupKeyList
        ensures { result ≡ self }
    {
        self.keys
    }
}
