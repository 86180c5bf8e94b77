//! Names by place.

ghost use Rattle.std.specs.Prelude.{◌≡◌, ◌++◌, ◌∷◌, [], true, IfSome, map, position};
ghost use Rattle.std.specs.Str.{bytes_eq};
ghost use Rattle.doc_model.specs.Column.{column_id};

use cell_types::Name;
use doc_model::ColDef;
use indexmap::IndexSet;
use std::alloc::Global;
use std::marker::Model;

// Among so few names one is found as soon by a walk.
const FEW: usize = 8;

/// Names in order, each found by one look into a table of hashes. It is seen as the names.
#[derive(Drop)]
pub struct Places {
    names: IndexSet<String>,
}

impl Model for Places {
    ghost use Rattle.std.specs.Prelude.{List, ℕ, map, string_bytes};

    ghost Value = { List (List ℕ) };

    ghost view = { λ p. map string_bytes p.names.keys };
}

impl Places {
    /// No names.
    ///
    /// Memory: none.
    pub fn new(alloc: Global) -> Self
        ensures { result ≡ [] }
    {
        Places {
            names: IndexSet::new(alloc),
        }
    }

    /// The place of a name, where it has one.
    ///
    /// Memory: none. Cost: hashing the name.
    pub fn place(&self, id: &Name) -> Option<usize>
        ensures { result ≡ position (bytes_eq id.now) self.now }
    {
        self.names.get_index_of(id.as_str())
    }

    /// Puts a name last, and tells whether it stands there: not where it has a place already, or
    /// where there is no memory.
    pub fn try_push(&mut self, alloc: Global, id: &Name) -> bool
        ensures { result ≡ true → self.new ≡ self.old ++ id.now ∷ [] }
    {
        let Ok(text) = String::from_str(alloc, id.as_str()) else {
            return false;
        };
        let Ok(added) = self.names.insert(text) else {
            return false;
        };
        added
    }
}

/// Whether there are so many names that they are worth a table of hashes.
pub(crate) fn are_many(count: usize) -> bool {
    FEW < count
}

/// The places of columns, where there are many and there is memory.
pub(crate) fn column_places(alloc: Global, columns: &[ColDef]) -> Option<Places>
    ensures { IfSome result (λ places. places ≡ map column_id columns.now) }
{
    if !are_many(columns.len()) {
        return None;
    }
    let mut places = Places::new(alloc);
    for column in columns {
        if !places.try_push(alloc, &column.id) {
            return None;
        }
    }
    Some(places)
}
