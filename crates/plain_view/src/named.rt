//! Items with ids: whether one is there, and where.

ghost use Rattle.std.specs.Prelude.{◌≡◌, bytes_eq};
ghost use Rattle.std.specs.List.{position};
ghost use Rattle.std.specs.Option.{option_copied};
ghost use Rattle.doc_model.specs.ByIds.{are_distinct, find_id, has_id};

use cell_types::Name;
use doc_model::{CellColumn, ViewCol, ViewTable};

/// An item that has an id.
pub trait Named: Drop {
    ghost use Rattle.std.specs.Prelude.{ℕ, List};

    /// The bytes of the id.
    ghost id_of: { Self → List ℕ };

    /// The id.
    ///
    /// Memory: none.
    fn id(&self) -> &Name
        ensures { result.now ≡ id_of self.now };
}

impl Named for ViewCol {
    ghost use Rattle.doc_model.specs.ViewEdits.{shown_id};

    ghost id_of = { shown_id };

    fn id(&self) -> &Name {
        &self.id
    }
}

impl Named for ViewTable {
    ghost use Rattle.doc_model.specs.Changes.{shown_table_id};

    ghost id_of = { shown_table_id };

    fn id(&self) -> &Name {
        &self.id
    }
}

impl Named for CellColumn {
    ghost use Rattle.doc_model.specs.Records.{given_id};

    ghost id_of = { given_id };

    fn id(&self) -> &Name {
        &self.id
    }
}

/// Whether the item has that id.
///
/// Memory: none.
pub fn has_id<T: Named>(thing: &T, id: &Name) -> bool
    ensures { result ≡ bytes_eq (T.id_of thing.now) id.now }
{
    thing.id().as_str() == id.as_str()
}

/// The item of an id.
///
/// Memory: none. Cost: linear in the items.
pub fn find_id<'a, T: Named>(things: &'a [T], id: &Name) -> Option<&'a T>
    ensures { option_copied result ≡ find_id T.id_of id.now things.now }
{
    for thing in things {
        if has_id(thing, id) {
            return Some(thing);
        }
    }
    None
}

/// The index of the item of an id.
///
/// Memory: none. Cost: linear in the items.
pub fn index_of<T: Named>(things: &[T], id: &Name) -> Option<usize>
    ensures { result ≡ position (λ t. bytes_eq (T.id_of t) id.now) things.now }
{
    things.iter().position(|thing| has_id(thing, id))
}

/// Whether there is an item of that id.
///
/// Memory: none. Cost: linear in the items.
pub fn is_there<T: Named>(things: &[T], id: &Name) -> bool
    ensures { result ≡ has_id T.id_of things.now id.now }
{
    for thing in things {
        if has_id(thing, id) {
            return true;
        }
    }
    false
}

/// Whether no two items have one id.
///
/// Memory: none. Cost: the square of the items.
pub fn are_distinct<T: Named>(things: &[T]) -> bool
    ensures { result ≡ are_distinct T.id_of things.now }
{
    for index in 0..things.len() {
        if is_there(&things[index + 1..], things[index].id()) {
            return false;
        }
    }
    true
}
