//! Items put in their places by id, and removed.

ghost use Rattle.std.specs.Prelude.{◌≡◌, IfOk, MatchResult, OnOk};
ghost use Rattle.doc_model.specs.ByIds.{AreDistinct, by_id, put_by_id, without_id};
ghost use Rattle.doc_model.specs.ViewEdits.{shown_id};
ghost use Rattle.view_patch.specs.Placed.{GoesBefore, GoesOver};

use cell_types::Name;
use doc_model::{ViewCol, ViewColList};
use plain_view::copies::column_copy;
use plain_view::named::{Named, index_of};
use std::alloc::{AllocError, Global};
use std::cmp::Ordering;

// The index of the item of an id, or else where one of that id goes.
fn spot<T: Named>(things: &[T], id: &Name) -> Result<usize, usize>
    ensures { MatchResult result (GoesOver T.id_of id.now things.now)
        (GoesBefore T.id_of id.now things.now) }
{
    for index in 0..things.len() {
        match id.cmp(things[index].id()) {
            Ordering::Less => return Err(index),
            Ordering::Equal => return Ok(index),
            Ordering::Greater => {}
        }
    }
    Err(things.len())
}

/// Puts an item in its place by id, instead of one of its id.
///
/// Errors: out of memory; what the items are then is not said. Cost: linear in the items.
pub(crate) fn put_by_id<T: Named>(things: &mut Vec<T>, thing: T) -> Result<(), AllocError>
    ensures { OnOk result (things.new.items ≡ put_by_id T.id_of thing things.old.items) }
{
    match spot(things, thing.id()) {
        Ok(index) => things[index] = thing,
        Err(index) => things.insert(index, thing)?,
    }
    Ok(())
}

/// Removes the item of an id, where it is there.
///
/// Memory: none. Cost: linear in the items.
pub(crate) fn remove_by_id<T: Named>(things: &mut Vec<T>, id: &Name)
    requires { AreDistinct T.id_of things.old.items }
    ensures { things.new.items ≡ without_id T.id_of id.now things.old.items }
{
    match index_of(things, id) {
        Some(index) => {
            things.remove(index);
        }
        None => {}
    }
}

/// Columns in the order of their ids.
///
/// Errors: out of memory. Cost: the square of the columns.
pub(crate) fn columns_by_id(alloc: Global, columns: &[ViewCol]) -> Result<ViewColList, AllocError>
    ensures { IfOk result (λ l. l ≡ by_id shown_id columns.now) }
{
    let mut sorted = Vec::with_capacity(alloc, columns.len())?;
    for taken in 0..columns.len() {
        let column = &columns[columns.len() - 1 - taken];
        put_by_id(&mut sorted, column_copy(column)?)?;
    }
    Ok(ViewColList::from(sorted))
}
