//! What a bundle did, and how a document takes it in: all of it, or nothing.

ghost use Rattle.std.specs.Prelude.{◌≡◌, true, false, length, IfOk, OnErr, OnOk};
ghost use Rattle.std.specs.List.{All};
ghost use Rattle.cell_types.specs.declared.value.CellValue.TheVariants.{Null};
ghost use Rattle.doc_model.specs.Apply.{apply_all};
ghost use Rattle.doc_model.specs.DocumentLaws.{IsWhole};
ghost use Rattle.shot_cells.specs.Changes.{seen_after};
ghost use Rattle.shot_cells.specs.Places.{HasPlace, seen_at, with_all, with_each};

use cell_types::{CellValue, copy_of};
use doc_model::{DocActionList, DocTables};
use list_ops::all_copied;
use shot_cells::{CellChanges, ShotCells, ShotDocument};
use shot_tables::put_all;
use std::alloc::{AllocError, Global};

/// What a bundle did to a document: its document actions, and what became of formula cells.
#[derive(Drop)]
pub struct DocumentChanges {
    pub actions: DocActionList,
    pub cells: CellChanges,
}

// A copy of the values.
fn copy_of_values(alloc: Global, values: &[CellValue]) -> Result<Vec<CellValue>, AllocError>
    ensures { IfOk result (λ copy. copy.items ≡ values.now) }
{
    Ok(all_copied(alloc, values, |value| copy_of(value))?)
}

// Sets the values of the cells, and takes the places of cells that are gone away. Memory: none.
fn settle(cells: &mut ShotCells, changes: &CellChanges, values: Vec<CellValue>)
    requires placed { All (HasPlace cells.old.tables) changes.now.cells.items }
    requires beside { length values.items ≡ length changes.now.cells.items }
    ensures { seen_at cells.new.tables ≡ with_each changes.now.gone.items Null
        (with_all changes.now.cells.items values.items (seen_at cells.old.tables)) }
{
    cells.set_values(&changes.cells, values);
    cells.take_away(&changes.gone);
}

// Takes changes in, where what the other cells held stays.
fn take_beside<D: DocTables>(
    alloc: Global,
    document: &mut ShotDocument<D>,
    changes: &DocumentChanges,
) -> Result<(), AllocError>
    requires whole { IsWhole (D.document document.old.tables) }
    requires beside { length changes.now.cells.values.items
        ≡ length changes.now.cells.cells.items }
    requires kept { changes.now.cells.anew ≡ false }
    ensures tables { OnOk result (D.document document.new.tables
        ≡ apply_all (D.document document.old.tables) changes.now.actions) }
    ensures seen { OnOk result (seen_at document.new.cells.tables
        ≡ seen_after changes.now.cells (seen_at document.old.cells.tables)) }
    ensures whole { IsWhole (D.document document.new.tables) }
    ensures err_tables { OnErr result
        (D.document document.new.tables ≡ D.document document.old.tables) }
    ensures err_seen { OnErr result
        (seen_at document.new.cells.tables ≡ seen_at document.old.cells.tables) }
{
    let values = copy_of_values(alloc, &changes.cells.values)?;
    document.cells.make_room(alloc, &changes.cells.cells)?;
    put_all(alloc, &mut document.tables, changes.actions.as_slice())?;
    settle(&mut document.cells, &changes.cells, values);
    Ok(())
}

// The same, where all is made anew.
fn take_anew<D: DocTables>(
    alloc: Global,
    document: &mut ShotDocument<D>,
    changes: &DocumentChanges,
) -> Result<(), AllocError>
    requires whole { IsWhole (D.document document.old.tables) }
    requires beside { length changes.now.cells.values.items
        ≡ length changes.now.cells.cells.items }
    requires anew { changes.now.cells.anew ≡ true }
    ensures tables { OnOk result (D.document document.new.tables
        ≡ apply_all (D.document document.old.tables) changes.now.actions) }
    ensures seen { OnOk result (seen_at document.new.cells.tables
        ≡ seen_after changes.now.cells (seen_at document.old.cells.tables)) }
    ensures whole { IsWhole (D.document document.new.tables) }
    ensures err_tables { OnErr result
        (D.document document.new.tables ≡ D.document document.old.tables) }
    ensures err_seen { OnErr result
        (seen_at document.new.cells.tables ≡ seen_at document.old.cells.tables) }
{
    let values = copy_of_values(alloc, &changes.cells.values)?;
    let mut cells = ShotCells::new(alloc);
    cells.make_room(alloc, &changes.cells.cells)?;
    put_all(alloc, &mut document.tables, changes.actions.as_slice())?;
    settle(&mut cells, &changes.cells, values);
    document.cells = cells;
    Ok(())
}

/// Takes in what a bundle did: its actions in order, one that is not valid at its place passed
/// over, and what became of the formula cells.
///
/// Errors: out of memory; the document is then as it was, and the same is seen of formula cells.
/// Memory: what the tables take for the actions, a copy of each value and a place for its cell.
/// Cost: that of the actions, and for each cell the logarithm of the cells beside the tables.
pub fn take_in<D: DocTables>(
    alloc: Global,
    document: &mut ShotDocument<D>,
    changes: &DocumentChanges,
) -> Result<(), AllocError>
    requires whole { IsWhole (D.document document.old.tables) }
    requires beside { length changes.now.cells.values.items
        ≡ length changes.now.cells.cells.items }
    ensures tables { OnOk result (D.document document.new.tables
        ≡ apply_all (D.document document.old.tables) changes.now.actions) }
    ensures seen { OnOk result (seen_at document.new.cells.tables
        ≡ seen_after changes.now.cells (seen_at document.old.cells.tables)) }
    ensures whole { IsWhole (D.document document.new.tables) }
    ensures err_tables { OnErr result
        (D.document document.new.tables ≡ D.document document.old.tables) }
    ensures err_seen { OnErr result
        (seen_at document.new.cells.tables ≡ seen_at document.old.cells.tables) }
{
    if changes.cells.anew {
        take_anew(alloc, document, changes)
    } else {
        take_beside(alloc, document, changes)
    }
}
