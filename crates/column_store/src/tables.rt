//! A whole document as tables by columns.

ghost use Rattle.std.specs.Prelude.{◌≡◌, IfOk, None, map};
ghost use Rattle.std.specs.Option.{option_copied};
ghost use Rattle.doc_model.specs.ByIds.{AreDistinct, find_id};
ghost use Rattle.doc_model.specs.Document.{table_id};
ghost use Rattle.doc_model.specs.NewDocument.{new_document};

use crate::fresh::new_tables;
use crate::places::{Places, are_many};
use crate::put::{Replaced, action_put, put_back};
use crate::steps::{index_of_table, table_named};
use crate::table::ColumnTable;
use cell_types::{CellValue, Name};
use doc_model::{ColDef, DocAction, DocReader, DocTables};
use list_ops::all_copied;
use std::alloc::{AllocError, Global};
use std::marker::Model;

/// A document, kept as a vector of tables in the order of the document.
#[derive(Drop)]
pub struct ColumnTables {
    pub(crate) tables: Vec<ColumnTable>,
    // Where tables stood by their ids, where they are many. Each is a guess, which the table that
    // stands there confirms: so nothing is to be done where an action is taken back.
    guesses: Option<Places>,
}

impl Model for ColumnTables {
    ghost use Rattle.doc_model.specs.Document.{Document};
    ghost use Rattle.doc_model.specs.DocumentLaws.{IsWhole};
    ghost use Rattle.row_tables.specs.TableCode.{coded_document};

    ghost Value = { Document };

    ghost coded = { coded_document };

    ghost view = { λ a. a.tables.items };

    ghost invariant = { λ a. IsWhole a.tables.items };
}

// The table of this id. A guess is looked at first.
fn find_table<'a>(
    tables: &'a [ColumnTable],
    guess: Option<usize>,
    id: &Name,
) -> Option<&'a ColumnTable>
    requires { AreDistinct table_id tables.now }
    ensures { option_copied result ≡ find_id table_id id.now tables.now }
{
    let index = index_of_table(tables, guess, id)?;
    tables.get(index)
}

// The places of tables, where they are many and there is memory.
fn table_places(alloc: Global, tables: &[ColumnTable]) -> Option<Places> {
    if !are_many(tables.len()) {
        return None;
    }
    let mut places = Places::new(alloc);
    for table in tables {
        if !places.try_push(alloc, table.id()) {
            return None;
        }
    }
    Some(places)
}

// Where the table of this id may stand.
fn guess_of(guesses: &Option<Places>, id: &Name) -> Option<usize> {
    match guesses {
        Some(places) => places.place(id),
        None => None,
    }
}

// Where the table that an action names may stand. Where nothing is guessed all tables are noted, if
// there is memory.
fn guess_for(
    guesses: &mut Option<Places>,
    tables: &Vec<ColumnTable>,
    action: &DocAction,
) -> Option<usize> {
    if guesses.is_none() {
        *guesses = table_places(*tables.allocator(), tables);
    }
    guess_of(guesses, table_named(action))
}

// Notes where a table stands that came, and tells whether it came last.
fn note_last(places: &mut Places, tables: &Vec<ColumnTable>, id: &Name) -> bool {
    let last = tables.len().checked_sub(1);
    if places.place(id).is_none() {
        let _noted = places.try_push(*tables.allocator(), id);
    }
    places.place(id) == last
}

// What is guessed after an action: a table that came last is noted, and where others may have moved
// all is forgotten, until the next action.
fn follow(guesses: &mut Option<Places>, tables: &Vec<ColumnTable>, action: &DocAction) {
    let is_right = match (action, &mut *guesses) {
        (DocAction::AddTable { table, .. }, Some(places)) => note_last(places, tables, table),
        (DocAction::RemoveTable { .. } | DocAction::RenameTable { .. }, _) => false,
        _ => true,
    };
    if !is_right {
        *guesses = None;
    }
}

// No cell for each row.
fn no_cells<'a>(alloc: Global, rows: &[u32]) -> Result<Vec<Option<&'a CellValue>>, AllocError>
    ensures { IfOk result (λ cells. map option_copied cells.items ≡ map (λ _. None) rows.now) }
{
    let mut cells = Vec::with_capacity(alloc, rows.len())?;
    for _row in rows {
        cells.push(None)?;
    }
    Ok(cells)
}

impl ColumnTables {
    /// The new document: `Table1` with columns `A`, `B` and `C`, and no rows but those that
    /// describe it.
    pub fn new_document(alloc: Global) -> Result<ColumnTables, AllocError>
        ensures { IfOk result (λ s. s ≡ new_document) }
    {
        let tables = new_tables(alloc)?;
        let guesses = None;
        Ok(ColumnTables { tables, guesses })
    }

    /// A copy of the document.
    ///
    /// Cost: linear in the cells.
    pub fn copy(&self, alloc: Global) -> Result<ColumnTables, AllocError>
        ensures { IfOk result (λ s. s ≡ self.now) }
    {
        let tables = all_copied(alloc, &self.tables, |table| table.copy())?;
        let guesses = table_places(alloc, &tables);
        Ok(ColumnTables { tables, guesses })
    }
}

/// What takes an action back: what it replaced.
#[derive(Drop)]
pub struct ColumnBack {
    replaced: Replaced,
}

impl DocReader for ColumnTables {
    ghost document = { λ s. s };

    fn table(&self, index: usize) -> Option<&Name> {
        Some(self.tables.get(index)?.id())
    }

    fn column(&self, table: &Name, index: usize) -> Option<&ColDef> {
        find_table(&self.tables, guess_of(&self.guesses, table), table)?
            .columns()
            .get(index)
    }

    fn rows(&self, table: &Name) -> Option<&[u32]> {
        Some(find_table(&self.tables, guess_of(&self.guesses, table), table)?.rows())
    }

    fn cell(&self, table: &Name, column: &Name, row: u32) -> Option<&CellValue> {
        find_table(&self.tables, guess_of(&self.guesses, table), table)?.cell(column, row)
    }

    fn cells(
        &self,
        alloc: Global,
        table: &Name,
        column: &Name,
        rows: &[u32],
    ) -> Result<Vec<Option<&CellValue>>, AllocError> {
        match find_table(&self.tables, guess_of(&self.guesses, table), table) {
            Some(found) => found.column_cells(alloc, column, rows),
            None => no_cells(alloc, rows),
        }
    }
}

impl DocTables for ColumnTables {
    ghost use Rattle.column_store.specs.Back.{fits_back, put_back};

    type Back = ColumnBack;

    ghost undone = { λ back s. put_back back.replaced s };

    ghost fits = { λ back s. fits_back back.replaced s };

    fn put(&mut self, action: &DocAction) -> Result<ColumnBack, AllocError> {
        let guess = guess_for(&mut self.guesses, &self.tables, action);
        let replaced = action_put(&mut self.tables, guess, action)?;
        follow(&mut self.guesses, &self.tables, action);
        Ok(ColumnBack { replaced })
    }

    fn take_back(&mut self, back: ColumnBack) {
        put_back(&mut self.tables, back.replaced);
    }
}
