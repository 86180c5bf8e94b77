//! What a document and the values known of it tell a formula.

ghost use Rattle.std.specs.Prelude.{◌≡◌, Some, IfOk, map};
ghost use Rattle.std.specs.Option.{option_copied, option_map};
ghost use Rattle.doc_model.specs.DocumentLaws.{IsWhole};
ghost use Rattle.doc_model.specs.Readers.{cell_at};
ghost use Rattle.formula_eval.specs.Asked.{told_at, told_of};
ghost use Rattle.recalc.specs.Cells.{cell_of};
ghost use Rattle.recalc.specs.Evaluated.{sheet_of};
ghost use Rattle.recalc.specs.Kept.{IsKeptOf, column_at, held_at};
ghost use Rattle.doc_model.specs.Rows.{IsAscending};
ghost use Rattle.recalc.specs.Seen.{told_beside, told_or_needed, told_or_no_row};
ghost use Rattle.recalc.specs.Sheet.{over};

use crate::candidates::candidates;
use crate::indexes::ColumnIndex;
use crate::kept::{KeptColumn, KeptTable};
use crate::places::{column_at, find_column, find_table, row_index, value_at};
use crate::remembering::{LastLookup, remembered};
use cell_types::{CellValue, ColType, KeyList, Name, RowList};
use doc_model::DocTables;
use doc_readers::rows_in;
use formula_eval::{CellReader, CellSource, Matching, Reading, scan, scan_among};
use std::alloc::{AllocError, Global};
use std::marker::Model;

/// A whole document, what is known of its formula cells, indexes of data columns, and the last
/// lookup.
#[derive(Drop)]
pub struct KnownReader<'a, D: DocTables> {
    pub tables: &'a D,
    pub kept: &'a [KeptTable],
    pub indexes: &'a [ColumnIndex],
    pub last: &'a Option<LastLookup>,
}

impl<'a, D: DocTables> Model for KnownReader<'a, D> {
    ghost use Rattle.doc_model.specs.DocumentLaws.{IsWhole};
    ghost use Rattle.formula_parse.specs.contracts.tree.Formula as formula;
    ghost use Rattle.recalc.specs.Evaluated.{sheet_of};
    ghost use Rattle.recalc.specs.Indexes.{AreIndexes};
    ghost use Rattle.recalc.specs.Kept.{IsKeptOf};
    ghost use Rattle.recalc.specs.Remembered.{IsRemembered};
    ghost use Rattle.recalc.specs.Seen.{Seen};
    ghost use Rattle.std.specs.Coded.{codes};

    ghost Value = { Seen D };

    ghost coded = { Prim.hlevel (codes, formula.the_row.coded) };

    ghost view = { λ r. record {
      tables = r.tables.now;
      kept = r.kept.now;
      indexes = r.indexes.now;
    } };

    ghost invariant = { λ r.
        IsWhole (D.document r.tables.now) × IsKeptOf (D.document r.tables.now) r.kept.now
        × AreIndexes (sheet_of (D.document r.tables.now)) r.indexes.now
        × IsRemembered (sheet_of (D.document r.tables.now)) r.last.now };
}

fn needed_or(value: Option<&CellValue>) -> Reading<'_>
    ensures { told_of result ≡ told_or_needed (option_copied value.entry) }
{
    match value {
        Some(value) => Reading::Known(value),
        None => Reading::Need,
    }
}

fn base_reading(cell: Option<&CellValue>) -> Reading<'_>
    ensures { told_of result ≡ told_or_no_row (option_copied cell.entry) }
{
    match cell {
        Some(value) => Reading::Known(value),
        None => Reading::NoRow,
    }
}

// What is told of a cell of a data column.
fn base_told<'a, D: DocTables>(tables: &'a D, table: &Name, column: &Name, row: u32) -> Reading<'a>
    ensures { told_of result
        ≡ told_or_no_row (cell_at (D.document tables.now) table.now column.now row) }
{
    base_reading(tables.cell(table, column, row))
}

/// What is told of a cell.
///
/// Memory: none.
pub fn cell_told<'a, D: DocTables>(
    tables: &'a D,
    kept: &'a [KeptTable],
    table: &Name,
    column: &Name,
    row: u32,
) -> Reading<'a>
    requires whole { IsWhole (D.document tables.now) }
    requires of_document { IsKeptOf (D.document tables.now) kept.now }
    ensures { told_of result
        ≡ (over (sheet_of (D.document tables.now)) (held_at (D.document tables.now) kept.now)).cell
        (cell_of table.now column.now row) }
{
    let Some(found) = find_table(kept, table) else {
        return Reading::NoTable;
    };
    let Some(held) = find_column(&found.columns, column) else {
        return Reading::NoColumn;
    };
    if !held.is_formula {
        return base_told(tables, table, column, row);
    }
    match row_index(rows_in(tables, table), row) {
        Some(index) => needed_or(value_at(&held.values, index)),
        None => Reading::NoRow,
    }
}

// What is told of the cell of a formula column in a row, where its values stand beside these rows.
fn told_beside<'a>(held: &'a KeptColumn, rows: &[u32], row: u32) -> Reading<'a>
    requires { IsAscending rows.now }
    ensures { told_of result ≡ told_beside rows.now held.now.values.items row }
{
    match row_index(rows, row) {
        Some(index) => needed_or(value_at(&held.values, index)),
        None => Reading::NoRow,
    }
}

// The same of some rows among these.
fn kept_readings<'a>(
    alloc: Global,
    held: &'a KeptColumn,
    rows: &[u32],
    some: &[u32],
) -> Result<Vec<Reading<'a>>, AllocError>
    requires { IsAscending rows.now }
    ensures { IfOk result (λ told. map told_of told.items
        ≡ map (told_beside rows.now held.now.values.items) some.now) }
{
    let mut told = Vec::with_capacity(alloc, some.len())?;
    for row in some {
        told.push(told_beside(held, rows, *row))?;
    }
    Ok(told)
}

// What is told of cells of a data column that were looked up in the tables.
fn base_readings<'a>(
    alloc: Global,
    cells: &[Option<&'a CellValue>],
) -> Result<Vec<Reading<'a>>, AllocError>
    ensures { IfOk result (λ told. map told_of told.items
        ≡ map (λ cell. told_or_no_row (option_copied cell)) cells.now) }
{
    let mut told = Vec::with_capacity(alloc, cells.len())?;
    for cell in cells {
        told.push(base_reading(*cell))?;
    }
    Ok(told)
}

// What is told of the cells of a column, each looked up by itself.
fn each_told<'a, D: DocTables>(
    alloc: Global,
    tables: &'a D,
    kept: &'a [KeptTable],
    table: &Name,
    column: &Name,
    rows: &[u32],
) -> Result<Vec<Reading<'a>>, AllocError>
    requires whole { IsWhole (D.document tables.now) }
    requires of_document { IsKeptOf (D.document tables.now) kept.now }
    ensures { IfOk result (λ told. map told_of told.items
        ≡ map (told_at (over (sheet_of (D.document tables.now))
        (held_at (D.document tables.now) kept.now)) table.now column.now) rows.now) }
{
    let mut told = Vec::with_capacity(alloc, rows.len())?;
    for row in rows {
        told.push(cell_told(tables, kept, table, column, *row))?;
    }
    Ok(told)
}

// What is told of the cells of a column, which is looked up once.
fn cells_told<'a, D: DocTables>(
    alloc: Global,
    tables: &'a D,
    kept: &'a [KeptTable],
    table: &Name,
    column: &Name,
    rows: &[u32],
) -> Result<Vec<Reading<'a>>, AllocError>
    requires whole { IsWhole (D.document tables.now) }
    requires of_document { IsKeptOf (D.document tables.now) kept.now }
    ensures { IfOk result (λ told. map told_of told.items
        ≡ map (told_at (over (sheet_of (D.document tables.now))
        (held_at (D.document tables.now) kept.now)) table.now column.now) rows.now) }
{
    match column_at(kept, table, column) {
        Some(held) if held.is_formula => {
            kept_readings(alloc, held, rows_in(tables, table), rows)
        }
        Some(_) => {
            let cells = tables.cells(alloc, table, column, rows)?;
            base_readings(alloc, &cells)
        }
        None => each_told(alloc, tables, kept, table, column, rows),
    }
}

// The type that is kept of a column.
fn kept_type<'a>(kept: &'a [KeptTable], table: &Name, column: &Name) -> Option<&'a ColType>
    ensures { option_copied result
        ≡ option_map (λ e. e.ty) (column_at kept.now table.now column.now) }
{
    Some(&column_at(kept, table, column)?.ty)
}

impl<'a, D: DocTables> CellSource for KnownReader<'a, D> {
    ghost use Rattle.recalc.specs.Evaluated.{sheet_of};
    ghost use Rattle.recalc.specs.Kept.{held_at};
    ghost use Rattle.recalc.specs.Sheet.{over};

    ghost told = { λ r.
        over (sheet_of (D.document r.tables)) (held_at (D.document r.tables) r.kept) };

    fn ty(&self, table: &Name, column: &Name) -> Option<&ColType> {
        kept_type(self.kept, table, column)
    }

    fn rows(&self, table: &Name) -> Option<&[u32]> {
        self.tables.rows(table)
    }

    fn cell(&self, table: &Name, column: &Name, row: u32) -> Reading<'_> {
        cell_told(self.tables, self.kept, table, column, row)
    }

    fn cells(
        &self,
        alloc: Global,
        table: &Name,
        column: &Name,
        rows: &[u32],
    ) -> Result<Vec<Reading<'_>>, AllocError> {
        cells_told(alloc, self.tables, self.kept, table, column, rows)
    }
}

/// Lookups look at the rows under one key's value alone, where each key is `id` or has an index,
/// and at none where the lookup is the last one.
impl<'a, D: DocTables> CellReader for KnownReader<'a, D> {
    fn matching(
        &self,
        alloc: Global,
        table: &Name,
        keys: &KeyList,
    ) -> Result<Matching, AllocError> {
        if let Some(rows) = remembered(self.last, table, keys.as_slice()) {
            return Ok(Matching::Rows(RowList::from(Vec::from_slice(alloc, rows)?)));
        }
        match candidates(self.tables, self.indexes, table, keys.as_slice()) {
            Some(rows) => scan_among(alloc, self, table, keys, rows),
            None => scan(alloc, self, table, keys),
        }
    }
}
