//! Tables in memory for tests; each has the rows 1 to 3.

ghost use Rattle.std.specs.Prelude.{◌≡◌, None, Some, MatchOption};
ghost use Rattle.formula_eval.specs.Asked.{told_of};
ghost use Rattle.formula_tests.specs.Memory.{column_of, has_table, in_row, is_column, told_slot};

use cell_types::{CellValue, ColType, KeyList, Name, Same};
use formula_eval::{CellReader, CellSource, Matching, Reading, scan};
use std::alloc::{AllocError, Global};

/// What a cell holds, or that it is needed.
#[derive(Drop)]
pub enum Slot {
    Known(CellValue),
    Needed,
}

/// A column of a table, with its three cells.
#[derive(Drop)]
pub struct Column {
    pub table: Name,
    pub id: Name,
    pub ty: ColType,
    pub first: Slot,
    pub second: Slot,
    pub third: Slot,
}

/// The columns of all tables.
#[derive(Drop)]
pub struct Memory {
    pub columns: Vec<Column>,
}

static ROWS: [u32; 3] = [1, 2, 3];

fn told_slot(slot: &Slot) -> Reading<'_>
    ensures { told_of result ≡ told_slot slot.now }
{
    match slot {
        Slot::Known(value) => Reading::Known(value),
        Slot::Needed => Reading::Need,
    }
}

fn in_row(column: &Column, row: u32) -> Reading<'_>
    ensures { told_of result ≡ in_row column.now row }
{
    if row == 1 {
        told_slot(&column.first)
    } else if row == 2 {
        told_slot(&column.second)
    } else if row == 3 {
        told_slot(&column.third)
    } else {
        Reading::NoRow
    }
}

fn is_column(column: &Column, table: &Name, id: &Name) -> bool
    ensures { result ≡ is_column column.now table.now id.now }
{
    column.table.same_as(table) && column.id.same_as(id)
}

fn find_column<'a>(columns: &'a [Column], table: &Name, id: &Name) -> Option<&'a Column>
    ensures { MatchOption result (column_of columns.now table.now id.now ≡ None)
        (λ column. column_of columns.now table.now id.now ≡ Some column.now) }
{
    for column in columns {
        if is_column(column, table, id) {
            return Some(column);
        }
    }
    None
}

fn has_table(columns: &[Column], table: &Name) -> bool
    ensures { result ≡ has_table columns.now table.now }
{
    columns.iter().any(|column| column.table.same_as(table))
}

impl CellSource for Memory {
    ghost use Rattle.formula_tests.specs.Memory.{told_by};

    ghost told = { λ memory. told_by memory.columns.items };

    fn ty(&self, table: &Name, column: &Name) -> Option<&ColType> {
        match find_column(self.columns.as_slice(), table, column) {
            Some(column) => Some(&column.ty),
            None => None,
        }
    }

    fn rows(&self, table: &Name) -> Option<&[u32]> {
        if has_table(self.columns.as_slice(), table) {
            Some(&ROWS)
        } else {
            None
        }
    }

    fn cell(&self, table: &Name, column: &Name, row: u32) -> Reading<'_> {
        if !has_table(self.columns.as_slice(), table) {
            return Reading::NoTable;
        }
        match find_column(self.columns.as_slice(), table, column) {
            Some(column) => in_row(column, row),
            None => Reading::NoColumn,
        }
    }
}

impl CellReader for Memory {
    fn matching(
        &self,
        alloc: Global,
        table: &Name,
        keys: &KeyList,
    ) -> Result<Matching, AllocError> {
        scan(alloc, self, table, keys)
    }
}
