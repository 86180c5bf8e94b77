//! One thing that an action does to what can be read, by the numbers of a graph.

ghost use Rattle.std.specs.Prelude.{◌≡◌, ◌∷◌, [], ℕ, nat_eq, IfOk, OnOk};
ghost use Rattle.std.specs.List.{list_any};
ghost use Rattle.doc_model.specs.Rows.{has};
ghost use Rattle.affected_cells.specs.Touched.{cells_written, column_altered, rows_come_or_go, table_altered};
ghost use Rattle.affected_search.specs.Touches.{AddsTouches, is_column_touched, is_row_touched, tells, touches_number};

use cell_types::Name;
use dep_graph::{ColumnNumber, DepGraph, ReadNumber};
use std::alloc::{AllocError, Global};
use std::collections::HashSet;
use std::marker::Model;

/// A touch of a table, or of one of its columns, in some rows or in all.
#[derive(Drop)]
pub(crate) struct Touch {
    table: u32,
    column: Option<u32>,
    rows: Option<HashSet<u32>>,
}

impl Model for Touch {
    ghost use Rattle.std.specs.Option.{option_map};
    ghost use Rattle.std.specs.HashSet.{keys};
    ghost use Rattle.affected_search.specs.Touches.{NumberTouch};

    ghost Value = { NumberTouch };

    ghost view = { λ t. record {
      table = t.table;
      column = t.column;
      rows = option_map keys t.rows;
    } };
}

impl Touch {
    fn has_column(&self, column: ColumnNumber) -> bool
        ensures { result ≡ is_column_touched self.now column }
    {
        column.table == self.table
            && match self.column {
                Some(number) => column.column == number,
                None => true,
            }
    }

    fn has_row(&self, row: u32) -> bool
        ensures { result ≡ is_row_touched self.now row }
    {
        match &self.rows {
            Some(rows) => rows.contains(&row),
            None => true,
        }
    }

    // Whether the read is touched.
    fn touches(&self, read: ReadNumber) -> bool
        ensures { result ≡ touches_number self.now read }
    {
        match read {
            ReadNumber::Cell(cell) => self.has_column(cell.column) && self.has_row(cell.row),
            ReadNumber::Key(column) => self.has_column(column),
            ReadNumber::Rows(table) => table == self.table && self.column.is_none(),
            _ => false,
        }
    }
}

/// Whether one of them touches the read.
///
/// Memory: none.
pub(crate) fn is_touched(touches: &[Touch], read: ReadNumber) -> bool
    ensures { result ≡ tells touches.now read }
{
    touches.iter().any(|touch| touch.touches(read))
}

fn set_of(alloc: Global, rows: &[u32]) -> Result<HashSet<u32>, AllocError>
    ensures { IfOk result (λ s. (r : ℕ) → list_any (nat_eq r) s.keys ≡ has rows.now r) }
{
    let mut set = HashSet::with_capacity(alloc, rows.len())?;
    for row in rows {
        set.insert(*row)?;
    }
    Ok(set)
}

/// Adds that a table is altered. Where it has no number, nothing is read of it.
pub(crate) fn push_table(
    graph: &DepGraph,
    table: &Name,
    touches: &mut Vec<Touch>,
) -> Result<(), AllocError>
    ensures { OnOk result (AddsTouches graph.now.names (table_altered table.now ∷ [])
        touches.old.items touches.new.items) }
{
    let Some(table) = graph.number(table) else {
        return Ok(());
    };
    touches.push(Touch {
        table,
        column: None,
        rows: None,
    })?;
    Ok(())
}

/// Adds that rows of a table come or go.
pub(crate) fn push_rows(
    alloc: Global,
    graph: &DepGraph,
    table: &Name,
    rows: &[u32],
    touches: &mut Vec<Touch>,
) -> Result<(), AllocError>
    ensures { OnOk result (AddsTouches graph.now.names (rows_come_or_go table.now rows.now ∷ [])
        touches.old.items touches.new.items) }
{
    let Some(table) = graph.number(table) else {
        return Ok(());
    };
    let rows = set_of(alloc, rows)?;
    touches.push(Touch {
        table,
        column: None,
        rows: Some(rows),
    })?;
    Ok(())
}

/// Adds that a column is altered.
pub(crate) fn push_column(
    graph: &DepGraph,
    table: &Name,
    column: &Name,
    touches: &mut Vec<Touch>,
) -> Result<(), AllocError>
    ensures { OnOk result (AddsTouches graph.now.names (column_altered table.now column.now ∷ [])
        touches.old.items touches.new.items) }
{
    let Some(number) = graph.column_number(table, column) else {
        return Ok(());
    };
    touches.push(Touch {
        table: number.table,
        column: Some(number.column),
        rows: None,
    })?;
    Ok(())
}

/// Adds that cells of a column are written.
pub(crate) fn push_cells(
    alloc: Global,
    graph: &DepGraph,
    table: &Name,
    column: &Name,
    rows: &[u32],
    touches: &mut Vec<Touch>,
) -> Result<(), AllocError>
    ensures { OnOk result (AddsTouches graph.now.names
        (cells_written table.now column.now rows.now ∷ [])
        touches.old.items touches.new.items) }
{
    let Some(number) = graph.column_number(table, column) else {
        return Ok(());
    };
    let rows = set_of(alloc, rows)?;
    touches.push(Touch {
        table: number.table,
        column: Some(number.column),
        rows: Some(rows),
    })?;
    Ok(())
}
