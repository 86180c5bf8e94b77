//! Values of a table laid beside other rows, those of rows that stay moved.

ghost use Rattle.std.specs.Prelude.{ℕ, ◌≡◌, ◌&&◌, ◌<◌, None, Some, IfOk, OnErr, cond, length, map};
ghost use Rattle.std.specs.List.{AllByRecursion, position};
ghost use Rattle.std.specs.Option.{option_copied};
ghost use Rattle.std.specs.Str.{bytes_eq};
ghost use Rattle.doc_model.specs.ByIds.{find_id};
ghost use Rattle.doc_model.specs.Document.{Document};
ghost use Rattle.doc_model.specs.Rows.{IsAscending, has};
ghost use Rattle.doc_readers.specs.Parts.{grid_at};
ghost use Rattle.recalc.specs.declared.kept.KeptTable.{KeptTable};
ghost use Rattle.recalc.specs.Kept.{IsKeptOf, held_in, kept_table_id};
ghost use Rattle.affected_values.specs.Relaid.{AreExchanged, CanBeLaid, HasAside, HasPlaces, IsExchanged, IsLaidAnew, IsLaidBack, IsMovedFrom, IsTableExchanged, IsTraded, blank_of, places_in};

use cell_types::{CellValue, Name};
use doc_model::DocTables;
use doc_readers::rows_in;
use recalc::{KeptColumn, KeptTable};
use std::alloc::{AllocError, Global};
use std::mem;

/// The values of a table that were laid aside: of each column in the order of the table, of a
/// formula column beside rows that the table had.
#[derive(Drop)]
pub struct LaidAside {
    pub table: Name,
    pub rows: Vec<u32>,
    pub columns: Vec<Vec<Option<CellValue>>>,
}

// Lets two values change places.
fn trade(
    values: &mut Vec<Option<CellValue>>,
    index: usize,
    others: &mut Vec<Option<CellValue>>,
    other: usize,
)
    requires within { index < length values.old.items }
    requires other_within { other < length others.old.items }
    ensures { IsTraded values.old.items index others.old.items other values.new.items
        others.new.items }
{
    mem::swap(&mut values[index], &mut others[other]);
}

// Lets the values of the rows that are in both lists change places.
fn trade_shared(
    values: &mut Vec<Option<CellValue>>,
    rows: &[u32],
    others: &mut Vec<Option<CellValue>>,
    other_rows: &[u32],
)
    requires ascending { IsAscending rows.now }
    requires other_ascending { IsAscending other_rows.now }
    requires places { length values.old.items ≡ length rows.now }
    requires other_places { length others.old.items ≡ length other_rows.now }
    ensures places { length values.new.items ≡ length rows.now }
    ensures other_places { length others.new.items ≡ length other_rows.now }
    ensures now { (r : ℕ) → held_in rows.now values.new.items r
        ≡ cond (has rows.now r && has other_rows.now r) (held_in other_rows.now others.old.items r)
        (held_in rows.now values.old.items r) }
    ensures others { (r : ℕ) → held_in other_rows.now others.new.items r
        ≡ cond (has rows.now r && has other_rows.now r) (held_in rows.now values.old.items r)
        (held_in other_rows.now others.old.items r) }
{
    let mut index = 0;
    let mut other = 0;
    'walking: while index < rows.len() && other < other_rows.len() {
        let row = rows[index];
        let other_row = other_rows[other];
        if row < other_row {
            index += 1;
        } else if other_row < row {
            other += 1;
        } else {
            trade(values, index, others, other);
            index += 1;
            other += 1;
        }
    }
}

// Lays a column beside other rows, with these values for those that it did not have, and leaves
// what it had of rows that are not among them.
fn exchange_column(
    column: &mut KeptColumn,
    rows: &[u32],
    aside: &mut Vec<Option<CellValue>>,
    others: &[u32],
)
    requires ascending { IsAscending rows.now }
    requires other_ascending { IsAscending others.now }
    requires places { HasPlaces (length rows.now) column.old }
    requires aside { length aside.old.items
        ≡ places_in (length others.now) column.old.is_formula }
    ensures { IsExchanged rows.now others.now column.old aside.old column.new aside.new }
{
    if column.is_formula {
        trade_shared(&mut column.values, rows, aside, others);
        mem::swap(&mut column.values, aside);
    }
}

// The same of all columns of a table.
fn exchange_columns(
    table: &mut KeptTable,
    rows: &[u32],
    aside: &mut Vec<Vec<Option<CellValue>>>,
    others: &[u32],
)
    requires ascending { IsAscending rows.now }
    requires other_ascending { IsAscending others.now }
    requires places { AllByRecursion (HasPlaces (length rows.now)) table.old.columns.items }
    requires aside { map (λ v. length v.items) aside.old.items
        ≡ map (λ e. places_in (length others.now) e.is_formula) table.old.columns.items }
    ensures named { table.new.id ≡ table.old.id }
    ensures columns { AreExchanged rows.now others.now table.old.columns.items aside.old.items
        table.new.columns.items aside.new.items }
{
    let mut index = 0;
    'exchanging: while index < table.columns.len() {
        exchange_column(&mut table.columns[index], rows, &mut aside[index], others);
        index += 1;
    }
}

fn table_index(tables: &[KeptTable], id: &Name) -> Option<usize>
    ensures { result ≡ position (λ k. bytes_eq (kept_table_id k) id.now) tables.now }
{
    tables
        .iter()
        .position(|table| table.id.as_str() == id.as_str())
}

// The same of the table of this id.
fn exchange_table(
    kept: &mut Vec<KeptTable>,
    table: &Name,
    rows: &[u32],
    aside: &mut Vec<Vec<Option<CellValue>>>,
    others: &[u32],
)
    requires ascending { IsAscending rows.now }
    requires other_ascending { IsAscending others.now }
    requires there { CanBeLaid table.now rows.now others.now kept.old.items aside.old.items }
    ensures { IsTableExchanged table.now rows.now others.now kept.old.items aside.old.items
        kept.new.items aside.new.items }
{
    let Some(index) = table_index(kept, table) else {
        unreachable!();
    };
    exchange_columns(&mut kept[index], rows, aside, others);
}

// A place for each row, and no value.
fn blank_values(alloc: Global, rows: &[u32]) -> Result<Vec<Option<CellValue>>, AllocError>
    ensures { IfOk result (λ v. v.items ≡ map (λ _. None) rows.now) }
{
    let mut values = Vec::with_capacity(alloc, rows.len())?;
    for _row in rows {
        values.push(None)?;
    }
    Ok(values)
}

// Places for the values of these columns beside rows, and no value.
fn blank_columns(
    alloc: Global,
    columns: &[KeptColumn],
    rows: &[u32],
) -> Result<Vec<Vec<Option<CellValue>>>, AllocError>
    ensures { IfOk result (λ v. map (λ w. w.items) v.items ≡ map (blank_of rows.now) columns.now) }
{
    let mut blank = Vec::with_capacity(alloc, columns.len())?;
    for column in columns {
        let rows = if column.is_formula { rows } else { &[] };
        blank.push(blank_values(alloc, rows)?)?;
    }
    Ok(blank)
}

fn find_table<'a>(tables: &'a [KeptTable], id: &Name) -> Option<&'a KeptTable>
    ensures { option_copied result ≡ find_id kept_table_id id.now tables.now }
{
    tables.iter().find(|table| table.id.as_str() == id.as_str())
}

// The same of the columns of the table of this id.
fn blank_table(
    alloc: Global,
    kept: &[KeptTable],
    table: &Name,
    rows: &[u32],
) -> Result<Vec<Vec<Option<CellValue>>>, AllocError>
    ensures { IfOk result
        (λ v. (k : KeptTable) → find_id kept_table_id table.now kept.now ≡ Some k
        → map (λ w. w.items) v.items ≡ map (blank_of rows.now) k.columns.items) }
{
    match find_table(kept, table) {
        Some(held) => blank_columns(alloc, &held.columns, rows),
        None => Ok(Vec::new(alloc)),
    }
}

/// Lays the values of a table beside the rows that it has, after rows came or went: those of rows
/// that stay are moved, of rows that come nothing is known, and those of rows that go are laid
/// aside, with the rows that the table had.
///
/// Errors: out of memory; nothing is then changed.
/// Memory: a place for each formula cell of the table. Cost: one walk over its rows for each
/// formula column.
pub fn lay_anew<D: DocTables>(
    alloc: Global,
    tables: &D,
    kept: &mut Vec<KeptTable>,
    table: &Name,
    rows: Vec<u32>,
) -> Result<LaidAside, AllocError>
    requires ascending { IsAscending rows.items }
    requires moved { (s : Document) × IsMovedFrom s (D.document tables.now) table.now
        × (rows.items ≡ (grid_at s table.now).rows) × IsKeptOf s kept.old.items }
    ensures ok { IfOk result (λ aside. (s : Document)
        → IsMovedFrom s (D.document tables.now) table.now
        → rows.items ≡ (grid_at s table.now).rows → IsKeptOf s kept.old.items
        → IsLaidAnew s (D.document tables.now) table.now kept.old.items kept.new.items aside) }
    ensures err { OnErr result (kept.new ≡ kept.old) }
{
    let named = table.clone()?;
    let others = rows_in(tables, table);
    let mut columns = blank_table(alloc, kept, table, others)?;
    exchange_table(kept, table, rows.as_slice(), &mut columns, others);
    Ok(LaidAside {
        table: named,
        rows,
        columns,
    })
}

/// Lays the values of a table beside the rows that it had, before the store is taken back: those of
/// rows that stayed are moved back, beside those that were laid aside.
///
/// Memory: none. Cost: as of `lay_anew`.
pub fn lay_back<D: DocTables>(tables: &D, kept: &mut Vec<KeptTable>, aside: LaidAside)
    requires moved { (s : Document) × IsMovedFrom s (D.document tables.now) aside.table
        × HasAside s aside × IsKeptOf (D.document tables.now) kept.old.items }
    ensures { (s : Document) → IsMovedFrom s (D.document tables.now) aside.table
        → HasAside s aside → IsKeptOf (D.document tables.now) kept.old.items
        → IsLaidBack s (D.document tables.now) kept.old.items kept.new.items aside }
{
    let LaidAside {
        table,
        rows,
        columns,
    } = aside;
    let mut columns = columns;
    let now = rows_in(tables, &table);
    exchange_table(kept, &table, now, &mut columns, rows.as_slice());
}
