//! The most columns, the most rows and the greatest row id before an action and after it.

ghost use Rattle.std.specs.Prelude.{◌≡◌, ◌<◌, ◌≤◌, ◌+◌, length, map, max, true};
ghost use Rattle.doc_model.specs.Apply.{apply};
ghost use Rattle.doc_model.specs.Column.{column_row};
ghost use Rattle.doc_model.specs.Counts.{counts, greatest};
ghost use Rattle.doc_model.specs.DocumentLaws.{IsWhole};
ghost use Rattle.doc_model.specs.Valid.{valid};
ghost use Rattle.doc_readers.specs.Parts.{grid_at};
ghost use Rattle.action_limits.specs.Brought.{maxima_brought, rows_described};
ghost use Rattle.action_limits.specs.Capped.{capped, table_in};
ghost use Rattle.action_limits.specs.Left.{TellsMaxima, columns_removed, columns_left, goes, number_at, rows_removed, rows_left, takes_away};
ghost use Rattle.action_limits.specs.Tallies.{are_within};

use crate::limits::{Counted, greatest_maxima, most_of, no_counts, table_count, table_id, wider};
use crate::weighing::column_count;
use cell_types::Name;
use doc_model::{ColDef, DocAction, DocTables};
use doc_readers::{columns_table, rows_in, tables_table};

/// The maxima of a document. Its tables are walked only where one is past a bound.
pub(crate) fn maxima_before<D: DocTables>(tables: &D, within: bool) -> Counted
    requires whole { IsWhole (D.document tables.now) }
    requires within { within ≡ are_within (counts (D.document tables.now)) }
    ensures { TellsMaxima result (D.document tables.now) }
{
    if within {
        return no_counts();
    }
    greatest_maxima(tables)
}

/// How many rows a table has with so many more.
pub(crate) fn rows_with<D: DocTables>(tables: &D, table: &Name, added: u64) -> u64
    requires { IsWhole (D.document tables.now) }
    ensures { result ≡ capped (length (grid_at (D.document tables.now) table.now).rows + added) }
{
    (rows_in(tables, table).len() as u64).saturating_add(added)
}

/// How many columns a table has with one more.
pub(crate) fn columns_with_one<D: DocTables>(tables: &D, table: &Name) -> u64
    requires { IsWhole (D.document tables.now) }
    ensures { result ≡ capped (length (grid_at (D.document tables.now) table.now).columns + 1) }
{
    (column_count(tables, table) as u64).saturating_add(1)
}

/// The most rows of the schema tables where so many tables and columns are described.
pub(crate) fn rows_described<D: DocTables>(tables: &D, new_tables: u64, new_columns: u64) -> u64
    requires { IsWhole (D.document tables.now) }
    ensures { result ≡ rows_described (D.document tables.now) new_tables new_columns }
{
    rows_with(tables, tables_table(tables), new_tables).max(rows_with(
        tables,
        columns_table(tables),
        new_columns,
    ))
}

fn greatest(rows: &[u32]) -> u64
    ensures value { result ≡ greatest rows.now }
{
    let mut most = 0u64;
    for row in rows {
        most = most.max(*row as u64);
    }
    most
}

fn greatest_row(columns: &[ColDef]) -> u64
    ensures { result ≡ greatest (map column_row columns.now) }
{
    let mut most = 0u64;
    for column in columns {
        most = most.max(column.row as u64);
    }
    most
}

// What an action brings: of the tables that get more, how much they have then.
fn maxima_brought<D: DocTables>(tables: &D, action: &DocAction) -> Counted
    requires { IsWhole (D.document tables.now) }
    ensures { result ≡ maxima_brought (D.document tables.now) action.now }
{
    match action {
        DocAction::BulkAdd { table, rows, .. } => {
            let count = rows.len() as u64;
            most_of(
                0,
                rows_with(tables, table, count),
                greatest(rows.as_slice()),
            )
        }
        DocAction::AddTable { row, columns, .. } => {
            let count = columns.len() as u64;
            let last = (*row as u64).max(greatest_row(columns.as_slice()));
            most_of(count, rows_described(tables, 1, count), last)
        }
        DocAction::AddColumn { table, column } => {
            let columns = columns_with_one(tables, table);
            most_of(columns, rows_described(tables, 0, 1), column.row as u64)
        }
        _ => no_counts(),
    }
}

fn takes_away(action: &DocAction) -> bool
    ensures { result ≡ takes_away action.now }
{
    matches!(
        action,
        DocAction::BulkRemove { .. }
            | DocAction::RemoveTable { .. }
            | DocAction::RemoveColumn { .. }
    )
}

fn goes(action: &DocAction, id: &Name) -> bool
    ensures { result ≡ goes action.now id.now }
{
    match action {
        DocAction::RemoveTable { table } => id.as_str() == table.as_str(),
        _ => false,
    }
}

fn columns_removed(action: &DocAction, id: &Name) -> u64
    ensures { result ≡ columns_removed action.now id.now }
{
    match action {
        DocAction::RemoveColumn { table, .. } => (id.as_str() == table.as_str()) as u64,
        _ => 0,
    }
}

// The first number at the table of tables, the second at the table of columns.
fn number_at<D: DocTables>(tables: &D, id: &Name, of_tables: u64, of_columns: u64) -> u64
    requires { IsWhole (D.document tables.now) }
    ensures { result ≡ number_at id.now of_tables of_columns }
{
    if tables_table(tables).as_str() == id.as_str() {
        of_tables
    } else if columns_table(tables).as_str() == id.as_str() {
        of_columns
    } else {
        0
    }
}

// How many rows of the table of an id an action removes.
fn rows_removed<D: DocTables>(tables: &D, action: &DocAction, id: &Name) -> u64
    requires { IsWhole (D.document tables.now) }
    ensures { result ≡ rows_removed (D.document tables.now) action.now id.now }
{
    match action {
        DocAction::BulkRemove { table, rows } => {
            if id.as_str() == table.as_str() {
                rows.len() as u64
            } else {
                0
            }
        }
        DocAction::RemoveTable { table } => {
            number_at(tables, id, 1, column_count(tables, table) as u64)
        }
        DocAction::RemoveColumn { .. } => number_at(tables, id, 0, 1),
        _ => 0,
    }
}

// What is left of the table at an index.
fn table_left<D: DocTables>(tables: &D, action: &DocAction, index: usize) -> Counted
    requires whole { IsWhole (D.document tables.now) }
    requires there { index < length (D.document tables.now) }
    ensures columns { result.columns
        ≡ columns_left action.now (table_in (D.document tables.now) index) }
    ensures rows { result.rows
        ≡ rows_left (D.document tables.now) action.now (table_in (D.document tables.now) index) }
    ensures row_id { result.row_id ≡ 0 }
{
    let id = table_id(tables, index);
    if goes(action, id) {
        return no_counts();
    }
    let columns = column_count(tables, id) as u64;
    let rows = rows_in(tables, id).len() as u64;
    Counted {
        columns: columns.saturating_sub(columns_removed(action, id)),
        rows: rows.saturating_sub(rows_removed(tables, action, id)),
        ..no_counts()
    }
}

// What is left of the maxima. No row id is told: what goes brings no greater one.
fn maxima_left<D: DocTables>(tables: &D, action: &DocAction) -> Counted
    requires whole { IsWhole (D.document tables.now) }
    requires takes { takes_away action.now ≡ true }
    requires valid { valid (D.document tables.now) action.now ≡ true }
    requires small { (counts (D.document tables.now)).row_id ≤ 4294967295 }
    ensures { TellsMaxima result (apply (D.document tables.now) action.now) }
{
    let mut most = no_counts();
    for index in 0..table_count(tables) {
        most = wider(most, table_left(tables, action, index));
    }
    most
}

/// The maxima after a valid action. Tables are walked only where one was past a bound before it.
pub(crate) fn maxima_after<D: DocTables>(tables: &D, within: bool, action: &DocAction) -> Counted
    requires whole { IsWhole (D.document tables.now) }
    requires within { within ≡ are_within (counts (D.document tables.now)) }
    requires valid { valid (D.document tables.now) action.now ≡ true }
    ensures { TellsMaxima result (apply (D.document tables.now) action.now) }
{
    if within {
        return maxima_brought(tables, action);
    }
    let before = greatest_maxima(tables);
    if takes_away(action) {
        return maxima_left(tables, action);
    }
    wider(before, maxima_brought(tables, action))
}
