//! What a document counts, and the first limit that it passes.

ghost use Rattle.std.specs.Prelude.{◌≡◌, ◌<◌, ◌≤◌, ◌+◌, length, max};
ghost use Rattle.doc_model.specs.CountLaws.{nothing};
ghost use Rattle.doc_model.specs.Counts.{counts, first_passed, greatest, over, passed};
ghost use Rattle.doc_model.specs.DocumentLaws.{IsWhole};
ghost use Rattle.doc_readers.specs.Parts.{grid_at};
ghost use Rattle.action_limits.specs.Tallies.{are_within};
ghost use Rattle.action_limits.specs.Capped.{IsCapped, IsCounted, capped, counted_cells, counted_weight, most_of, no_counts, noted, table_in};

use crate::weighing::{column_count, table_cells, table_weight};
use cell_types::Name;
use doc_model::{DocTables, LimitKind};
use doc_readers::{is_schema_id, rows_in, tables_table};
use user_actions::last_row;

/// Counts of a document, or a part of them: sums, and what is the most of any table. Each is told
/// as far as 64 bits can.
#[derive(Clone, Copy)]
pub(crate) struct Counted {
    pub(crate) tables: u64,
    pub(crate) columns: u64,
    pub(crate) rows: u64,
    pub(crate) row_id: u64,
    pub(crate) cells: u64,
    pub(crate) weight: u64,
}

/// So many columns, so many rows and that row id, and no sums.
pub(crate) fn most_of(columns: u64, rows: u64, row_id: u64) -> Counted
    ensures { result ≡ most_of columns rows row_id }
{
    Counted {
        tables: 0,
        columns,
        rows,
        row_id,
        cells: 0,
        weight: 0,
    }
}

/// No counts.
pub(crate) fn no_counts() -> Counted
    ensures value { result ≡ no_counts }
    ensures sums { IsCapped result nothing }
{
    most_of(0, 0, 0)
}

// The limit where the count is above its bound, or else the next one.
fn passed(kind: LimitKind, count: u64, next: Option<LimitKind>) -> Option<LimitKind>
    ensures { result ≡ passed kind count next }
{
    if kind.bound() < count {
        Some(kind)
    } else {
        next
    }
}

/// The first limit that the counts pass.
pub(crate) fn first_passed(counts: Counted) -> Option<LimitKind>
    ensures { result ≡ first_passed (noted counts) }
{
    let next = passed(LimitKind::Weight, counts.weight, None);
    let next = passed(LimitKind::Cells, counts.cells, next);
    let next = passed(LimitKind::RowId, counts.row_id, next);
    let next = passed(LimitKind::Rows, counts.rows, next);
    let next = passed(LimitKind::Columns, counts.columns, next);
    passed(LimitKind::Tables, counts.tables, next)
}

/// How many tables there are: the metadata tables, and those that have a row.
pub(crate) fn table_count<D: DocTables>(tables: &D) -> usize
    requires { IsWhole (D.document tables.now) }
    ensures all { result ≡ length (D.document tables.now) }
    ensures plain { result ≡ (counts (D.document tables.now)).tables + 4 }
{
    rows_in(tables, tables_table(tables)).len() + 4
}

/// The id of the table at an index.
pub(crate) fn table_id<D: DocTables>(tables: &D, index: usize) -> &Name
    requires whole { IsWhole (D.document tables.now) }
    requires there { index < length (D.document tables.now) }
    ensures id { result.now ≡ (table_in (D.document tables.now) index).id }
    ensures grid { grid_at (D.document tables.now) result.now
        ≡ (table_in (D.document tables.now) index).grid }
{
    let Some(id) = tables.table(index) else {
        unreachable!()
    };
    id
}

fn table_maxima<D: DocTables>(tables: &D, table: &Name) -> Counted
    requires { IsWhole (D.document tables.now) }
    ensures columns { result.columns ≡ length (grid_at (D.document tables.now) table.now).columns }
    ensures rows { result.rows ≡ length (grid_at (D.document tables.now) table.now).rows }
    ensures row_id { result.row_id ≡ greatest (grid_at (D.document tables.now) table.now).rows }
    ensures small { result.row_id ≤ 4294967295 }
{
    Counted {
        columns: column_count(tables, table) as u64,
        rows: rows_in(tables, table).len() as u64,
        row_id: last_row(tables, table) as u64,
        ..no_counts()
    }
}

/// The greater one of each.
pub(crate) fn wider(left: Counted, right: Counted) -> Counted
    ensures columns { result.columns ≡ max left.columns right.columns }
    ensures rows { result.rows ≡ max left.rows right.rows }
    ensures row_id { result.row_id ≡ max left.row_id right.row_id }
{
    Counted {
        columns: left.columns.max(right.columns),
        rows: left.rows.max(right.rows),
        row_id: left.row_id.max(right.row_id),
        ..left
    }
}

/// The most columns, the most rows and the greatest row id of any table.
pub(crate) fn greatest_maxima<D: DocTables>(tables: &D) -> Counted
    requires { IsWhole (D.document tables.now) }
    ensures columns { result.columns ≡ (counts (D.document tables.now)).columns }
    ensures rows { result.rows ≡ (counts (D.document tables.now)).rows }
    ensures row_id { result.row_id ≡ (counts (D.document tables.now)).row_id }
    ensures small { result.row_id ≤ 4294967295 }
{
    let mut most = no_counts();
    for index in 0..table_count(tables) {
        most = wider(most, table_maxima(tables, table_id(tables, index)));
    }
    most
}

fn counted_cells<D: DocTables>(tables: &D, index: usize) -> u64
    requires whole { IsWhole (D.document tables.now) }
    requires there { index < length (D.document tables.now) }
    ensures { result ≡ capped (counted_cells (table_in (D.document tables.now) index)) }
{
    let id = table_id(tables, index);
    if is_schema_id(id.as_str()) {
        return 0;
    }
    table_cells(tables, id)
}

fn counted_weight<D: DocTables>(tables: &D, index: usize) -> u64
    requires whole { IsWhole (D.document tables.now) }
    requires there { index < length (D.document tables.now) }
    ensures { result ≡ capped (counted_weight (table_in (D.document tables.now) index)) }
{
    let id = table_id(tables, index);
    if is_schema_id(id.as_str()) {
        return 0;
    }
    table_weight(tables, id)
}

fn all_cells<D: DocTables>(tables: &D) -> u64
    requires { IsWhole (D.document tables.now) }
    ensures { result ≡ capped (counts (D.document tables.now)).cells }
{
    let mut cells = 0u64;
    for index in 0..table_count(tables) {
        cells = cells.saturating_add(counted_cells(tables, index));
    }
    cells
}

fn all_weight<D: DocTables>(tables: &D) -> u64
    requires { IsWhole (D.document tables.now) }
    ensures { result ≡ capped (counts (D.document tables.now)).weight }
{
    let mut weight = 0u64;
    for index in 0..table_count(tables) {
        weight = weight.saturating_add(counted_weight(tables, index));
    }
    weight
}

/// What is counted of a document, cells and weight as far as 64 bits can tell.
///
/// Memory: none. Cost: a walk over all cells.
pub(crate) fn counts_of<D: DocTables>(tables: &D) -> Counted
    requires { IsWhole (D.document tables.now) }
    ensures { IsCounted (D.document tables.now) result }
{
    let most = greatest_maxima(tables);
    Counted {
        tables: table_count(tables) as u64 - 4,
        columns: most.columns,
        rows: most.rows,
        row_id: most.row_id,
        cells: all_cells(tables),
        weight: all_weight(tables),
    }
}

/// Whether no table has too many columns or rows, or too great a row id.
pub(crate) fn are_within(counts: Counted) -> bool
    ensures { result ≡ are_within (noted counts) }
{
    counts.columns <= LimitKind::Columns.bound()
        && counts.rows <= LimitKind::Rows.bound()
        && counts.row_id <= LimitKind::RowId.bound()
}

/// The first limit that a document passes.
///
/// Memory: none. Cost: a walk over all cells.
/// Source: docs/DEFINITIONS.md, "action_limits".
pub fn over<D: DocTables>(tables: &D) -> Option<LimitKind>
    requires whole { IsWhole (D.document tables.now) }
    ensures { result ≡ over (D.document tables.now) }
{
    first_passed(counts_of(tables))
}
