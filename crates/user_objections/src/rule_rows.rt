//! Rows of the tables of access rules, as an action would leave them.

ghost use Rattle.std.specs.Prelude.{◌≡◌, IfOk, option_map};
ghost use Rattle.std.specs.List.{AllByRecursion, position};
ghost use Rattle.std.specs.Option.{option_copied};
ghost use Rattle.cell_types.specs.declared.value.CellValue.TheVariants.{Null};
ghost use Rattle.cell_types.specs.Conversion.{default_value, fit};
ghost use Rattle.doc_model.specs.declared.view.ViewCol.{ViewCol};
ghost use Rattle.doc_model.specs.ByIds.{find_id};
ghost use Rattle.doc_model.specs.Changes.{IsView, grid};
ghost use Rattle.doc_model.specs.Grid.{beside};
ghost use Rattle.doc_model.specs.Rows.{IsAscending};
ghost use Rattle.doc_model.specs.ViewEdits.{IsShown, shown_id};
ghost use Rattle.doc_model.specs.WellFormed.{user_id};
ghost use Rattle.plain_view.specs.Cells.{row_cells};
ghost use Rattle.std.specs.Str.{bytes_eq};
ghost use Rattle.user_objections.specs.RuleRows.{are_good_rows, cell_before, is_good_row, resource_rows, row_after, row_named, type_shown, value_given};
ghost use Rattle.user_objections.specs.RowsKept.{after_kept, before_kept};

use crate::tables::{find_column, find_table};
use acl_rows::{RowCells, is_good_resource, is_good_rule};
use cell_types::{CellValue, ColType, convert, copy_of, default_of};
use doc_model::{UserColumn, ViewCol, ViewTable};
use plain_view::cells::{row_cells, value_in};
use std::alloc::{AllocError, Global};
use user_actions::row_number;

// A row as an action would leave it.
#[derive(Drop)]
pub(crate) struct RowAfter<'a> {
    pub table: &'a ViewTable,
    pub given: &'a [UserColumn],
    pub index: usize,
    // Its cells before the action, where the row is not new.
    pub before: Option<&'a [CellValue]>,
}

// The values that a column is given.
fn find_given<'a>(given: &'a [UserColumn], column: &str) -> Option<&'a UserColumn>
    ensures { option_copied result ≡ find_id user_id column.now given.now }
{
    given.iter().find(|one| one.id.as_str() == column)
}

fn value_given<'a>(given: &'a [UserColumn], index: usize, column: &str) -> Option<&'a CellValue>
    ensures { option_copied result ≡ value_given given.now index column.now }
{
    match find_given(given, column) {
        Some(one) => one.values.as_slice().get(index),
        None => None,
    }
}

// A value as the column holds it.
fn fitted_shown(
    alloc: Global,
    table: &ViewTable,
    column: &str,
    value: &CellValue,
) -> Result<CellValue, AllocError>
    ensures { IfOk result (λ v. v ≡ fit (type_shown table.now column.now) value.now) }
{
    match find_column(table.columns.as_slice(), column) {
        Some(shown) => convert(alloc, &shown.ty, value),
        None => convert(alloc, &ColType::Any, value),
    }
}

fn default_shown(table: &ViewTable, column: &str) -> CellValue
    ensures { result ≡ default_value (type_shown table.now column.now) }
{
    match find_column(table.columns.as_slice(), column) {
        Some(shown) => default_of(&shown.ty),
        None => default_of(&ColType::Any),
    }
}

fn index_of(columns: &[ViewCol], column: &str) -> Option<usize>
    ensures { result ≡ position (λ (d : ViewCol). bytes_eq d.id column.now) columns.now }
{
    columns.iter().position(|shown| shown.id.as_str() == column)
}

// The cell of a column among the cells of a row.
fn cell_of(columns: &[ViewCol], cells: &[CellValue], column: &str) -> Result<CellValue, AllocError>
    ensures { IfOk result (λ v. v
        ≡ beside (λ d. bytes_eq (shown_id d) column.now) columns.now cells.now Null) }
{
    let index = index_of(columns, column);
    let value = copy_of(value_in(cells, index, &CellValue::Null))?;
    Ok(value)
}

// The cell that is there before.
fn cell_before(
    table: &ViewTable,
    before: Option<&[CellValue]>,
    column: &str,
) -> Result<CellValue, AllocError>
    ensures { IfOk result (λ v. v ≡ before_kept table.now before.entry column.now) }
{
    match before {
        Some(cells) => cell_of(table.columns.as_slice(), cells, column),
        None => Ok(default_shown(table, column)),
    }
}

impl RowCells for RowAfter<'_> {
    ghost use Rattle.user_objections.specs.RowsKept.{after_kept};

    ghost told = { after_kept };

    fn cell(&self, alloc: Global, column: &str) -> Result<CellValue, AllocError> {
        match value_given(self.given, self.index, column) {
            Some(value) => fitted_shown(alloc, self.table, column, value),
            None => cell_before(self.table, self.before, column),
        }
    }
}

// The row that an action names at an index; a new row has no number.
fn row_named(rows: &[i64], index: usize) -> Option<u32>
    ensures { result ≡ row_named rows.now index }
{
    match rows.get(index) {
        Some(number) => row_number(*number),
        None => None,
    }
}

// The cells of the row that an action names at an index.
fn cells_before<'a>(table: &'a ViewTable, rows: &[i64], index: usize) -> Option<&'a [CellValue]>
    requires { IsShown (grid table.now) }
    ensures { option_copied result
        ≡ option_map (row_cells (grid table.now)) (row_named rows.now index) }
{
    match row_named(rows, index) {
        Some(row) => Some(row_cells(table, row)),
        None => None,
    }
}

// The row that results at an index.
fn row_after<'a>(
    table: &'a ViewTable,
    given: &'a [UserColumn],
    rows: &[i64],
    index: usize,
) -> RowAfter<'a>
    requires { IsShown (grid table.now) }
    ensures { after_kept result ≡ row_after table.now given.now rows.now index }
{
    let before = cells_before(table, rows, index);
    RowAfter {
        table,
        given,
        index,
        before,
    }
}

// The rows of the resources that are seen.
#[tactic(auto, unfolding(doc_model::specs::MetadataIds::resources_id))]
fn resource_rows(tables: &[ViewTable]) -> &[u32]
    requires { AllByRecursion (λ t. IsShown (grid t)) tables.now }
    ensures value { result.now ≡ resource_rows tables.now }
    ensures ascending { IsAscending result.now }
{
    match find_table(tables, "_grist_ACLResources") {
        Some(table) => table.rows.as_slice(),
        None => &[],
    }
}

// Whether a row is good in that one of the two tables.
#[tactic(auto, unfolding(doc_model::specs::MetadataIds::resources_id))]
fn is_good_row(
    alloc: Global,
    tables: &[ViewTable],
    table: &str,
    row: &RowAfter,
) -> Result<bool, AllocError>
    requires { AllByRecursion (λ t. IsShown (grid t)) tables.now }
    ensures { IfOk result (λ b. b ≡ is_good_row tables.now table.now (after_kept row.now)) }
{
    if "_grist_ACLResources" == table {
        is_good_resource(alloc, row)
    } else {
        is_good_rule(alloc, resource_rows(tables), row)
    }
}

/// Whether so many rows that result in a table of access rules are good: those of these numbers, or
/// new ones.
///
/// Errors: out of memory. Cost: the rows, times the logarithm of those of the view, and the texts
/// of the rows that result.
pub(crate) fn are_good_rows(
    alloc: Global,
    tables: &[ViewTable],
    table: &ViewTable,
    given: &[UserColumn],
    rows: &[i64],
    count: usize,
) -> Result<bool, AllocError>
    requires seen { AllByRecursion (λ t. IsShown (grid t)) tables.now }
    requires shown { IsShown (grid table.now) }
    ensures { IfOk result
        (λ b. b ≡ are_good_rows tables.now table.now given.now rows.now count) }
{
    for index in 0..count {
        let row = row_after(table, given, rows, index);
        if !is_good_row(alloc, tables, table.id.as_str(), &row)? {
            return Ok(false);
        }
    }
    Ok(true)
}
