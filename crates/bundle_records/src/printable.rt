//! Whether document actions read back from what is printed of them.
ghost use Rattle.std.specs.Prelude.{◌≡◌, nat_eq, length, map};
ghost use Rattle.std.specs.List.{list_all};
ghost use Rattle.doc_model.specs.declared.column.CellColumn.{CellColumn};
ghost use Rattle.doc_model.specs.ByIds.{precedes};
ghost use Rattle.doc_model.specs.WellFormed.{are_by_id, have_values};
ghost use Rattle.action_lines.specs.Numbers.{is_int, is_row};
ghost use Rattle.action_lines.specs.Values.{has_name_length};
ghost use Rattle.record_lines.specs.Columns.{unnamed};
ghost use Rattle.record_lines.specs.Infos.{is_type, is_column};
ghost use Rattle.record_lines.specs.DocActions.{named_table};
ghost use Rattle.record_lines.specs.Printable.{are_cells, fits_behind, fits_column, fits_item, fits_value, is_printable};

use cell_types::{CellItem, CellValue, ColType, Name};
use doc_model::{CellColumn, ColDef, DocAction};
use std::cmp::Ordering;

// Each name has such a length: it is read for the proof.
fn has_name_length(name: &Name) -> bool
    ensures { result ≡ has_name_length name.now }
{
    let _text = name.as_str();
    true
}

// Each such number fits.
fn is_int(number: i64) -> bool
    ensures { result ≡ is_int number }
{
    let _fits = number;
    true
}

fn is_row(row: u32) -> bool
    ensures { result ≡ is_row row }
{
    (row as u64) < 4_294_967_296
}

fn are_rows(rows: &[u32]) -> bool
    ensures { result ≡ list_all is_row rows.now }
{
    rows.iter().all(|row| is_row(*row))
}

fn fits_item(item: &CellItem) -> bool
    ensures { result ≡ fits_item item.now }
{
    match item {
        CellItem::Int(number) | CellItem::Date(number) => is_int(*number),
        CellItem::Rec(row) => has_name_length(&row.table) && is_row(row.row),
        _ => true,
    }
}

fn items_fit(items: &[CellItem]) -> bool
    ensures { result ≡ list_all fits_item items.now }
{
    items.iter().all(|item| fits_item(item))
}

fn fits_value(value: &CellValue) -> bool
    ensures { result ≡ fits_value value.now }
{
    match value {
        CellValue::Int(number) | CellValue::Date(number) => is_int(*number),
        CellValue::Rec(row) => has_name_length(&row.table) && is_row(row.row),
        CellValue::RecSet(set) => { has_name_length(&set.table) && are_rows(set.rows.as_slice()) }
        CellValue::List(items) => items_fit(items.as_slice()),
        _ => true,
    }
}

fn values_fit(values: &[CellValue]) -> bool
    ensures { result ≡ list_all fits_value values.now }
{
    values.iter().all(|value| fits_value(value))
}

fn fits_column(column: &CellColumn) -> bool
    ensures { result ≡ fits_column column.now }
{
    has_name_length(&column.id) && values_fit(column.values.as_slice())
}

fn columns_fit(columns: &[CellColumn]) -> bool
    ensures { result ≡ list_all fits_column columns.now }
{
    columns.iter().all(|column| fits_column(column))
}

fn precedes(left: &Name, right: &Name) -> bool
    ensures { result ≡ precedes left.now right.now }
{
    left.cmp(right) == Ordering::Less
}

// Whether the columns stand by id.
fn are_by_id(columns: &[CellColumn]) -> bool
    ensures { result ≡ are_by_id (map unnamed columns.now) }
{
    for index in 0..columns.len().saturating_sub(1) {
        let column = &columns[index];
        let next = &columns[index + 1];
        if !precedes(&column.id, &next.id) {
            return false;
        }
    }
    true
}

fn has_values(column: &CellColumn, count: usize) -> bool
    ensures { result ≡ nat_eq (length column.now.values) count }
{
    column.values.len() == count
}

fn all_have_values(columns: &[CellColumn], count: usize) -> bool
    ensures { result
        ≡ list_all (λ (c : CellColumn). nat_eq (length c.values) count) columns.now }
{
    columns.iter().all(|column| has_values(column, count))
}

#[tactic(auto, using(crate::proofs::PrintableLemmas::have_as))]
fn have_values(columns: &[CellColumn], count: usize) -> bool
    ensures { result ≡ have_values count (map unnamed columns.now) }
{
    all_have_values(columns, count)
}

fn are_cells(rows: &[u32], columns: &[CellColumn]) -> bool
    ensures { result ≡ are_cells rows.now columns.now }
{
    (are_rows(rows) && columns_fit(columns))
        && (are_by_id(columns) && have_values(columns, rows.len()))
}

fn is_type(ty: &ColType) -> bool
    ensures { result ≡ is_type ty.now }
{
    match ty {
        ColType::Ref(table) | ColType::RefList(table) => has_name_length(table),
        _ => true,
    }
}

fn is_column(column: &ColDef) -> bool
    ensures { result ≡ is_column column.now }
{
    (has_name_length(&column.id) && is_row(column.row)) && is_type(&column.info.ty)
}

fn are_columns(columns: &[ColDef]) -> bool
    ensures { result ≡ list_all is_column columns.now }
{
    columns.iter().all(|column| is_column(column))
}

fn fits_behind(action: &DocAction) -> bool
    ensures { result ≡ fits_behind action.now }
{
    match action {
        DocAction::BulkAdd { rows, columns, .. } | DocAction::BulkUpdate { rows, columns, .. } => {
            are_cells(rows.as_slice(), columns.as_slice())
        }
        DocAction::BulkRemove { rows, .. } => are_rows(rows.as_slice()),
        DocAction::AddTable { row, columns, .. } => is_row(*row) && are_columns(columns.as_slice()),
        DocAction::RemoveTable { .. } => true,
        DocAction::RenameTable { new, .. } => has_name_length(new),
        DocAction::AddColumn { column, .. } => is_column(column),
        DocAction::RemoveColumn { column, .. } => has_name_length(column),
        DocAction::RenameColumn { column, new, .. } => {
            has_name_length(column) && has_name_length(new)
        }
        DocAction::ModifyColumn { column, info, .. } => {
            has_name_length(column) && is_type(&info.ty)
        }
    }
}

fn table_of(action: &DocAction) -> &Name
    ensures { result.now ≡ named_table action.now }
{
    match action {
        DocAction::BulkAdd { table, .. }
        | DocAction::BulkUpdate { table, .. }
        | DocAction::BulkRemove { table, .. }
        | DocAction::AddTable { table, .. }
        | DocAction::RemoveTable { table }
        | DocAction::RenameTable { table, .. }
        | DocAction::AddColumn { table, .. }
        | DocAction::RemoveColumn { table, .. }
        | DocAction::RenameColumn { table, .. }
        | DocAction::ModifyColumn { table, .. } => table,
    }
}

fn is_printable(action: &DocAction) -> bool
    ensures { result ≡ is_printable action.now }
{
    has_name_length(table_of(action)) && fits_behind(action)
}

/// Whether the actions read back from what is printed of them: columns stand by id, each with a
/// value for each row. The rest holds of all actions.
pub(crate) fn are_printable(actions: &[DocAction]) -> bool
    ensures { result ≡ list_all is_printable actions.now }
{
    actions.iter().all(|action| is_printable(action))
}
