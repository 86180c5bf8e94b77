//! Where dates stand in document actions.
ghost use Rattle.std.specs.Prelude.{◌≡◌};
ghost use Rattle.std.specs.List.{list_any};
ghost use Rattle.record_lines.specs.Dates.{is_date_item, holds_date, column_holds_date, is_date_column, has_date};

use cell_types::{CellItem, CellValue, ColType};
use doc_model::{CellColumn, ColDef, DocAction};

fn is_date_item(item: &CellItem) -> bool
    ensures { result ≡ is_date_item item.now }
{
    matches!(item, CellItem::Date(_))
}

fn items_hold_date(items: &[CellItem]) -> bool
    ensures { result ≡ list_any is_date_item items.now }
{
    items.iter().any(|item| is_date_item(item))
}

fn holds_date(value: &CellValue) -> bool
    ensures { result ≡ holds_date value.now }
{
    match value {
        CellValue::Date(_) => true,
        CellValue::List(items) => items_hold_date(items.as_slice()),
        _ => false,
    }
}

fn values_hold_date(values: &[CellValue]) -> bool
    ensures { result ≡ list_any holds_date values.now }
{
    values.iter().any(|value| holds_date(value))
}

fn column_holds_date(column: &CellColumn) -> bool
    ensures { result ≡ column_holds_date column.now }
{
    values_hold_date(column.values.as_slice())
}

fn columns_hold_date(columns: &[CellColumn]) -> bool
    ensures { result ≡ list_any column_holds_date columns.now }
{
    columns.iter().any(|column| column_holds_date(column))
}

fn is_date_column(column: &ColDef) -> bool
    ensures { result ≡ is_date_column column.now }
{
    matches!(column.info.ty, ColType::Date)
}

fn are_date_columns(columns: &[ColDef]) -> bool
    ensures { result ≡ list_any is_date_column columns.now }
{
    columns.iter().any(|column| is_date_column(column))
}

fn has_date(action: &DocAction) -> bool
    ensures { result ≡ has_date action.now }
{
    match action {
        DocAction::BulkAdd { columns, .. } | DocAction::BulkUpdate { columns, .. } => {
            columns_hold_date(columns.as_slice())
        }
        DocAction::AddTable { columns, .. } => are_date_columns(columns.as_slice()),
        DocAction::AddColumn { column, .. } => is_date_column(column),
        DocAction::ModifyColumn { info, .. } => matches!(info.ty, ColType::Date),
        _ => false,
    }
}

/// A date or the type of dates stands in one of the actions.
pub(crate) fn have_date(actions: &[DocAction]) -> bool
    ensures { result ≡ list_any has_date actions.now }
{
    actions.iter().any(|action| has_date(action))
}
