//! Rows and their cells behind the table of a document action.
ghost use Rattle.std.specs.Prelude.{◌≡◌, IfOk};
ghost use Rattle.serde_json.specs.View.{items_view};
ghost use Rattle.record_lines.specs.Columns.{name_column, named_from};
ghost use Rattle.record_lines.specs.Reading.{cells_from, rows_from};

use action_lines::{Items, columns_in, read_given};
use cell_types::{Name, RowList};
use doc_model::{CellColumn, ColumnList, UserColumn, UserColumnList};
use std::alloc::{AllocError, Global};

#[tactic(auto, unfolding(crate::specs::Columns::name_column))]
fn named(column: UserColumn) -> Option<CellColumn>
    ensures { result ≡ name_column column }
{
    let UserColumn { id, values } = column;
    match Name::try_new(id) {
        Some(id) => Some(CellColumn { id, values }),
        None => None,
    }
}

// The columns, where all their ids are names.
fn all_named(alloc: Global, columns: UserColumnList) -> Result<Option<ColumnList>, AllocError>
    ensures { IfOk result (λ o. o ≡ named_from columns) }
{
    let mut found = ColumnList::new(alloc);
    for column in columns.into_vec() {
        match named(column) {
            Some(column) => found.push(column)?,
            None => return Ok(None),
        }
    }
    Ok(Some(found))
}

/// Row ids, and the columns with a value for each of them.
#[tactic(auto, unfolding(crate::specs::Reading::cells_from))]
pub(crate) fn cells_of(
    alloc: Global,
    items: Items<'_>,
) -> Result<Option<(RowList, ColumnList)>, AllocError>
    ensures { IfOk result (λ o. o ≡ cells_from (items_view items.entry.left.now)) }
{
    let Some((rows, members)) = items.two() else {
        return Ok(None);
    };
    let Some(rows) = read_given::<u32>(alloc, false, rows)? else {
        return Ok(None);
    };
    let Some(columns) = columns_in(alloc, false, rows.len(), members)? else {
        return Ok(None);
    };
    match all_named(alloc, columns)? {
        Some(columns) => Ok(Some((RowList::from(rows), columns))),
        None => Ok(None),
    }
}

/// Row ids alone.
#[tactic(auto, unfolding(crate::specs::Reading::rows_from))]
pub(crate) fn rows_of(alloc: Global, items: Items<'_>) -> Result<Option<RowList>, AllocError>
    ensures { IfOk result (λ o. o ≡ rows_from (items_view items.entry.left.now)) }
{
    let Some(rows) = items.only() else {
        return Ok(None);
    };
    match read_given::<u32>(alloc, false, rows)? {
        Some(rows) => Ok(Some(RowList::from(rows))),
        None => Ok(None),
    }
}
