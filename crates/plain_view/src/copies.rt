//! Copies of names, columns and rows.

ghost use Rattle.std.specs.Prelude.{◌≡◌, IfOk};

use cell_types::{Name, RowList};
use doc_model::{ViewCol, ViewColList, ViewTable};
use std::alloc::AllocError;

/// A copy of a name.
pub fn name_copy(name: &Name) -> Result<Name, AllocError>
    ensures { IfOk result (λ n. n ≡ name.now) }
{
    name.clone()
}

/// A copy of a column.
pub fn column_copy(column: &ViewCol) -> Result<ViewCol, AllocError>
    ensures { IfOk result (λ d. d ≡ column.now) }
{
    column.clone()
}

/// A copy of columns.
pub fn columns_copy(columns: &ViewColList) -> Result<ViewColList, AllocError>
    ensures { IfOk result (λ l. l ≡ columns.now) }
{
    columns.clone()
}

/// A copy of rows.
pub fn rows_copy(rows: &RowList) -> Result<RowList, AllocError>
    ensures { IfOk result (λ l. l ≡ rows.now) }
{
    rows.clone()
}

/// Copies of a table's id and columns.
pub fn head_copy(table: &ViewTable) -> Result<(Name, ViewColList), AllocError>
    ensures { IfOk result (λ h. h ≡ (table.now.id, table.now.columns)) }
{
    let id = name_copy(&table.id)?;
    Ok((id, columns_copy(&table.columns)?))
}
