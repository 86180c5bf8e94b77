//! Copies, whose contracts say in one equation what a copy is.

ghost use Rattle.std.specs.Prelude.{◌≡◌, IfOk};

use cell_types::{Name, ValueList, copy_of};
use doc_model::ColDef;
use list_ops::all_copied;
use std::alloc::{AllocError, Global};

/// A copy of a name.
pub(crate) fn copy_of_name(name: &Name) -> Result<Name, AllocError>
    ensures { IfOk result (λ n. n ≡ name.now) }
{
    name.clone()
}

/// A copy of a column.
pub(crate) fn copy_of_column(column: &ColDef) -> Result<ColDef, AllocError>
    ensures { IfOk result (λ d. d ≡ column.now) }
{
    column.clone()
}

// Copies of the cells of a row.
fn copy_of_values(alloc: Global, values: &ValueList) -> Result<ValueList, AllocError>
    ensures { IfOk result (λ l. l ≡ values.now) }
{
    let copies = all_copied(alloc, values.as_slice(), |value| copy_of(value))?;
    Ok(ValueList::from(copies))
}

/// Copies of the cells of rows.
pub(crate) fn copy_of_cells(
    alloc: Global,
    cells: &[ValueList],
) -> Result<Vec<ValueList>, AllocError>
    ensures { IfOk result (λ v. v.items ≡ cells.now) }
{
    all_copied(alloc, cells, |values| copy_of_values(alloc, values))
}
