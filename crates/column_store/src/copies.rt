//! Copies, whose contracts say in one equation what a copy is.

ghost use Rattle.std.specs.Prelude.{◌≡◌, IfOk};

use cell_types::Name;
use doc_model::ColDef;
use std::alloc::AllocError;

/// A copy of a name.
pub(crate) fn copy_of_name(name: &Name) -> Result<Name, AllocError>
    ensures { IfOk result (λ n. n ≡ name.now) }
{
    name.clone()
}

/// A copy of a column.
pub(crate) fn copy_of_column(column: &ColDef) -> Result<ColDef, AllocError>
    ensures { IfOk result (λ d. d ≡ column.now) }
{
    column.clone()
}
