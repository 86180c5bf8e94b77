//! What a document tells of one table.

ghost use Rattle.std.specs.Prelude.{◌≡◌, IfOk};
ghost use Rattle.std.specs.Option.{option_map};
ghost use Rattle.doc_readers.specs.Parts.{grid_at};
ghost use Rattle.doc_model.specs.ByIds.{find_id};
ghost use Rattle.doc_model.specs.Column.{column_id};

use cell_types::Name;
use doc_model::{ColDef, DocTables};
use std::alloc::{AllocError, Global};

/// The columns of a table, none where it is not there.
pub(crate) fn columns_of<D: DocTables>(
    alloc: Global,
    tables: &D,
    table: &Name,
) -> Result<Vec<ColDef>, AllocError>
    ensures { IfOk result (λ v. v.items ≡ (grid_at (D.document tables.now) table.now).columns) }
{
    let mut columns = Vec::new(alloc);
    while let Some(column) = tables.column(table, columns.len()) {
        columns.push(column.clone()?)?;
    }
    Ok(columns)
}

/// The column of this id.
pub(crate) fn find_column<'a>(columns: &'a [ColDef], id: &Name) -> Option<&'a ColDef>
    ensures { option_map (λ d. d.now) result ≡ find_id column_id id.now columns.now }
{
    columns
        .iter()
        .find(|column| column.id.as_str() == id.as_str())
}
