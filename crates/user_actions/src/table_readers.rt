//! What expansions ask of a document.

ghost use Rattle.std.specs.Prelude.{◌≡◌, map, length, IfOk};
ghost use Rattle.std.specs.Option.{option_copied};
ghost use Rattle.doc_model.specs.ByIds.{find_id};
ghost use Rattle.doc_model.specs.Column.{column_id};
ghost use Rattle.doc_model.specs.DocumentLaws.{IsWhole};
ghost use Rattle.doc_readers.specs.Parts.{grid_at};
ghost use Rattle.user_actions.specs.Steps.{column_ids, last_row, table_ids};

use cell_types::Name;
use doc_model::{ColDef, DocTables};
use doc_readers::rows_in;
use std::alloc::{AllocError, Global};

/// The column that a text names.
///
/// Memory: none. Cost: linear in the columns.
pub(crate) fn column_named<'a, D: DocTables>(
    tables: &'a D,
    table: &Name,
    id: &str,
) -> Option<&'a ColDef>
    ensures { option_copied result ≡ find_id column_id id.now
        (grid_at (D.document tables.now) table.now).columns }
{
    let mut index = 0;
    while let Some(column) = tables.column(table, index) {
        if column.id.as_str() == id {
            return Some(column);
        }
        index += 1;
    }
    None
}

/// The greatest row of a table, 0 where it has none.
pub fn last_row<D: DocTables>(tables: &D, table: &Name) -> u32
    requires { IsWhole (D.document tables.now) }
    ensures { result ≡ last_row (D.document tables.now) table.now }
{
    let rows = rows_in(tables, table);
    if rows.is_empty() {
        return 0;
    }
    rows[rows.len() - 1]
}

/// The ids of all tables.
pub(crate) fn table_ids<D: DocTables>(alloc: Global, tables: &D) -> Result<Vec<Name>, AllocError>
    requires { IsWhole (D.document tables.now) }
    ensures { IfOk result (λ v. v.items ≡ table_ids (D.document tables.now)) }
{
    let mut ids = Vec::new(alloc);
    while let Some(id) = tables.table(ids.len()) {
        ids.push(id.clone()?)?;
    }
    Ok(ids)
}

/// The ids of a table's columns.
pub(crate) fn column_ids<D: DocTables>(
    alloc: Global,
    tables: &D,
    table: &Name,
) -> Result<Vec<Name>, AllocError>
    requires { IsWhole (D.document tables.now) }
    ensures { IfOk result (λ v. v.items ≡ column_ids (D.document tables.now) table.now) }
{
    let mut ids = Vec::new(alloc);
    while let Some(column) = tables.column(table, ids.len()) {
        ids.push(column.id.clone()?)?;
    }
    Ok(ids)
}
