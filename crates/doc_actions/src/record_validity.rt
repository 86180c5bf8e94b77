//! Where the actions on records are valid.

ghost use Rattle.std.specs.Prelude.{◌≡◌};
ghost use Rattle.doc_readers.specs.Parts.{grid_at};
ghost use Rattle.doc_actions.specs.Parts.{has_records, has_rows, takes_records};
ghost use Rattle.doc_model.specs.declared.action.DocAction.TheVariants.{BulkAdd, BulkRemove, BulkUpdate};
ghost use Rattle.doc_model.specs.DocumentLaws.{IsWhole};
ghost use Rattle.doc_model.specs.Valid.{valid};

use crate::given_columns::gives_data;
use crate::row_ids::{all_there, are_from_one, are_once, none_there};
use crate::table_readers::is_record_table;
use cell_types::Name;
use doc_model::{CellColumn, DocTables};
use doc_readers::rows_in;
use std::alloc::Global;

// Whether the table takes new records of these rows and values.
fn takes_records<D: DocTables>(
    alloc: Global,
    tables: &D,
    table: &Name,
    rows: &[u32],
    columns: &[CellColumn],
) -> bool
    requires { IsWhole (D.document tables.now) }
    ensures { result
        ≡ takes_records rows.now columns.now (grid_at (D.document tables.now) table.now) }
{
    are_once(alloc, rows)
        && are_from_one(rows)
        && none_there(rows, rows_in(tables, table))
        && gives_data(tables, table, rows, columns)
}

// Whether the table has the records, and takes the values.
fn has_records<D: DocTables>(
    alloc: Global,
    tables: &D,
    table: &Name,
    rows: &[u32],
    columns: &[CellColumn],
) -> bool
    requires { IsWhole (D.document tables.now) }
    ensures { result
        ≡ has_records rows.now columns.now (grid_at (D.document tables.now) table.now) }
{
    are_once(alloc, rows)
        && are_from_one(rows)
        && all_there(rows, rows_in(tables, table))
        && gives_data(tables, table, rows, columns)
}

// Whether the table has the rows, each of which is named once.
fn has_rows<D: DocTables>(alloc: Global, tables: &D, table: &Name, rows: &[u32]) -> bool
    requires { IsWhole (D.document tables.now) }
    ensures { result ≡ has_rows rows.now (grid_at (D.document tables.now) table.now) }
{
    are_once(alloc, rows) && all_there(rows, rows_in(tables, table))
}

/// Whether records may be added.
pub(crate) fn may_add<D: DocTables>(
    alloc: Global,
    tables: &D,
    table: &Name,
    rows: &[u32],
    columns: &[CellColumn],
) -> bool
    requires { IsWhole (D.document tables.now) }
    ensures { result ≡ valid (D.document tables.now) (BulkAdd table.now rows.now columns.now) }
{
    is_record_table(tables, table) && takes_records(alloc, tables, table, rows, columns)
}

/// Whether records may be updated.
pub(crate) fn may_update<D: DocTables>(
    alloc: Global,
    tables: &D,
    table: &Name,
    rows: &[u32],
    columns: &[CellColumn],
) -> bool
    requires { IsWhole (D.document tables.now) }
    ensures { result ≡ valid (D.document tables.now) (BulkUpdate table.now rows.now columns.now) }
{
    is_record_table(tables, table) && has_records(alloc, tables, table, rows, columns)
}

/// Whether records may be removed.
pub(crate) fn may_remove<D: DocTables>(
    alloc: Global,
    tables: &D,
    table: &Name,
    rows: &[u32],
) -> bool
    requires { IsWhole (D.document tables.now) }
    ensures { result ≡ valid (D.document tables.now) (BulkRemove table.now rows.now) }
{
    is_record_table(tables, table) && has_rows(alloc, tables, table, rows)
}
