//! Tables and columns of a view by their ids.

ghost use Rattle.std.specs.Prelude.{◌≡◌, find};
ghost use Rattle.std.specs.Option.{option_copied};
ghost use Rattle.doc_model.specs.ByIds.{find_id, has_id};
ghost use Rattle.doc_model.specs.Changes.{shown_table_id};
ghost use Rattle.doc_model.specs.ViewEdits.{shown_id};

use doc_model::{ViewCol, ViewTable};

/// The table of that id.
///
/// Cost: linear in the tables.
pub(crate) fn find_table<'a>(tables: &'a [ViewTable], id: &str) -> Option<&'a ViewTable>
    ensures { option_copied result ≡ find_id shown_table_id id.now tables.now }
{
    tables.iter().find(|table| table.id.as_str() == id)
}

/// The column of that id.
///
/// Cost: linear in the columns.
pub(crate) fn find_column<'a>(columns: &'a [ViewCol], id: &str) -> Option<&'a ViewCol>
    ensures { option_copied result ≡ find_id shown_id id.now columns.now }
{
    columns.iter().find(|column| column.id.as_str() == id)
}

/// Whether there is a column of that id.
///
/// Cost: linear in the columns.
pub(crate) fn has_column(columns: &[ViewCol], id: &str) -> bool
    ensures { result ≡ has_id shown_id columns.now id.now }
{
    columns.iter().any(|column| column.id.as_str() == id)
}
