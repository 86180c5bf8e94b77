//! Columns of a view, by the ids of their table and their own.

ghost use Rattle.std.specs.Prelude.{◌≡◌, option_map};
ghost use Rattle.std.specs.Option.{option_copied};
ghost use Rattle.doc_model.specs.ByIds.{find_id};
ghost use Rattle.doc_model.specs.Changes.{shown_table_id};
ghost use Rattle.doc_model.specs.ViewEdits.{shown_id};
ghost use Rattle.formula_records.specs.ShownColumns.{shown_column};

use doc_model::{ViewCol, ViewTable};

/// The table of that id.
///
/// Memory: none. Cost: linear in the tables.
pub fn find_table<'a>(view: &'a [ViewTable], id: &str) -> Option<&'a ViewTable>
    ensures { option_copied result ≡ find_id shown_table_id id.now view.now }
{
    view.iter().find(|table| table.id.as_str() == id)
}

fn find_in<'a>(columns: &'a [ViewCol], id: &str) -> Option<&'a ViewCol>
    ensures { option_copied result ≡ find_id shown_id id.now columns.now }
{
    columns.iter().find(|column| column.id.as_str() == id)
}

/// The column of a table.
///
/// Memory: none. Cost: linear in the tables and in the columns of the table.
pub fn find_column<'a>(view: &'a [ViewTable], table: &str, column: &str) -> Option<&'a ViewCol>
    ensures { option_copied result ≡ shown_column view.now table.now column.now }
{
    match find_table(view, table) {
        Some(table) => find_in(table.columns.as_slice(), column),
        None => None,
    }
}
