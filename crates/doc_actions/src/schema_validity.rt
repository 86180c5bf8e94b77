//! Where the actions on tables and columns are valid.

ghost use Rattle.std.specs.Prelude.{◌≡◌};
ghost use Rattle.std.specs.List.{list_all};
ghost use Rattle.cell_types.specs.NameRule.{is_name};
ghost use Rattle.doc_readers.specs.Parts.{grid_at};
ghost use Rattle.doc_actions.specs.Parts.{takes_column, takes_info, takes_name};
ghost use Rattle.doc_model.specs.declared.action.DocAction.TheVariants.{AddColumn, AddTable, ModifyColumn, RemoveColumn, RemoveTable, RenameColumn, RenameTable};
ghost use Rattle.doc_model.specs.ByIds.{are_distinct, has_id};
ghost use Rattle.doc_model.specs.Column.{column_id, is_sound_info};
ghost use Rattle.doc_model.specs.DocumentLaws.{IsWhole};
ghost use Rattle.doc_model.specs.Valid.{is_new_column, is_new_table, valid};

use crate::base_values::is_sound_info;
use crate::schema_rows::{have_free_rows, is_free_column_row, is_free_table_row};
use crate::table_readers::{is_all_null, is_schema_table};
use cell_types::Name;
use doc_model::{ColDef, ColInfo, DocTables};
use doc_readers::{has_column, has_table};
use name_rules::is_name;

fn is_new_table<D: DocTables>(tables: &D, table: &Name) -> bool
    ensures { result ≡ is_new_table (D.document tables.now) table.now }
{
    !has_table(tables, table) && is_name(table.as_str())
}

fn is_new_column<D: DocTables>(tables: &D, table: &Name, column: &Name) -> bool
    requires { IsWhole (D.document tables.now) }
    ensures { result ≡ is_new_column (grid_at (D.document tables.now) table.now) column.now }
{
    !has_column(tables, table, column) && is_name(column.as_str())
}

fn has_id(columns: &[ColDef], id: &Name) -> bool
    ensures { result ≡ has_id column_id columns.now id.now }
{
    columns
        .iter()
        .any(|column| column.id.as_str() == id.as_str())
}

// Whether no two columns have one id.
fn are_apart(columns: &[ColDef]) -> bool
    ensures { result ≡ are_distinct column_id columns.now }
{
    for (index, column) in columns.iter().enumerate() {
        if has_id(&columns[index + 1..], &column.id) {
            return false;
        }
    }
    true
}

fn have_names(columns: &[ColDef]) -> bool
    ensures { result ≡ list_all (λ d. is_name d.id) columns.now }
{
    columns.iter().all(|column| is_name(column.id.as_str()))
}

fn have_sound_infos(columns: &[ColDef]) -> bool
    ensures { result ≡ list_all (λ d. is_sound_info d.info) columns.now }
{
    columns.iter().all(|column| is_sound_info(&column.info))
}

/// Whether a table may be added.
pub(crate) fn may_add_table<D: DocTables>(
    tables: &D,
    table: &Name,
    row: u32,
    columns: &[ColDef],
) -> bool
    requires { IsWhole (D.document tables.now) }
    ensures { result ≡ valid (D.document tables.now) (AddTable table.now row columns.now) }
{
    is_new_table(tables, table)
        && is_free_table_row(tables, row)
        && are_apart(columns)
        && have_names(columns)
        && have_free_rows(tables, columns)
        && have_sound_infos(columns)
}

/// Whether the table may be removed.
pub(crate) fn may_remove_table<D: DocTables>(tables: &D, table: &Name) -> bool
    ensures { result ≡ valid (D.document tables.now) (RemoveTable table.now) }
{
    is_schema_table(tables, table)
}

/// Whether the table may have a new id.
pub(crate) fn may_rename_table<D: DocTables>(tables: &D, table: &Name, new: &Name) -> bool
    ensures { result ≡ valid (D.document tables.now) (RenameTable table.now new.now) }
{
    is_schema_table(tables, table) && is_new_table(tables, new)
}

// Whether the table takes the column as a new one.
fn takes_column<D: DocTables>(tables: &D, table: &Name, column: &ColDef) -> bool
    requires { IsWhole (D.document tables.now) }
    ensures { let s = D.document tables.now in
        result ≡ takes_column s column.now (grid_at s table.now) }
{
    is_new_column(tables, table, &column.id)
        && is_free_column_row(tables, column.row)
        && is_sound_info(&column.info)
}

/// Whether a column may be added.
pub(crate) fn may_add_column<D: DocTables>(tables: &D, table: &Name, column: &ColDef) -> bool
    requires { IsWhole (D.document tables.now) }
    ensures { result ≡ valid (D.document tables.now) (AddColumn table.now column.now) }
{
    is_schema_table(tables, table) && takes_column(tables, table, column)
}

/// Whether the column may be removed.
pub(crate) fn may_remove_column<D: DocTables>(tables: &D, table: &Name, column: &Name) -> bool
    requires { IsWhole (D.document tables.now) }
    ensures { result ≡ valid (D.document tables.now) (RemoveColumn table.now column.now) }
{
    is_schema_table(tables, table) && has_column(tables, table, column)
}

// Whether the table has the column, and takes the new id.
fn takes_name<D: DocTables>(tables: &D, table: &Name, column: &Name, new: &Name) -> bool
    requires { IsWhole (D.document tables.now) }
    ensures { result ≡ takes_name column.now new.now (grid_at (D.document tables.now) table.now) }
{
    has_column(tables, table, column) && is_new_column(tables, table, new)
}

/// Whether the column may have a new id.
pub(crate) fn may_rename_column<D: DocTables>(
    tables: &D,
    table: &Name,
    column: &Name,
    new: &Name,
) -> bool
    requires { IsWhole (D.document tables.now) }
    ensures { result ≡ valid (D.document tables.now) (RenameColumn table.now column.now new.now) }
{
    is_schema_table(tables, table) && takes_name(tables, table, column, new)
}

// Whether the column may be that: one with a formula has no values of its own.
fn takes_info<D: DocTables>(tables: &D, table: &Name, column: &Name, info: &ColInfo) -> bool
    requires { IsWhole (D.document tables.now) }
    ensures { result ≡ takes_info column.now info.now (grid_at (D.document tables.now) table.now) }
{
    has_column(tables, table, column)
        && is_sound_info(info)
        && (!info.is_formula || is_all_null(tables, table, column))
}

/// Whether the column may be changed.
pub(crate) fn may_modify_column<D: DocTables>(
    tables: &D,
    table: &Name,
    column: &Name,
    info: &ColInfo,
) -> bool
    requires { IsWhole (D.document tables.now) }
    ensures { result ≡ valid (D.document tables.now) (ModifyColumn table.now column.now info.now) }
{
    is_schema_table(tables, table) && takes_info(tables, table, column, info)
}
