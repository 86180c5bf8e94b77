//! What the rename of a column makes of a use of a name.

ghost use Rattle.std.specs.Prelude.{◌≡◌, bytes_eq};
ghost use Rattle.std.specs.List.{list_all};
ghost use Rattle.rename_marks.specs.Uses.{has_only, has_table, is_exactly, is_open, is_replaced, is_unresolved, use_of};

use crate::column_rename::ColumnRename;
use cell_types::Name;
use formula_records::RecordTables;

fn has_table(table: &str, tables: &[Name]) -> bool
    ensures { result ≡ has_table table.now tables.now }
{
    tables.iter().any(|other| other.as_str() == table)
}

fn are_all(table: &str, tables: &[Name]) -> bool
    ensures { result ≡ list_all (λ u. bytes_eq u table.now) tables.now }
{
    tables.iter().all(|other| other.as_str() == table)
}

fn has_only(table: &str, tables: &[Name]) -> bool
    ensures { result ≡ has_only table.now tables.now }
{
    has_table(table, tables) && are_all(table, tables)
}

fn is_exactly(rename: &ColumnRename, tables: &RecordTables) -> bool
    ensures { result ≡ is_exactly rename.now tables.now }
{
    match tables {
        RecordTables::Any => false,
        RecordTables::These(names) => has_only(rename.table.as_str(), names.as_slice()),
    }
}

fn is_open(rename: &ColumnRename, tables: &RecordTables, is_old: bool, is_new: bool) -> bool
    ensures { result ≡ is_open rename.now tables.now is_old is_new }
{
    match tables {
        RecordTables::Any => is_old || is_new,
        RecordTables::These(names) => {
            let table = rename.table.as_str();
            has_table(table, names.as_slice())
                && (is_new || is_old && !has_only(table, names.as_slice()))
        }
    }
}

/// Whether the use of a name on records of these tables cannot be resolved.
pub fn is_unresolved(rename: &ColumnRename, tables: &RecordTables, name: &Name) -> bool
    ensures { result ≡ is_unresolved rename.now (use_of tables.now name.now) }
{
    let is_old = name.as_str() == rename.old.as_str();
    let is_new = name.as_str() == rename.new.as_str();
    is_open(rename, tables, is_old, is_new)
}

/// Whether the rename replaces the name on records of these tables.
pub fn is_replaced(rename: &ColumnRename, tables: &RecordTables, name: &Name) -> bool
    ensures { result ≡ is_replaced rename.now (use_of tables.now name.now) }
{
    name.as_str() == rename.old.as_str() && is_exactly(rename, tables)
}
