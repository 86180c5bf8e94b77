//! Laws of what actions touch.

ghost use Rattle.affected_cells.specs.Laws.{AddColumnLaw, AddTableLaw, ModifyColumnLaw, RemoveColumnLaw, RemoveTableLaw, RenameColumnLaw, RenameTableLaw, RowsLaw, UpdateLaw};

/// A valid update touches what is said of it, and no more.
pub fn update_law()
    ensures { UpdateLaw }
{}

/// Rows that are added and removed touch what is said of them, and no more.
pub fn rows_law()
    ensures { RowsLaw }
{}

/// A table that is added touches what is said of it, and no more.
pub fn add_table_law()
    ensures { AddTableLaw }
{}

/// A table that is removed touches what is said of it, and no more.
pub fn remove_table_law()
    ensures { RemoveTableLaw }
{}

/// A table that is renamed touches what is said of it, and no more.
pub fn rename_table_law()
    ensures { RenameTableLaw }
{}

/// A column that is added touches what is said of it, and no more.
pub fn add_column_law()
    ensures { AddColumnLaw }
{}

/// A column that is removed touches what is said of it, and no more.
pub fn remove_column_law()
    ensures { RemoveColumnLaw }
{}

/// A column that is renamed touches what is said of it, and no more.
pub fn rename_column_law()
    ensures { RenameColumnLaw }
{}

/// A column that is modified touches what is said of it, and no more.
pub fn modify_column_law()
    ensures { ModifyColumnLaw }
{}
