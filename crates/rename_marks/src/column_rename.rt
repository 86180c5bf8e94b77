//! The rename of a column.

use cell_types::CellText;

/// A column of a table that gets a new name. The new name may be any text.
#[derive(Drop)]
pub struct ColumnRename {
    pub table: CellText,
    pub old: CellText,
    pub new: CellText,
}
