//! Columns of a document.

use cell_types::{CellText, ColType, Name, Sequence, ValueList};

/// What a column is: its type, and its formula where it has one. A data column's formula is empty.
#[derive(Clone, Debug, Drop)]
pub struct ColInfo {
    pub ty: ColType,
    pub is_formula: bool,
    pub formula: CellText,
}

/// A column with its id and the row of `_grist_Tables_column` that describes it; the columns of the
/// metadata tables, which nothing describes, have row 0.
#[derive(Clone, Drop)]
pub struct ColDef {
    pub id: Name,
    pub info: ColInfo,
    pub row: u32,
}

/// Values for one column of a record action, in the order of the action's row ids.
#[derive(Clone, Debug, Drop)]
pub struct CellColumn {
    pub id: Name,
    pub values: ValueList,
}

/// Columns with their ids and metadata rows, in order.
pub type ColDefList = Sequence<ColDef>;

/// The columns of a record action, by id.
pub type ColumnList = Sequence<CellColumn>;

/// The cells of rows, a list for each row.
pub type CellRowList = Sequence<ValueList>;
