//! What a user sees of a document, and the actions that change it.

use crate::{CellRowList, ColumnList};
use cell_types::{CellText, ColType, Name, RowList, Sequence};

/// A column as a user sees it; a formula that is hidden is nothing.
#[derive(Clone, Drop)]
pub struct ViewCol {
    pub id: Name,
    pub ty: ColType,
    pub is_formula: bool,
    pub formula: Option<CellText>,
}

/// A table as a user sees it: columns by id, row ids that ascend, and the cells of each row in the
/// order of the columns.
#[derive(Drop)]
pub struct ViewTable {
    pub id: Name,
    pub columns: ViewColList,
    pub rows: RowList,
    pub cells: CellRowList,
}

/// What a user sees of a document: tables by id.
#[derive(Drop)]
pub struct View {
    pub tables: ViewTableList,
}

/// One change of a view.
#[derive(Drop)]
pub enum ViewAction {
    AddTable {
        table: Name,
        columns: ViewColList,
    },
    RemoveTable {
        table: Name,
    },
    AddColumn {
        table: Name,
        column: ViewCol,
    },
    RemoveColumn {
        table: Name,
        column: Name,
    },
    ModifyColumn {
        table: Name,
        column: ViewCol,
    },
    BulkAdd {
        table: Name,
        rows: RowList,
        columns: ColumnList,
    },
    BulkUpdate {
        table: Name,
        rows: RowList,
        columns: ColumnList,
    },
    BulkRemove {
        table: Name,
        rows: RowList,
    },
}

/// Columns as a user sees them, in order.
pub type ViewColList = Sequence<ViewCol>;

/// Tables as a user sees them, in order.
pub type ViewTableList = Sequence<ViewTable>;

/// Changes of a view, in order.
pub type ViewActionList = Sequence<ViewAction>;
