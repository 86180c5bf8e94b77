//! Document actions: the steps in which a document changes.

use crate::{ColDef, ColDefList, ColInfo, ColumnList};
use cell_types::{Name, RowList, Sequence};

/// One change of a document. Rows are row ids; schema actions carry their metadata rows.
#[derive(Clone, Drop)]
pub enum DocAction {
    BulkAdd {
        table: Name,
        rows: RowList,
        columns: ColumnList,
    },
    BulkUpdate {
        table: Name,
        rows: RowList,
        columns: ColumnList,
    },
    BulkRemove {
        table: Name,
        rows: RowList,
    },
    AddTable {
        table: Name,
        row: u32,
        columns: ColDefList,
    },
    RemoveTable {
        table: Name,
    },
    RenameTable {
        table: Name,
        new: Name,
    },
    AddColumn {
        table: Name,
        column: ColDef,
    },
    RemoveColumn {
        table: Name,
        column: Name,
    },
    RenameColumn {
        table: Name,
        column: Name,
        new: Name,
    },
    ModifyColumn {
        table: Name,
        column: Name,
        info: ColInfo,
    },
}

/// A document action of a bundle. A direct one is checked against the rules, an indirect one
/// follows from it and is not.
#[derive(Clone, Drop)]
pub struct Step {
    pub action: DocAction,
    pub direct: bool,
}

/// Document actions in order.
pub type DocActionList = Sequence<DocAction>;

/// Steps in order.
pub type StepList = Sequence<Step>;
