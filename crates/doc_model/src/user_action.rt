//! User actions: what a bundle asks for, as it stands in a line.

use cell_types::{CellText, Sequence, ValueList};

/// What a user asks of a document. Texts and ids are as they were written: nothing of them is
/// checked yet. `single` says that the form for one record was used.
#[derive(Debug, Drop)]
pub enum UserAction {
    Add {
        table: CellText,
        single: bool,
        count: u32,
        has_row_ids: bool,
        columns: UserColumnList,
    },
    Update {
        table: CellText,
        single: bool,
        rows: IdList,
        columns: UserColumnList,
    },
    Remove {
        table: CellText,
        single: bool,
        rows: IdList,
    },
    AddTable {
        table: CellText,
        columns: UserColList,
    },
    RemoveTable {
        table: CellText,
    },
    RenameTable {
        table: CellText,
        new: CellText,
    },
    AddColumn {
        table: CellText,
        column: UserCol,
    },
    RemoveColumn {
        table: CellText,
        column: CellText,
    },
    RenameColumn {
        table: CellText,
        column: CellText,
        new: CellText,
    },
    ModifyColumn {
        table: CellText,
        column: UserCol,
    },
}

/// What a user says of a column; what is left out is the default, or stays.
#[derive(Debug, Drop)]
pub struct UserCol {
    pub id: CellText,
    pub ty: Option<CellText>,
    pub is_formula: Option<bool>,
    pub formula: Option<CellText>,
}

/// Values for one column, one for each record of the action.
#[derive(Debug, Drop)]
pub struct UserColumn {
    pub id: CellText,
    pub values: ValueList,
}

/// Row ids as they were written.
pub type IdList = Sequence<i64>;

/// The user actions of a bundle, in order.
pub type UserActionList = Sequence<UserAction>;

/// Descriptions of columns, in order.
pub type UserColList = Sequence<UserCol>;

/// The columns of a record action, by id.
pub type UserColumnList = Sequence<UserColumn>;
