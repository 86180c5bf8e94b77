//! What the history of a core began with.
use column_store::ColumnTables;
use doc_model::UserList;

/// The users of a core, and the document that it began with. No value of it is made.
pub struct CoreStart {
    pub users: UserList,
    pub document: ColumnTables,
}
