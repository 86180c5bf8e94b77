//! What a core is asked and answers as a machine that threads step in turn.

use crate::history_core::LineList;
use cell_types::Name;
use column_store::ColumnTables;
use doc_model::{Request, UserList};

/// A request of a session, with the byte count of its line.
#[derive(Drop)]
pub struct Event {
    pub session: Name,
    pub request: Request,
    pub size: u32,
}

/// What is answered to an event.
#[derive(Drop)]
pub enum Given {
    /// The lines that the session is given, in this order, and whether it was open before and is so
    /// no more.
    Lines { lines: LineList, closes: bool },
    /// The history has no room for the request.
    Full,
}

/// What a core began from: its users, its document, and the records of its keeper, where they are
/// told, and how often that had failed. It stands in contracts and proofs alone: nothing is made.
pub struct CoreOpening {
    pub users: UserList,
    pub document: ColumnTables,
    pub records: Option<LineList>,
    pub faults: u64,
}
