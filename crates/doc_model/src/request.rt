//! Requests of sessions.

use crate::UserActionList;
use cell_types::CellText;

/// What a session asks for in one line.
///
/// `Bad` is a line that spells no request, `TooLong` one of too many bytes, and `Gone` the end of a
/// connection, which no line spells.
#[derive(Debug, Drop)]
pub enum Request {
    Bad,
    TooLong,
    Open {
        token: CellText,
    },
    Apply {
        actions: UserActionList,
    },
    Undo {
        bundle: u64,
    },
    Sync,
    Fetch {
        table: CellText,
    },
    /// A column is to have another id, and all formulas and rules that name it are to follow.
    Rename {
        table: CellText,
        column: CellText,
        new: CellText,
    },
    Close,
    Gone,
}
