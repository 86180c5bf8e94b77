//! Users.

use cell_types::{CellText, Sequence};

/// A user, who opens a document by the token. Access is `owners`, `editors`, `viewers` or nothing.
#[derive(Clone, Drop)]
pub struct User {
    pub token: CellText,
    pub access: Option<CellText>,
    pub email: CellText,
    pub name: CellText,
    pub id: i64,
}

/// The users of a run, in the order of their lines.
pub type UserList = Sequence<User>;
