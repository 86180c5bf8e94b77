//! What rules ask for of the rows that attributes found.

use cell_types::{Name, Sequence};

/// `user.ATTRIBUTE.NAME`: a column of the row that an attribute found, or its `id`.
#[derive(Clone, Drop)]
pub struct UserField {
    pub attribute: Name,
    pub name: Name,
}

/// Fields, each once.
pub type UserFieldList = Sequence<UserField>;
