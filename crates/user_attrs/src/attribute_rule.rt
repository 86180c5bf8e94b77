//! What a rule says of an attribute.

use cell_types::{Name, Sequence};

/// What is looked up of a user.
#[derive(Clone, Copy, Debug, PartialEq, Eq)]
pub enum UserProperty {
    Email,
    Name,
    UserId,
}

/// An attribute of each user: `user.NAME` is the least row of the table whose cell in the column
/// equals the property of the user.
#[derive(Clone, Drop)]
pub struct AttributeRule {
    pub name: Name,
    pub table: Name,
    pub column: Name,
    pub property: UserProperty,
}

/// Attributes in the order of the rules that say them.
pub type AttributeRules = Sequence<AttributeRule>;
