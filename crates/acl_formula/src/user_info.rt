//! What rules know of a user, and how they read a row.

ghost use Rattle.std.specs.Prelude.{◌≡◌, None, Some, MatchOption};

use cell_types::{CellValue, Name, Sequence};
use doc_model::User;

/// A column with a value.
#[derive(Clone, Drop)]
pub struct NamedCell {
    pub column: Name,
    pub value: CellValue,
}

/// Columns with their values.
pub type NamedCellList = Sequence<NamedCell>;

/// A row that is kept with its evaluated cells, as that which an attribute found. It reads as the
/// row that it was.
#[derive(Clone, Drop)]
pub struct AttributeRow {
    pub row: u32,
    pub cells: NamedCellList,
}

/// An attribute of a user: what `user.NAME` asks for, and the row that was found for the user.
#[derive(Clone, Drop)]
pub struct Attribute {
    pub name: Name,
    pub row: Option<AttributeRow>,
}

/// Attributes in order. Of two with one name the first is asked.
pub type AttributeList = Sequence<Attribute>;

/// A user with its attributes.
#[derive(Clone, Drop)]
pub struct UserInfo {
    pub user: User,
    pub attributes: AttributeList,
}

/// A row, however it is kept: its id, and its evaluated cells.
pub trait RowReader {
    ghost use Rattle.acl_formula.specs.RuleRow.{RuleRow};

    /// The row.
    ghost told: { Self → RuleRow };

    /// The row's id.
    ///
    /// Memory: none.
    fn id(&self) -> u32
        ensures { result ≡ (told self.now).id };

    /// The cell of a column, where the row's table has that column.
    ///
    /// Memory: none.
    fn cell(&self, column: &Name) -> Option<&CellValue>
        ensures { MatchOption result
            ((told self.now).cell column.now ≡ None)
            (λ value. (told self.now).cell column.now ≡ Some value.now) };
}
