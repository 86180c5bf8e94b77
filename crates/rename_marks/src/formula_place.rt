//! Where a formula stands.

use cell_types::{Name, Sequence};
use doc_model::ViewTable;
use formula_records::RecordTables;

/// The table where an attribute of users finds its row.
#[derive(Drop)]
pub struct AttributeTable {
    pub name: Name,
    pub table: Name,
}

/// The tables of attributes, in the order of the rules that say them.
pub type AttributeTableList = Sequence<AttributeTable>;

/// Where a formula stands: in a column of a table, beside the columns that a view shows, or in a
/// rule about these tables, beside the attributes of users.
#[derive(Clone, Copy)]
pub enum FormulaPlace<'a> {
    Column(&'a [ViewTable], &'a Name),
    Rule(&'a RecordTables, &'a [AttributeTable]),
}
