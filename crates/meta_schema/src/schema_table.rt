//! Tables as the schema tables tell them.

use cell_types::{Name, Sequence};
use doc_model::ColDefList;

/// A table with its id, the row of `_grist_Tables` that describes it, and its columns in the order
/// of the rows that describe them.
#[derive(Drop)]
pub struct SchemaTable {
    pub id: Name,
    pub row: u32,
    pub columns: ColDefList,
}

/// What the schema tables say: tables in the order of their rows.
pub type Schema = Sequence<SchemaTable>;
