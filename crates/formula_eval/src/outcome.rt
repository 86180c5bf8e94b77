//! What an attempt comes to.

use crate::NoteList;
use cell_types::{CellId, CellValue};

/// What an attempt comes to.
#[derive(Drop)]
pub enum Attempt {
    /// The value, not yet fitted to its column, and what was noted on the way to it.
    Value { value: CellValue, notes: NoteList },
    /// A cell whose value is needed first.
    Need(CellId),
}

/// What an attempt comes to whose notes a keeper took.
#[derive(Drop)]
pub enum Tried {
    /// The value, not yet fitted to its column.
    Value(CellValue),
    /// A cell whose value is needed first.
    Need(CellId),
}
