//! Cells by name, and what evaluation and its indexes say of them.

use crate::{CellValue, Name, Sequence};

/// A cell: a column of a table in one row. None of the three need be there.
#[derive(Drop)]
pub struct CellId {
    pub table: Name,
    pub column: Name,
    pub row: u32,
}

/// A cell and the value that it had.
#[derive(Drop)]
pub struct CellOld {
    pub cell: CellId,
    pub old: CellValue,
}

/// One key of a lookup. With `contains` it is met by lists and sets that hold the value, else by
/// cells that agree with it.
#[derive(Drop)]
pub struct KeyItem {
    pub column: Name,
    pub value: CellValue,
    pub contains: bool,
}

/// What a formula read: a cell, every cell of a key column, or which rows a table has.
#[derive(Drop)]
pub enum Read {
    Cell(CellId),
    Key { table: Name, column: Name },
    Rows { table: Name },
}

/// Cells in order.
pub type CellIdList = Sequence<CellId>;

/// Cells with the values that they had, in order.
pub type CellOldList = Sequence<CellOld>;

/// The keys of one lookup, in order.
pub type KeyList = Sequence<KeyItem>;

/// Reads in the order in which a formula made them; one may stand more than once.
pub type ReadList = Sequence<Read>;
