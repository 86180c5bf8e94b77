//! What becomes of the values of a shot's formula cells.

use cell_types::{CellId, CellValue};

/// Formula cells that hold something else, with the values that they hold, one beside the other,
/// and cells that are there no more. Where all is made anew, what the others held is forgotten.
#[derive(Drop)]
pub struct CellChanges {
    pub anew: bool,
    pub cells: Vec<CellId>,
    pub values: Vec<CellValue>,
    pub gone: Vec<CellId>,
}
