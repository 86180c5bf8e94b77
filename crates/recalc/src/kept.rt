//! Values of formula cells as they are kept.

use cell_types::{CellValue, ColType, Name};
use formula_parse::Formula;

/// The type of a column, its formula, where its text has one, and its values, one for each row,
/// where it is known. A data column keeps its type alone.
#[derive(Drop)]
pub struct KeptColumn {
    pub id: Name,
    pub ty: ColType,
    pub is_formula: bool,
    pub tree: Option<Formula>,
    pub values: Vec<Option<CellValue>>,
}

/// The columns of a table.
#[derive(Drop)]
pub struct KeptTable {
    pub id: Name,
    pub columns: Vec<KeptColumn>,
}
