//! Steps of a bundle, as they are lent to those who tell what they changed.

use cell_types::CellOld;
use doc_model::DocAction;

/// A step of a bundle.
#[derive(Drop)]
pub struct StepTrace<'a> {
    /// What was done.
    pub action: &'a DocAction,
    /// The cells that hold another value after it or are gone, with what they held.
    pub cells: &'a [CellOld],
}
