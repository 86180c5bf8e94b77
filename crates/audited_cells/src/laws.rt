//! What records hold after an action, as far as a view tells it.

ghost use Rattle.audited_cells.specs.CellLaws.{AddedCellsLaw, ChangedCellsLaw, TypesLaw};

/// The view tells the types of data columns that are read in every row, and what a record holds in
/// them after a change, and when it is new.
pub fn cells_laws()
    ensures types { TypesLaw }
    ensures changed { ChangedCellsLaw }
    ensures added { AddedCellsLaw }
{}
