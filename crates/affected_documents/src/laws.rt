//! Laws of affected cells.

ghost use Rattle.affected_documents.specs.AffectedSets.{KeptCellsLaw, LeastSetLaw, ListedLaw};

/// A formula cell of a whole document that a valid action does not affect keeps its value and its
/// reads.
pub fn kept_cells_law()
    ensures { KeptCellsLaw }
{}

/// The cells that an action may affect are the least closed set of formula cells of the document
/// after it.
pub fn least_set_law()
    ensures { LeastSetLaw }
{}

/// Each formula cell of a document is listed.
pub fn listed_law()
    ensures { ListedLaw }
{}
