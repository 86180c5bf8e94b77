//! Laws of values that are kept over an action.

ghost use Rattle.affected_values.specs.Altered.{AlteredLaw};
ghost use Rattle.affected_values.specs.Indexing.{LeftBackLaw, LeftOverLaw};
ghost use Rattle.affected_values.specs.RowsOver.{LeadsOverRowsLaw, RightLaidLaw, RowsBackLaw, RowsLeftLaw};
ghost use Rattle.affected_values.specs.SamePlaces.{LeftRightLaw, SamePlacesLaw};
ghost use Rattle.affected_values.specs.WaysBack.{LeadsOverLaw, WayBackLaw};

/// An update leaves the places of values.
pub fn same_places_law()
    ensures { SamePlacesLaw }
{}

/// Over an update the values of all formula cells but the found ones are right still.
pub fn left_right_law()
    ensures { LeftRightLaw }
{}

/// What leads back from the values that are kept leads back over an update.
pub fn leads_over_law()
    ensures { LeadsOverLaw }
{}

/// Put back among the values after an update, what leads back over it makes them those before it.
pub fn way_back_law()
    ensures { WayBackLaw }
{}

/// Over rows that come or go the values that were laid anew are known and right, but of the found
/// cells and those of the rows.
pub fn right_laid_law()
    ensures { RightLaidLaw }
{}

/// What leads back to the values that were laid anew leads back over the rows.
pub fn leads_over_rows_law()
    ensures { LeadsOverRowsLaw }
{}

/// What was taken put back, and the table laid back, the values are those before the rows.
pub fn rows_back_law()
    ensures { RowsBackLaw }
{}

/// So they are where the values that were laid anew are as they were.
pub fn rows_left_law()
    ensures { RowsLeftLaw }
{}

/// A formula cell that an action on no records does not alter has the formula that it had; one that
/// it alters is new, or its column is modified.
pub fn altered_law()
    ensures { AlteredLaw }
{}

/// What is left of indexes before an action on records is left after it.
pub fn left_over_law()
    ensures { LeftOverLaw }
{}

/// What is left of indexes after an action on records, for its rows to go, is left so before it.
pub fn left_back_law()
    ensures { LeftBackLaw }
{}
