//! Laws of a graph beside the values, over changes of the document.

ghost use Rattle.known_reads.specs.Beside.{LaidLaw, ReadsSameLaw};
ghost use Rattle.known_reads.specs.Moved.{ReadsOverLaw, RowsStayLaw};

/// Over an update each formula cell but the found ones reads the same.
pub fn reads_same_law()
    ensures { ReadsSameLaw }
{}

/// Over rows that come or go each formula cell but the found ones and those of the rows was there,
/// and reads the same.
pub fn reads_over_law()
    ensures { ReadsOverLaw }
{}

/// Over rows that come or go each cell but those of the rows has the formula that it had.
pub fn rows_stay_law()
    ensures { RowsStayLaw }
{}

/// Where notes lead from what cells read to what they read in another document, it is known what
/// they read there, once the notes are laid aside.
pub fn laid_law()
    ensures { LaidLaw }
{}
