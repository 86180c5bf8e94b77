//! A law of lists of names.

ghost use Rattle.renamed_resources.specs.LengthLaw.{LengthLaw};

/// Lists of names fit a cell.
pub fn length_law()
    ensures { LengthLaw }
{}
