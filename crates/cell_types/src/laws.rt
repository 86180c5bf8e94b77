//! Laws of the definitions, each proved as the contract of a function that does nothing.

ghost use Rattle.cell_types.specs.ColumnRange.{FitIsInRange};
ghost use Rattle.cell_types.specs.ConversionLaws.{DecimalReadsBack, DefaultFits, NoErrorIsMade, TwiceIsOnce};

/// Converting twice is converting once, but for a set of rows with row 0 that is converted to a
/// list of references to its table.
pub fn twice_is_once_law()
    ensures { TwiceIsOnce }
{}

/// The default of a type is a value of the type.
pub fn default_fits_law()
    ensures { DefaultFits }
{}

/// What conversion gives is of a kind that a column of the type may hold.
pub fn range_law()
    ensures { FitIsInRange }
{}

/// Conversion makes no error of a value that is none.
pub fn no_error_law()
    ensures { NoErrorIsMade }
{}

/// The text of a whole number says that number.
pub fn decimal_reads_back_law()
    ensures { DecimalReadsBack }
{}
