//! What values under a new name of a column rest on.

ghost use Rattle.renamed_values.specs.PlainNames.{PlainNamesLaw};
ghost use Rattle.renamed_values.specs.RecordsLaw.{RecordsLaw};
ghost use Rattle.renamed_values.specs.Resolved.{ResolvedLaw};
ghost use Rattle.renamed_values.specs.SameEv.{SameEvLaw};
ghost use Rattle.renamed_values.specs.SameSheet.{SameSheetLaw, SameValueLaw};
ghost use Rattle.renamed_values.specs.TypedSheet.{TypedLaw};

/// No formula names a metadata table, as names begin with letters.
pub fn plain_names_law()
    ensures { PlainNamesLaw }
{}

/// A value that a formula gives holds only records of the tables that its tree says.
pub fn records_law()
    ensures { RecordsLaw }
{}

/// What formulas see of a sheet holds no other records than the columns may.
pub fn typed_law()
    ensures { TypedLaw }
{}

/// A formula with a column's name replaced where it has to be comes to the same over a reader that
/// has the column under its new name.
pub fn same_ev_law()
    ensures { SameEvLaw }
{}

/// In a formula in which each use of a name can be resolved, each is replaced as it has to be.
pub fn resolved_law()
    ensures { ResolvedLaw }
{}

/// Where a column gets a new name and formulas follow, each cell keeps its value.
pub fn same_sheet_law()
    ensures fuel { SameSheetLaw }
    ensures value { SameValueLaw }
{}
