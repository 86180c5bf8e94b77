//! Laws of the definitions, each proved as the contract of a function that does nothing.

ghost use Rattle.doc_model.specs.CountLaws.{CountsLaw};
ghost use Rattle.doc_model.specs.DocumentLaws.{InverseAllLaw, InverseLaw, KeptLaw, NewDocumentLaw};
ghost use Rattle.doc_model.specs.MaximaLaws.{MaximaLaw};
ghost use Rattle.doc_model.specs.Touched.{UntouchedLaw};
ghost use Rattle.doc_model.specs.ViewLaws.{ChangesFitLaw, NoChangesLaw, PatchLaw};

/// The new document is sound and agrees with its schema.
pub fn new_document_law()
    ensures { NewDocumentLaw }
{}

/// A valid action leaves a sound document sound and in agreement with its schema.
pub fn kept_law()
    ensures { KeptLaw }
{}

/// The inverse of a valid action gives back the document before it, exactly; each action of the
/// inverse is valid at its place.
pub fn inverse_law()
    ensures { InverseLaw }
{}

/// The inverse of valid actions gives back the document before them.
pub fn inverse_all_law()
    ensures { InverseAllLaw }
{}

/// The counted sums after a valid action and what it took away are the sums before it and what it
/// brought.
pub fn counts_law()
    ensures { CountsLaw }
{}

/// The most columns, the most rows and the greatest row id of a table after a valid action are the
/// greatest among what the document before it and the action tell of each table.
pub fn maxima_law()
    ensures { MaximaLaw }
{}

/// Patching a view with the changes to another view gives the other.
pub fn patch_law()
    ensures { PatchLaw }
{}

/// The list of changes is empty exactly where the two views are equal.
pub fn no_changes_law()
    ensures { NoChangesLaw }
{}

/// Each of the changes that lead from a view to another fits where it stands.
pub fn changes_fit_law()
    ensures { ChangesFitLaw }
{}

/// A valid action leaves each row that it does not touch.
pub fn untouched_law()
    ensures { UntouchedLaw }
{}
