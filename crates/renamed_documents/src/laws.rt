//! What documents with a column under a new name rest on.

ghost use Rattle.renamed_documents.specs.Laws.{RenamedFillingLaw, RenamedSheetLaw, RenamedValueLaw};
ghost use Rattle.renamed_documents.specs.RenamingSteps.{RenamingStepsLaw};
ghost use Rattle.renamed_documents.specs.Typed.{TypedDocumentLaw};

use renamed_values::same_sheet_law;

/// What formulas see of a whole document holds no other records than its columns may.
pub fn typed_document_law()
    ensures { TypedDocumentLaw }
{}

/// A rename and actions that give columns other formulas make such documents.
pub fn renaming_steps_law()
    ensures { RenamingStepsLaw }
{}

/// What formulas see of two such documents has the column under its new name.
pub fn renamed_sheet_law()
    ensures { RenamedSheetLaw }
{}

/// Each formula cell has its value under the new name of its column.
pub fn renamed_value_law()
    ensures { RenamedValueLaw }
{
    renamed_sheet_law();
    same_sheet_law();
}

/// The documents with all values in place differ in the new name, and in texts of formulas alone.
pub fn renamed_filling_law()
    ensures { RenamedFillingLaw }
{
    renamed_value_law();
}
