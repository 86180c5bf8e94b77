//! What plans of renames make of documents.

ghost use Rattle.planned_renames.specs.PlannedValues.{PlannedValuesLaw};

use rename_texts::{rename_laws, rewritten_law};
use renamed_values::resolved_law;
use renaming_bundles::expanded_texts_law;

/// A plan with nothing unresolved makes a document with the new name, in which formulas follow.
pub fn planned_values_law()
    ensures { PlannedValuesLaw }
{
    expanded_texts_law();
    rename_laws();
    resolved_law();
    rewritten_law();
}
