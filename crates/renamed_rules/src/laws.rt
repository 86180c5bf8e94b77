//! What rules with a column under a new name rest on.

ghost use Rattle.renamed_rules.specs.Decisions.{RenamedDecisionLaw};
ghost use Rattle.renamed_rules.specs.FollowingRows.{FollowingRowsLaw};
ghost use Rattle.renamed_rules.specs.RenamedCells.{MovedFillingLaw};
ghost use Rattle.renamed_rules.specs.RuleValues.{RuleValueLaw};

use renamed_documents::renamed_filling_law;

/// A rule comes to the same where each part that asks gets the same under another name.
pub fn rule_value_law()
    ensures { RuleValueLaw }
{}

/// Documents with a column under a new name, with all values in place, tell rules the same.
pub fn moved_filling_law()
    ensures { MovedFillingLaw }
{
    renamed_filling_law();
}

/// The rules and attributes of a document follow where each row of its rules does.
pub fn following_rows_law()
    ensures { FollowingRowsLaw }
{}

/// Each decision of rules that follow is the one before, the column taken by its new name.
pub fn renamed_decision_law()
    ensures { RenamedDecisionLaw }
{}
