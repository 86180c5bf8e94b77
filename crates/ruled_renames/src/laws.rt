//! What plans of renames make of access rules.

ghost use Rattle.ruled_renames.specs.AttributeLaw.{AttributeReadLaw};
ghost use Rattle.ruled_renames.specs.ListLaw.{RenamedListLaw};
ghost use Rattle.ruled_renames.specs.PlannedRules.{PlannedRowsLaw, PlannedRulesLaw};

use planned_renames::planned_values_law;
use rename_flow::rewritten_rule_law;
use rename_texts::rename_laws;
use renamed_resources::length_law;
use renamed_rules::{following_rows_law, moved_filling_law, renamed_decision_law};

/// A list of columns that a rename leaves says the columns that it said, one by its new name.
pub fn renamed_list_law()
    ensures { RenamedListLaw }
{
    length_law();
}

/// The text that is written of an attribute of users is read as that attribute.
pub fn attribute_read_law()
    ensures { AttributeReadLaw }
{}

/// Each row of the rules follows the bundle that is planned by a view of all of them.
pub fn planned_rows_law()
    ensures { PlannedRowsLaw }
{
    rename_laws();
    rewritten_rule_law();
    renamed_list_law();
    attribute_read_law();
}

/// A plan with nothing unresolved, by a view of the whole document, keeps each decision.
pub fn planned_rules_law()
    ensures { PlannedRulesLaw }
{
    planned_rows_law();
    following_rows_law();
    planned_values_law();
    moved_filling_law();
    renamed_decision_law();
}
