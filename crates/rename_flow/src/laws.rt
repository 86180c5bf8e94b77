//! Laws of the texts of rules, and of what a plan is told from.

ghost use Rattle.rename_flow.specs.PlanLaw.{PlanReadsLaw};
ghost use Rattle.rename_flow.specs.RuleTextLaw.{RewrittenRuleLaw};

/// What is written of the text of a rule, with the marks of its tree, is the renamed formula, where
/// the new name is one and the text does not get too long.
pub fn rewritten_rule_law()
    ensures { RewrittenRuleLaw }
{}

/// The plan of a rename is told from a view's columns, and of its rows from those of the two tables
/// of rules alone.
pub fn plan_reads_law()
    ensures { PlanReadsLaw }
{}
