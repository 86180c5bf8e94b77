//! Whether a bundle may change what is in force for users.

ghost use Rattle.std.specs.Prelude.{◌≡◌, map};
ghost use Rattle.std.specs.List.{list_any};
ghost use Rattle.std.specs.Str.{bytes_eq};
ghost use Rattle.cell_types.specs.declared.cell.CellOld.{CellOld};
ghost use Rattle.user_attrs.specs.declared.attribute_rule.AttributeRule.{AttributeRule};
ghost use Rattle.action_censor.specs.declared.steps.StepTrace.{StepTrace};
ghost use Rattle.action_censor.specs.Step.{step_of};
ghost use Rattle.rule_contexts.specs.ChangedContexts.{is_read, may_action_change, may_change_contexts, may_change_rules, may_step_change};

use action_censor::StepTrace;
use cell_types::{CellOld, Name};
use doc_model::DocAction;
use doc_readers::is_acl_id;
use user_attrs::AttributeRule;

// Whether attributes are looked up in a table.
fn is_looked_up_in(attributes: &[AttributeRule], table: &Name) -> bool
    ensures { result
        ≡ list_any (λ (a : AttributeRule). bytes_eq a.table table.now) attributes.now }
{
    attributes
        .iter()
        .any(|attribute| attribute.table.as_str() == table.as_str())
}

// Whether contexts read a table.
fn is_read(attributes: &[AttributeRule], table: &Name) -> bool
    ensures { result ≡ is_read attributes.now table.now }
{
    is_acl_id(table.as_str()) || is_looked_up_in(attributes, table)
}

fn may_action_change(attributes: &[AttributeRule], action: &DocAction) -> bool
    ensures { result ≡ may_action_change attributes.now action.now }
{
    match action {
        DocAction::BulkAdd { table, .. }
        | DocAction::BulkUpdate { table, .. }
        | DocAction::BulkRemove { table, .. } => is_read(attributes, table),
        _ => true,
    }
}

// Whether one of these cells stands in a table that contexts read.
fn is_any_read(attributes: &[AttributeRule], cells: &[CellOld]) -> bool
    ensures { result
        ≡ list_any (λ (o : CellOld). is_read attributes.now o.cell.table) cells.now }
{
    cells.iter().any(|old| is_read(attributes, &old.cell.table))
}

fn may_step_change(attributes: &[AttributeRule], step: &StepTrace<'_>) -> bool
    ensures { result ≡ may_step_change attributes.now (step_of step.now) }
{
    may_action_change(attributes, step.action) || is_any_read(attributes, step.cells)
}

// Whether one of the steps that are lent may change contexts.
fn may_one_change(attributes: &[AttributeRule], steps: &[StepTrace<'_>]) -> bool
    ensures { result ≡ list_any
        (λ (k : StepTrace). may_step_change attributes.now (step_of k)) steps.now }
{
    steps.iter().any(|step| may_step_change(attributes, step))
}

/// Whether a bundle of these steps may change contexts that have these attributes: some step is not
/// about records, or about a table of the access rules or of an attribute, also by a cell that it
/// changed there.
///
/// Memory: none. Cost: the attributes, for each step and each of its cells.
#[tactic(auto, using(crate::proofs::ReadTables::any_mapped))]
pub fn may_change_contexts(attributes: &[AttributeRule], steps: &[StepTrace<'_>]) -> bool
    ensures { result ≡ may_change_contexts attributes.now (map step_of steps.now) }
{
    may_one_change(attributes, steps)
}

/// Whether a bundle of these steps may change the rules themselves: some step is not about records,
/// or about a table of the access rules, also by a cell that it changed there.
///
/// Memory: none. Cost: the steps and their cells.
pub fn may_change_rules(steps: &[StepTrace<'_>]) -> bool
    ensures { result ≡ may_change_rules (map step_of steps.now) }
{
    may_change_contexts(&[], steps)
}
