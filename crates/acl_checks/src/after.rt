//! The checks of an action where it is done.

ghost use Rattle.std.specs.Prelude.{◌≡◌, option_map};
ghost use Rattle.doc_model.specs.Document.{Document};
ghost use Rattle.acl_checks.specs.BeforeStep.{Holds, answer_behind, row_of};
ghost use Rattle.acl_checks.specs.Checks.{checks_of};
ghost use Rattle.acl_checks.specs.Denials.{first_denied};

use crate::before::BeforeStep;
use crate::denials::{adds_denied, updates_denied};
use acl_rules::{Ctx, RuleId};
use doc_model::{DocAction, DocReader};

// The answer behind the action, with what was kept.
fn answer_behind<D: DocReader>(
    ctx: &Ctx,
    before: &BeforeStep,
    tables: &D,
    action: &DocAction,
) -> Option<RuleId>
    ensures { option_map row_of result
        ≡ answer_behind before.now ctx.now (D.document tables.now) action.now }
{
    match (before, action) {
        (BeforeStep::Decided(rule), _) => *rule,
        (
            BeforeStep::Rows(_),
            DocAction::BulkAdd {
                table,
                rows,
                columns,
            },
        ) => adds_denied(ctx, tables, table, rows.as_slice(), columns.as_slice()),
        (BeforeStep::Rows(kept), DocAction::BulkUpdate { table, columns, .. }) => {
            updates_denied(ctx, tables, table, kept.as_slice(), columns.as_slice())
        }
        _ => None,
    }
}

/// The rule that denies the action, if one does: of the first of its checks that is denied. The
/// tables are the evaluated document after the action, and `before` was kept of the one before it.
///
/// Memory: none. Cost: for each row and each column that the action gives a decision.
#[tactic(auto, unfolding(crate::specs::BeforeStep::Holds))]
pub fn after_step<D: DocReader>(
    ctx: &Ctx,
    before: &BeforeStep,
    tables: &D,
    action: &DocAction,
) -> Option<RuleId>
    ensures { (s : Document) → Holds before.now ctx.now s action.now → option_map row_of result
        ≡ first_denied ctx.now (checks_of s (D.document tables.now) action.now) }
{
    answer_behind(ctx, before, tables, action)
}
