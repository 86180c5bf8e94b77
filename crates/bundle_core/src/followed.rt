//! Bundles of records, and what their traces tell of them.

ghost use Rattle.std.specs.Prelude.{◌≡◌, map, length, IfOk};
ghost use Rattle.std.specs.List.{list_all};
ghost use Rattle.action_censor.specs.Step.{is_of_records, step_of};
ghost use Rattle.bundle_judge.specs.Losses.{cells_told};
ghost use Rattle.bundle_core.specs.Followed.{with_cells};

use action_censor::StepTrace;
use doc_model::{DocAction, DocTables};
use evaluated_doc::{Doc, Trace};
use std::alloc::{AllocError, Global};

fn is_of_records(action: &DocAction) -> bool
    ensures { result ≡ is_of_records action.now }
{
    matches!(
        action,
        DocAction::BulkAdd { .. } | DocAction::BulkUpdate { .. } | DocAction::BulkRemove { .. }
    )
}

/// Whether all actions are about records.
pub(crate) fn are_of_records(actions: &[DocAction]) -> bool
    ensures { result ≡ list_all is_of_records actions.now }
{
    actions.iter().all(|action| is_of_records(action))
}

/// Actions that were done, each with what its trace tells.
pub(crate) fn steps_told<'a, D: DocTables>(
    alloc: Global,
    actions: &'a [DocAction],
    traces: &'a [Trace<D>],
) -> Result<Vec<StepTrace<'a>>, AllocError>
    requires { length traces.now ≡ length actions.now }
    ensures { IfOk result
        (λ l. map step_of l.items ≡ with_cells actions.now (cells_told traces.now)) }
{
    let mut steps = Vec::with_capacity(alloc, actions.len())?;
    for index in 0..actions.len() {
        steps.push(StepTrace {
            action: &actions[index],
            cells: traces[index].cells(),
        })?;
    }
    Ok(steps)
}
