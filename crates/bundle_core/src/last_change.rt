//! What the last bundle changed, as it is kept until the next entry.
ghost use Rattle.std.specs.Prelude.{◌≡◌, ◌≤◌, [], length, map, true, IfOk, IfSome, IsSome, vec_capacity};
ghost use Rattle.doc_model.specs.Document.{Document};
ghost use Rattle.action_censor.specs.Step.{are_records, step_of};
ghost use Rattle.bundle_traces.specs.TraceLaws.{steps_done};
ghost use Rattle.user_actions.specs.StepLaws.{action_of};
ghost use Rattle.bundle_judge.specs.Losses.{cells_told};
ghost use Rattle.bundle_core.specs.Followed.{with_cells};
ghost use Rattle.bundle_core.specs.LastChange.{HasRoomFor, IsChange};

use crate::followed::are_of_records;
use action_censor::StepTrace;
use bundle_judge::SplitSteps;
use cell_types::CellOld;
use doc_model::{DocAction, DocTables};
use evaluated_doc::Trace;
use std::alloc::{AllocError, Global};

/// An accepted bundle: its steps, and for each of them the cells of the evaluated document that
/// hold something else after it or are gone, with what they held. These are not told where the
/// steps were done once more to work out what sessions are told.
#[derive(Drop)]
pub struct LastChange {
    pub steps: SplitSteps,
    pub lost: Option<Vec<Vec<CellOld>>>,
}

// Actions, each with what it lost.
fn steps_with<'a>(
    alloc: Global,
    actions: &'a [DocAction],
    lost: &'a [Vec<CellOld>],
) -> Result<Vec<StepTrace<'a>>, AllocError>
    requires { length lost.now ≡ length actions.now }
    ensures { IfOk result (λ l. map step_of l.items
        ≡ with_cells actions.now (map (λ cells. cells.items) lost.now)) }
{
    let mut steps = Vec::with_capacity(alloc, actions.len())?;
    for index in 0..actions.len() {
        steps.push(StepTrace {
            action: &actions[index],
            cells: lost[index].as_slice(),
        })?;
    }
    Ok(steps)
}

impl LastChange {
    /// Its document actions.
    pub fn actions(&self) -> &[DocAction]
        ensures { result.now ≡ map action_of self.now.steps }
    {
        self.steps.actions()
    }

    /// Its document actions, each with what it lost of the evaluated document, where that is told
    /// and all of them are about records.
    ///
    /// Errors: out of memory.
    pub fn steps_of_records(&self, alloc: Global) -> Result<Option<Vec<StepTrace<'_>>>, AllocError>
        ensures records { IfOk result
            (λ o. IfSome o (λ l. are_records (map step_of l.items) ≡ true)) }
        ensures steps { IfOk result (λ o. IfSome o (λ l. (s t : Document)
            → IsChange s t self.now
            → map step_of l.items ≡ steps_done s (map action_of self.now.steps))) }
    {
        let actions = self.steps.actions();
        let Some(lost) = &self.lost else {
            return Ok(None);
        };
        if lost.len() != actions.len() || !are_of_records(actions) {
            return Ok(None);
        }
        let steps = steps_with(alloc, actions, lost.as_slice())?;
        Ok(Some(steps))
    }
}

/// What traces tell, where there is a list with room for it.
///
/// Memory: none.
pub(crate) fn lost_by<D: DocTables>(
    traces: Vec<Trace<D>>,
    room: Option<Vec<Vec<CellOld>>>,
) -> Option<Vec<Vec<CellOld>>>
    requires { IfSome room (HasRoomFor (length traces.items)) }
    ensures { IfSome result (λ lost. IsSome room
        × (map (λ cells. cells.items) lost.items ≡ cells_told traces.items)) }
{
    Some(taken_from(traces, room?))
}

// Takes what traces tell into a list that has room for it.
fn taken_from<D: DocTables>(
    mut traces: Vec<Trace<D>>,
    mut lost: Vec<Vec<CellOld>>,
) -> Vec<Vec<CellOld>>
    requires empty { lost.items ≡ [] }
    requires room { length traces.items ≤ vec_capacity lost }
    ensures { map (λ cells. cells.items) result.items ≡ cells_told traces.items }
{
    traces.reverse();
    while let Some(trace) = traces.pop() {
        lost.push_reserved(trace.into_cells());
    }
    lost
}
