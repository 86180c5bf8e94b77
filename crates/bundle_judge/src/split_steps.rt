//! Steps, with their actions apart from their marks: what is told of a bundle is read off the
//! actions alone.

ghost use Rattle.std.specs.Prelude.{◌≡◌, ◌<◌, map, length, get_or, IfOk};
ghost use Rattle.doc_model.specs.declared.action.Step.{Step};
ghost use Rattle.user_actions.specs.StepLaws.{action_of};

use doc_model::{DocAction, DocActionList, Step};
use std::alloc::{AllocError, Global};
use std::marker::Model;
use undo_bundles::copy_of_steps;

/// Steps, seen as them.
#[derive(Drop)]
pub struct SplitSteps {
    actions: DocActionList,
    marks: Vec<bool>,
}

impl Model for SplitSteps {
    ghost use Rattle.std.specs.Prelude.{◌≡◌, List, length};
    ghost use Rattle.doc_model.specs.declared.action.Step.{Step};
    ghost use Rattle.bundle_judge.specs.SplitSteps.{joined};

    ghost Value = { List Step };

    ghost view = { λ s. joined s.actions s.marks.items };

    ghost invariant = { λ s. length s.actions ≡ length s.marks.items };
}

impl SplitSteps {
    /// These steps.
    pub fn of(alloc: Global, steps: Vec<Step>) -> Result<Self, AllocError>
        ensures { IfOk result (λ s. s ≡ steps.items) }
    {
        let mut left = steps;
        let mut actions = Vec::with_capacity(alloc, left.len())?;
        let mut marks = Vec::with_capacity(alloc, left.len())?;
        left.reverse();
        while let Some(step) = left.pop() {
            actions.push(step.action)?;
            marks.push(step.direct)?;
        }
        let actions = DocActionList::from(actions);
        Ok(SplitSteps { actions, marks })
    }

    /// A copy of these steps.
    pub fn copy_of(alloc: Global, steps: &[Step]) -> Result<Self, AllocError>
        ensures { IfOk result (λ s. s ≡ steps.now) }
    {
        SplitSteps::of(alloc, copy_of_steps(alloc, steps)?)
    }

    /// Their actions.
    pub fn actions(&self) -> &[DocAction]
        ensures { result.now ≡ map action_of self.now }
    {
        self.actions.as_slice()
    }

    /// Their actions as a list.
    pub fn action_list(&self) -> &DocActionList
        ensures { result.now ≡ map action_of self.now }
    {
        &self.actions
    }
}
