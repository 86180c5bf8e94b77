//! Copies of actions and of steps.

ghost use Rattle.std.specs.Prelude.{◌≡◌, IfOk};

use doc_model::{DocAction, DocActionList, Step};
use list_ops::all_copied;
use std::alloc::{AllocError, Global};

#[tactic(auto, using(crate::proofs::ActionCopies::action_copied))]
fn copy_of_action(action: &DocAction) -> Result<DocAction, AllocError>
    ensures { IfOk result (λ a. a ≡ action.now) }
{
    action.clone()
}

fn copy_of_step(step: &Step) -> Result<Step, AllocError>
    ensures { IfOk result (λ x. x ≡ step.now) }
{
    Ok(Step {
        action: copy_of_action(&step.action)?,
        direct: step.direct,
    })
}

/// A copy of each action, in order.
///
/// Errors: out of memory.
pub fn copy_of_actions(alloc: Global, actions: &[DocAction]) -> Result<DocActionList, AllocError>
    ensures { IfOk result (λ l. l ≡ actions.now) }
{
    let copies = all_copied(alloc, actions, |action| copy_of_action(action))?;
    Ok(DocActionList::from(copies))
}

/// A copy of each step, in order.
///
/// Errors: out of memory.
pub fn copy_of_steps(alloc: Global, steps: &[Step]) -> Result<Vec<Step>, AllocError>
    ensures { IfOk result (λ v. v.items ≡ steps.now) }
{
    all_copied(alloc, steps, |step| copy_of_step(step))
}
