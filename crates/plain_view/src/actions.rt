//! Lists of actions.

ghost use Rattle.std.specs.Prelude.{◌≡◌, ◌∷◌, ◌++◌, [], OnOk};

use doc_model::ViewAction;
use std::alloc::AllocError;

/// Adds an action behind the others.
pub(crate) fn add(actions: &mut Vec<ViewAction>, action: ViewAction) -> Result<(), AllocError>
    ensures { OnOk result (actions.new.items ≡ actions.old.items ++ action ∷ []) }
{
    Ok(actions.push(action)?)
}
