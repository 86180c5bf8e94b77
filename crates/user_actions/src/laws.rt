//! Laws over the steps of user actions.

ghost use Rattle.user_actions.specs.FreshIds.{FreshIdsLaw, StepsLaw};

/// Each new id of an action that a document allows is a name, and is free there.
pub fn fresh_ids_law()
    ensures { FreshIdsLaw }
{}

/// Each step of an action that a document allows is valid at its index.
pub fn steps_law()
    ensures { StepsLaw }
{}
