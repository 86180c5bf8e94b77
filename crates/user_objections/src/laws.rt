//! Laws over what stands against user actions.

ghost use Rattle.user_objections.specs.ObjectionLaws.{AskedLaw};
ghost use Rattle.user_objections.specs.Unopposed.{UnopposedLaw};

/// Why an action is refused depends on the tables of the view alone that it asks for.
pub fn asked_law()
    ensures { AskedLaw }
{}

/// A document allows each action that nothing stands against in some view of it.
pub fn unopposed_law()
    ensures { UnopposedLaw }
{}
