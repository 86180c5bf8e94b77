//! Laws over refusals, each proved as the contract of a function that does nothing.

ghost use Rattle.view_refusals.specs.RefusalLaws.{AllowedLaw, RequestedLaw};

use user_objections::{asked_law, unopposed_law};

/// What stands against a user action rests on the tables and the rows alone that it asks for.
pub fn requested_law()
    ensures { RequestedLaw }
{
    asked_law();
}

/// A document allows what nothing stands against in what a context shows of it, or of what it
/// evaluates to.
pub fn allowed_view_law()
    ensures { AllowedLaw }
{
    unopposed_law();
}
