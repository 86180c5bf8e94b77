//! Laws over steps of records, each proved as the contract of a function that does nothing.

ghost use Rattle.action_censor.specs.FollowLaws.{NarrowLaw, StepsLaw, ToldLaw};

use censored_view::{censored_part_law, part_made_law};

/// The rows that steps of records are about tell all changes of a view.
pub fn narrow_law()
    ensures { NarrowLaw }
{
    censored_part_law();
    part_made_law();
}

/// What steps tell of a table is what it was before them.
pub fn steps_law()
    ensures { StepsLaw }
{}

/// A document that is told of in the touched rows alone tells all changes.
pub fn told_law()
    ensures { ToldLaw }
{
    narrow_law();
}
