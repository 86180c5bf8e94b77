//! Laws over what contexts are told, each proved as the contract of a function that does nothing.

ghost use Rattle.context_changes.specs.ToldLaws.{HidingLaw, SinceLaw};

use acl_reading::reading_law;

/// What is told since what contexts showed of a document is what is told of the bundle between.
pub fn since_law()
    ensures { SinceLaw }
{}

/// No context shows anything of the schema tables.
pub fn hiding_law()
    ensures { HidingLaw }
{
    reading_law();
}
