//! Laws over views, each proved as the contract of a function that does nothing.

ghost use Rattle.censored_view.specs.ViewLaws.{PartLaw, PartMadeLaw, ViewLaw};

/// What a context shows of a document is a view.
pub fn censored_view_law()
    ensures { ViewLaw }
{}

/// The tables and rows outside of which nothing changed tell all changes of the views, also where
/// the context changed for these tables.
pub fn censored_part_law()
    ensures { PartLaw }
{}

/// A part of a view is made of its rows alone, no view made before it.
pub fn part_made_law()
    ensures { PartMadeLaw }
{}
