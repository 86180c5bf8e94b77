//! Laws of copies, each proved as the contract of a function that does nothing.

ghost use Rattle.table_copies.specs.Alike.{NothingShown, ShownAlike};

use censored_view::part_made_law;

/// A context shows the same of a copied table as of the table in its document.
pub fn shown_alike_law()
    ensures { ShownAlike }
{
    part_made_law();
}

/// A context shows nothing of a table that is not there.
pub fn nothing_shown_law()
    ensures { NothingShown }
{
    part_made_law();
}
