//! A law over changes.

ghost use Rattle.plain_view.specs.PartsOfViews.{ChangesSame};

/// Where two views agree outside of some tables and rows, the parts of them that hold those tables
/// and rows tell all changes from one view to the other.
pub fn changes_same_law()
    ensures { ChangesSame }
{}
