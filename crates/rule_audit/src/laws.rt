//! What the audit rests on.

ghost use Rattle.rule_audit.specs.Laws.{DecisionLaw, OpenLaw, ShownLaw};
ghost use Rattle.rule_audit.specs.SeenLaws.{RemovalLaw, RowsLaw, SeenLaw, WritingLaw};

/// Open columns are shown, and each row may be read in them. Where no rule that is reached mentions
/// what is not safe, a decision is the same whatever else the rows hold.
pub fn audit_laws()
    ensures opened { OpenLaw }
    ensures shown { ShownLaw }
    ensures decision { DecisionLaw }
{}

/// The view tells each cell of an open column, and each row of a table that has one. Of a closed
/// user a decision on a row that goes is the same in any two documents that show the user the same,
/// and so is one on a new or a changed row where what is asked agrees on what is safe.
pub fn closed_laws()
    ensures seen { SeenLaw }
    ensures rows { RowsLaw }
    ensures removal { RemovalLaw }
    ensures writing { WritingLaw }
{}
