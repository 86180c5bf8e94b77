//! Laws of cells that a change does not affect.

ghost use Rattle.affected_cells.specs.Bound.{NeededLaw};
ghost use Rattle.affected_cells.specs.Laws.{KeepsLaw, StillKnownLaw};
ghost use Rattle.affected_cells.specs.Met.{MetLaw};
ghost use Rattle.affected_cells.specs.Noted.{UnaffectedNotesLaw};
ghost use Rattle.affected_cells.specs.Untouched.{UnaffectedLaw};

/// A formula cell outside of a closed set keeps its value and its reads.
pub fn unaffected_law()
    ensures { UnaffectedLaw }
{}

/// The same by what runs note, so that a lookup is left alone by rows that do not meet its keys: a
/// formula cell outside of a closed set keeps its value and what its run notes.
pub fn unaffected_notes_law()
    ensures { UnaffectedNotesLaw }
{}

/// The same rows meet keys, where those that stay are the same to each key, and those that come or
/// go meet none of them.
pub fn met_law()
    ensures { MetLaw }
{}

/// A formula cell that an action does not affect keeps its value and its reads.
pub fn keeps_law()
    ensures { KeepsLaw }
{}

/// The values before, of cells that an action does not affect, are right after it.
pub fn still_known_law()
    ensures { StillKnownLaw }
{}

/// A cell that an attempt needs, where what is known is right, is named by the reads that the
/// attempted cell makes over the evaluated cells.
pub fn needed_law()
    ensures { NeededLaw }
{}
