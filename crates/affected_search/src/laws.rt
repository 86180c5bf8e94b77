//! Laws of affected cells.

ghost use Rattle.affected_search.specs.ExactNotes.{DroppedExactLaw, ExactLaw, KeptExactLaw, NoneExactLaw};
ghost use Rattle.affected_search.specs.Listed.{RecordReadsLaw};
ghost use Rattle.affected_search.specs.Narrow.{NarrowLaw};
ghost use Rattle.affected_search.specs.Noted.{FoundNotesLaw};
ghost use Rattle.affected_search.specs.NotedUpkeep.{CarriedNotesLaw, NotesReadsLaw, SetNotesLaw};
ghost use Rattle.affected_search.specs.Reached.{LeastLaw};
ghost use Rattle.affected_search.specs.RecordsListed.{RecordsListedLaw};
ghost use Rattle.affected_search.specs.RowValues.{RowValuesLaw};
ghost use Rattle.affected_search.specs.Sheets.{FoundLaw, HeldLaw, WithinLaw};
ghost use Rattle.affected_search.specs.Upkeep.{CarriedLaw, SetLaw};

/// Each cell that is reached stands in every closed list of cells, so what is found is the least
/// such list.
#[tactic(auto, using(crate::proofs::ReachedLaws::least))]
pub fn least_law()
    ensures { LeastLaw }
{}

/// What is recorded of a run's notes holds each read of the run.
#[tactic(auto, using(crate::proofs::SheetLaws::held_law))]
pub fn held_law()
    ensures { HeldLaw }
{}

/// A formula cell that is not found keeps its value and its reads over an action, where the graph
/// holds what formula cells read and the touched reads are listed, unless the cell is new or its
/// column is modified.
pub fn found_law()
    ensures { FoundLaw }
{}

/// A formula cell that is reached is one that the action may affect, where the graph holds nothing
/// else than formula cells read and readers of what is listed read something touched.
pub fn within_law()
    ensures { WithinLaw }
{}

/// A cell that is set to the notes of its run has its reads in the graph, and each other cell has
/// those that it had there.
pub fn set_law()
    ensures { SetLaw }
{}

/// Over an action a graph has the reads of each formula cell again, once it has those of the cells
/// that are new or found, where it has those of each other cell still.
pub fn carried_law()
    ensures { CarriedLaw }
{}

/// What an action on records loses is found, or written or removed.
pub fn narrow_law()
    ensures { NarrowLaw }
{}

/// A formula cell that is not found keeps its value and what its run notes over a change of records
/// where the graph holds what formula cells note, and what is not listed tells the same before and
/// after: so of rows that come, go or change only the values need be listed by which lookups find
/// them.
pub fn found_notes_law()
    ensures { FoundNotesLaw }
{}

/// A cell that is set to the notes of its run has them in the graph, and each other cell has those
/// that it had there.
pub fn set_notes_law()
    ensures { SetNotesLaw }
{}

/// Rows of a table of which all is listed by which lookups find them do not meet a key that is not
/// listed, whatever formula cells hold.
pub fn row_values_law()
    ensures { RowValuesLaw }
{}

/// A graph that has what a cell's run notes has the reads of the cell.
pub fn notes_reads_law()
    ensures { NotesReadsLaw }
{}

/// Over a change a graph has what each formula cell notes again, once it has that of the cells
/// that are new or found, where it has that of each other cell still.
pub fn carried_notes_law()
    ensures { CarriedNotesLaw }
{}

/// Of an action on records it is enough to list the cells that it touches, all rows of a table
/// where they come or go, and the values by which lookups find these rows before and after.
pub fn records_listed_law()
    ensures { RecordsListedLaw }
{}

/// What `record_reads` lists of an action on records in the document before and in the one after is
/// all that the action changes.
pub fn record_reads_law()
    ensures { RecordReadsLaw }
{}

/// A graph that has just what each cell notes holds what formula cells note, and no more: so what
/// is found by it over an action on records keeps all others, and is affected. It has that still
/// where each cell reads what it read, once a cell without a formula reads nothing, and of cells
/// without formulas where no cell reads anything.
pub fn exact_notes_law()
    ensures exact { ExactLaw }
    ensures kept { KeptExactLaw }
    ensures dropped { DroppedExactLaw }
    ensures none { NoneExactLaw }
{}
