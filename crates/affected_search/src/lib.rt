//! The search for the cells that a change affects, by a graph of reads.
//!
//! Stands on `dep_graph` (who reads what), `lookup_index` (rows by column) and `recalc` (cells with
//! what they hold); its laws also on `affected_cells` (what an action touches) and `formula_eval`
//! (notes of runs). Used by `affected_values`, `known_reads` and `evaluated_doc`.
//!
//! Promises: of a list of touched reads, `affected_by` finds exactly the cells that read one of
//! them, or read a cell that was found, or the column of one as a key column. So what it finds is
//! closed, each cell of it is reached from a touched read, and it stands in each closed list of
//! cells (`least_law`). Each cell is found once. `found_law` tells what that is good for: over an
//! action, a formula cell that is not found keeps its value and its reads, unless it is new or its
//! column is modified. It asks that the graph holds what formula cells read, which `held_law` says
//! of what `DepGraph::set` records, and that readers of what the action touches read something
//! listed. `found_notes_law` is finer: it asks for no key column and no coming or going of rows to
//! be listed, but for the values by which lookups find the rows that come, go or change, where the
//! graph holds all that runs note (`set_notes_law`); `row_values` lists these of rows that stand in
//! a store, and by `row_values_law` the rows then meet no other key. `records_listed_law` says that
//! with the touched cells they are all that an action on records needs. `record_reads` lists just
//! this as a document shows the rows: listed before the action and after it, it is all that the
//! action changes (`record_reads_law`), so a formula cell that `affected_by_records` does not find
//! keeps its value and what its run notes, unless it is new. By `within_law` no other formula cell
//! is reached than the action may affect, where the graph holds nothing else and readers of what is
//! listed read something touched; so what `affected_by_records` finds is affected, where the graph
//! holds no more than formula cells note. A graph that has just what each cell notes holds what
//! formula cells note, and no more (`exact_notes_law`); `DepGraph::set` keeps it so. Over such a
//! graph `affected_by_action` finds the cells of any action, of one on the schema too, by the reads
//! that it touches: of a whole document a formula cell that it does not find keeps its value and
//! what its run notes, unless it is new or its column is modified, and what it finds is affected.
//! What an action on records loses is found, or written or removed (`narrow_law`): `narrow_cells`
//! tells exactly these cells of a document, in order. `record_cell` records what the formula of a
//! cell reads, by one attempt at most; once the new and the found cells are recorded anew, the
//! graph holds the reads of each formula cell again (`set_law`, `carried_law`).
//! Not promised: that `affected_by_records` finds as few cells as can be: what an action affects is
//! told by key columns whole, and of a formula column, and of one with an error in one of the rows,
//! whoever looks up by it is found; nor that `affected_by_action` does, which goes by key columns
//! whole everywhere.
//! Costs: each reader of a touched read, of a found cell and of a found cell's column as a key
//! column is looked up once for each of these reads; a column is asked for once, however many of
//! its cells are found. The rest of the document is not gone over, but by `affected_by_action`,
//! which looks at each recorded read of each formula cell. Where rows come or go, each name that
//! has a number is asked for once, and once for each row. `narrow_cells` asks for each column of
//! the tables that are written or have a number, and then for the named rows alone.
//! Read first: specs/Reached.antt, then search.rt; specs/Listed.antt, then listed.rt;
//! specs/Touches.antt, then by_action.rt and touch.rt.
#![tactic(auto)]

mod affected;
mod by_action;
mod by_column;
mod described;
mod laws;
mod listed;
mod losing;
mod recording;
mod row_reads;
mod search;
mod touch;
mod touched_reads;
mod touching;

pub use affected::AffectedCells;
pub use by_action::affected_by_action;
pub use by_column::rows_by_column;
pub use laws::{
    carried_law, carried_notes_law, exact_notes_law, found_law, found_notes_law, held_law,
    least_law, narrow_law, notes_reads_law, record_reads_law, records_listed_law, row_values_law,
    set_law, set_notes_law, within_law,
};
pub use listed::{affected_by_records, record_reads};
pub use losing::narrow_cells;
pub use recording::record_cell;
pub use row_reads::row_values;
pub use search::affected_by;
