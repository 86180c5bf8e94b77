//! What was laid aside recorded again.

ghost use Rattle.std.specs.Prelude.{◌≡◌, ◌++◌, [], List, OnOk};
ghost use Rattle.dep_graph.specs.Named.{Were};
ghost use Rattle.doc_model.specs.Document.{Document};
ghost use Rattle.known_reads.specs.Beside.{KnowsWith};
ghost use Rattle.known_reads.specs.Laid.{all_turned};

use crate::laid::{LaidReads, ReadsBefore};
use dep_graph::{DepGraph, WereReads};
use std::alloc::AllocError;

// Records again what cells read, the last note first: of a cell that was noted twice the first note
// counts.
fn put_back(graph: &mut DepGraph, were: &mut Vec<WereReads>) -> Result<(), AllocError>
    ensures known { (s : Document) (first : List Were)
        → KnowsWith s graph.old (first ++ were.old.items)
        → KnowsWith s graph.new (first ++ were.new.items) }
    ensures ok { OnOk result (were.new.items ≡ []) }
{
    'putting: while let Some(last) = were.last() {
        graph.set_back(last)?;
        let _done = were.pop();
    }
    Ok(())
}

/// Records again what was laid aside, from the first to the last.
///
/// Errors: out of memory; what is not recorded yet is still there.
pub(crate) fn put_all_back(graph: &mut DepGraph, turned: &mut LaidReads) -> Result<(), AllocError>
    ensures known { (s : Document) → KnowsWith s graph.old (all_turned turned.old)
        → KnowsWith s graph.new (all_turned turned.new) }
    ensures ok { OnOk result (turned.new ≡ []) }
{
    'putting: while let Some(top) = turned.take() {
        let mut top = top;
        if put_back(graph, &mut top.were).is_err() {
            turned.lay(top);
            return Err(AllocError);
        }
        drop(top);
    }
    Ok(())
}
