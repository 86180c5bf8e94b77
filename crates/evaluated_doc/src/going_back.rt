//! A change taken back, with what is kept beside the tables.

ghost use Rattle.std.specs.Prelude.{◌≡◌, List};
ghost use Rattle.std.specs.Option.{option_map};
ghost use Rattle.dep_graph.specs.Named.{Were};
ghost use Rattle.doc_model.specs.Document.{Document};
ghost use Rattle.doc_model.specs.DocumentLaws.{IsWhole};
ghost use Rattle.recalc.specs.Current.{IsCurrent};
ghost use Rattle.known_reads.specs.Beside.{KnowsReads};
ghost use Rattle.evaluated_doc.specs.Update.{LeadsFrom};
ghost use Rattle.evaluated_doc.specs.WayBack.{HasBefore};

use crate::moving::go_back_over;
use crate::trace::Before;
use affected_values::{HeldValue, put_values_back, way_back_law};
use doc_model::DocTables;
use known_reads::{KnownReads, laid_law};
use recalc::KeptTable;

// Puts back the values of cells that a change evaluated anew.
fn put_back<D: DocTables>(tables: &D, kept: &mut Option<Vec<KeptTable>>, taken: Vec<HeldValue>)
    requires whole { IsWhole (D.document tables.now) }
    requires before { (now : Document) × (log : List Were)
        × IsCurrent now (option_map (λ v. v.items) kept.old)
        × LeadsFrom (D.document tables.now) now taken.items log }
    ensures { IsCurrent (D.document tables.now) (option_map (λ v. v.items) kept.new) }
{
    way_back_law();
    if let Some(kept) = kept {
        put_values_back(tables, kept, taken);
    }
}

/// Takes a change back on the tables, puts back the values that were kept beside them before it,
/// and lays aside what cells read then.
///
/// Memory: none.
pub(crate) fn go_back_to<D: DocTables>(
    tables: &mut D,
    kept: &mut Option<Vec<KeptTable>>,
    reads: &mut KnownReads,
    undo: D::Back,
    before: Before,
)
    requires fit { D.fits undo (D.document tables.old) }
    requires whole { IsWhole (D.document tables.old) }
    requires was { IsWhole (D.undone undo (D.document tables.old)) }
    requires current { IsCurrent (D.document tables.old) (option_map (λ v. v.items) kept.old) }
    requires known { KnowsReads (D.document tables.old) reads.old }
    requires before { HasBefore (D.undone undo (D.document tables.old)) (D.document tables.old)
        before }
    ensures back { D.document tables.new ≡ D.undone undo (D.document tables.old) }
    ensures current { IsCurrent (D.document tables.new) (option_map (λ v. v.items) kept.new) }
    ensures known { KnowsReads (D.document tables.new) reads.new }
{
    laid_law();
    match before {
        Before::Whole {
            kept: all,
            reads: were,
        } => {
            tables.take_back(undo);
            *kept = all;
            *reads = were;
        }
        Before::Update { taken, log } => {
            tables.take_back(undo);
            put_back(&*tables, kept, taken);
            reads.lay(log);
        }
        Before::Rows { taken, aside, log } => {
            go_back_over(&*tables, kept, taken, aside);
            tables.take_back(undo);
            reads.lay(log);
        }
        Before::Altered { kept: all, log } => {
            tables.take_back(undo);
            *kept = Some(all);
            reads.lay(log);
        }
    }
}
