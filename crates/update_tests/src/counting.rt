//! Changes in counts of their own.

ghost use Rattle.std.specs.Prelude.{◌≡◌, ◌<◌, IfOk};
ghost use Rattle.evaluated_doc.specs.WayBack.{IsWayBack};

use doc_model::{DocAction, DocTables};
use evaluated_doc::{ChangeFault, Doc, Trace};
use formula_eval::Steps;
use std::alloc::Global;
use std::sync::ledger::{Blank, Ledger};

/// Does a valid action, in a count of attempts of its own.
///
/// Errors, memory and cost: as to `Doc::change`.
pub(crate) fn change_alone<D: DocTables, L: Ledger>(
    alloc: Global,
    doc: &mut Doc<D>,
    action: &DocAction,
    blank: Blank,
) -> Result<Trace<D>, ChangeFault>
    requires name { blank.name ≡ L.name }
    requires parts { blank.parts ≡ L.parts }
    requires some { 0 < L.parts }
    ensures { IfOk result (λ trace. IsWayBack D.fits D.undone trace (D.document doc.new)) }
{
    let mut steps = Steps::<L>::new(blank);
    doc.change(alloc, action, &mut steps)
}
