//! Actions done one after another, and gone back over.

ghost use Rattle.std.specs.Prelude.{◌≡◌, ◌<◌, [], ◌∷◌, true, map, IfOk, OnErr, OnOk};
ghost use Rattle.doc_model.specs.Apply.{all_valid, apply, apply_all};
ghost use Rattle.doc_model.specs.DocumentLaws.{IsWhole};
ghost use Rattle.doc_model.specs.Valid.{valid};
ghost use Rattle.recalc.specs.Lost.{lost};
ghost use Rattle.evaluated_doc.specs.WayBack.{IsWayBack};
ghost use Rattle.user_actions.specs.StepLaws.{action_of};
ghost use Rattle.bundle_judge.specs.JudgedBundles.{after_steps};
ghost use Rattle.bundle_judge.specs.Losses.{AreTold};
ghost use Rattle.bundle_judge.specs.Rollback.{AllLeadBack, gone_back};

use doc_model::{DocAction, DocTables, Step};
use evaluated_doc::{Doc, Trace};
use formula_eval::Steps;
use std::alloc::{AllocError, Global};
use std::marker::Brand;
use std::sync::ledger::{Blank, Ledger};
use undo_bundles::BundleInverse;

/// Steps that were done: the traces that lead back over them, and the steps that take them back.
#[derive(Drop)]
pub struct Trail<D: DocTables> {
    pub traces: Vec<Trace<D>>,
    pub inverse: BundleInverse,
}

impl<D: DocTables> Trail<D> {
    /// The trail of no steps.
    ///
    /// Memory: none.
    pub fn new(alloc: Global) -> Self
        ensures traces { result.traces.items ≡ [] }
        ensures inverse { result.inverse ≡ [] }
    {
        Trail {
            traces: Vec::new(alloc),
            inverse: BundleInverse::new(alloc),
        }
    }
}

// Does a valid action, in a count of attempts of its own, within what it takes to evaluate what the
// action may affect.
fn put_alone<D: DocTables, L: Ledger>(
    alloc: Global,
    doc: &mut Doc<D>,
    action: &DocAction,
    blank: Blank,
) -> Result<Trace<D>, AllocError>
    requires name { blank.name ≡ L.name }
    requires parts { blank.parts ≡ L.parts }
    requires some { 0 < L.parts }
    requires valid { valid (D.document doc.old) action.now ≡ true }
    ensures ok { OnOk result (D.document doc.new ≡ apply (D.document doc.old) action.now) }
    ensures cells { IfOk result (λ trace. trace.cells
        ≡ lost (D.document doc.old) (D.document doc.new) action.now) }
    ensures way { IfOk result (λ trace. IsWayBack D.fits D.undone trace (D.document doc.new)) }
    ensures back { IfOk result
        (λ trace. D.undone trace.back (D.document doc.new) ≡ D.document doc.old) }
    ensures err { OnErr result (D.document doc.new ≡ D.document doc.old) }
    ensures whole { IsWhole (D.document doc.new) }
{
    let mut steps = Steps::<L>::new(blank);
    doc.put(alloc, action, &mut steps)
}

/// Does a valid step, and notes the trace that leads back behind what is there, and the inverse of
/// the step.
pub fn do_one<D: DocTables>(
    alloc: Global,
    doc: &mut Doc<D>,
    step: &Step,
    trail: &mut Trail<D>,
) -> Result<(), AllocError>
    requires whole { IsWhole (D.document doc.old) }
    requires valid { valid (D.document doc.old) step.now.action ≡ true }
    requires led { AllLeadBack D.fits D.undone trail.old.traces.items (D.document doc.old) }
    ensures whole { OnOk result (IsWhole (D.document doc.new)) }
    ensures done { OnOk result (D.document doc.new ≡ apply (D.document doc.old) step.now.action) }
    ensures led { AllLeadBack D.fits D.undone trail.new.traces.items (D.document doc.new) }
    ensures back { gone_back D.fits D.undone trail.new.traces.items (D.document doc.new)
        ≡ gone_back D.fits D.undone trail.old.traces.items (D.document doc.old) }
    ensures told { OnOk result (AreTold (D.document doc.old) (step.now ∷ [])
        trail.old.traces.items trail.new.traces.items trail.old.inverse trail.new.inverse) }
{
    trail.traces.reserve(1)?;
    let inverse = &mut trail.inverse;
    inverse.note(alloc, doc.tables(), &step.action, step.direct)?;
    let trace = put_alone::<D, Brand>(alloc, doc, &step.action, Blank::new(1))?;
    trail.traces.push_reserved(trace);
    Ok(())
}

/// Does valid steps, and notes of each what `do_one` notes. When out of memory, some of them are
/// done.
pub fn do_all<D: DocTables>(
    alloc: Global,
    doc: &mut Doc<D>,
    steps: &[Step],
    trail: &mut Trail<D>,
) -> Result<(), AllocError>
    requires whole { IsWhole (D.document doc.old) }
    requires valid { all_valid (D.document doc.old) (map action_of steps.now) ≡ true }
    requires led { AllLeadBack D.fits D.undone trail.old.traces.items (D.document doc.old) }
    ensures done { OnOk result (D.document doc.new ≡ after_steps (D.document doc.old) steps.now) }
    ensures led { AllLeadBack D.fits D.undone trail.new.traces.items (D.document doc.new) }
    ensures back { gone_back D.fits D.undone trail.new.traces.items (D.document doc.new)
        ≡ gone_back D.fits D.undone trail.old.traces.items (D.document doc.old) }
    ensures told { OnOk result (AreTold (D.document doc.old) steps.now
        trail.old.traces.items trail.new.traces.items trail.old.inverse trail.new.inverse) }
{
    for step in steps {
        do_one(alloc, doc, step, trail)?;
    }
    Ok(())
}

// Does a valid action, and notes the trace that leads back behind what is there.
fn put_one<D: DocTables>(
    alloc: Global,
    doc: &mut Doc<D>,
    action: &DocAction,
    traces: &mut Vec<Trace<D>>,
) -> Result<(), AllocError>
    requires valid { valid (D.document doc.old) action.now ≡ true }
    requires led { AllLeadBack D.fits D.undone traces.old.items (D.document doc.old) }
    ensures done { OnOk result (D.document doc.new ≡ apply (D.document doc.old) action.now) }
    ensures led { AllLeadBack D.fits D.undone traces.new.items (D.document doc.new) }
    ensures back { gone_back D.fits D.undone traces.new.items (D.document doc.new)
        ≡ gone_back D.fits D.undone traces.old.items (D.document doc.old) }
{
    traces.reserve(1)?;
    let trace = put_alone::<D, Brand>(alloc, doc, action, Blank::new(1))?;
    traces.push_reserved(trace);
    Ok(())
}

/// Does the valid actions of a bundle that was gone back over once more, and notes the traces that
/// lead back. When out of memory, some of them are done.
pub fn do_again<D: DocTables>(
    alloc: Global,
    doc: &mut Doc<D>,
    actions: &[DocAction],
    traces: &mut Vec<Trace<D>>,
) -> Result<(), AllocError>
    requires valid { all_valid (D.document doc.old) actions.now ≡ true }
    requires led { AllLeadBack D.fits D.undone traces.old.items (D.document doc.old) }
    ensures done { OnOk result (D.document doc.new ≡ apply_all (D.document doc.old) actions.now) }
    ensures led { AllLeadBack D.fits D.undone traces.new.items (D.document doc.new) }
    ensures back { gone_back D.fits D.undone traces.new.items (D.document doc.new)
        ≡ gone_back D.fits D.undone traces.old.items (D.document doc.old) }
{
    for action in actions {
        put_one(alloc, doc, action, traces)?;
    }
    Ok(())
}

/// Goes back over what was done, the last first.
///
/// Memory: none.
pub fn go_back_all<D: DocTables>(doc: &mut Doc<D>, mut traces: Vec<Trace<D>>)
    requires { AllLeadBack D.fits D.undone traces.items (D.document doc.old) }
    ensures { D.document doc.new
        ≡ gone_back D.fits D.undone traces.items (D.document doc.old) }
{
    while let Some(trace) = traces.pop() {
        doc.go_back(trace);
    }
}
