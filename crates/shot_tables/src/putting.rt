//! Actions put one after another, and taken back where memory runs out.

ghost use Rattle.std.specs.Prelude.{◌≡◌, [], true, OnErr, OnOk};
ghost use Rattle.doc_model.specs.Apply.{apply, apply_all};
ghost use Rattle.doc_model.specs.DocumentLaws.{IsWhole};
ghost use Rattle.doc_model.specs.Valid.{valid};
ghost use Rattle.shot_tables.specs.TakingBack.{AllFit, taken_back};

use doc_actions::is_valid;
use doc_model::laws::kept_law;
use doc_model::{DocAction, DocTables};
use std::alloc::{AllocError, Global};

// Puts a valid action, and keeps what takes it back behind what is there.
fn put_valid<D: DocTables>(
    tables: &mut D,
    action: &DocAction,
    backs: &mut Vec<D::Back>,
) -> Result<(), AllocError>
    requires valid { valid (D.document tables.old) action.now ≡ true }
    requires led { AllFit D.undone D.fits backs.old.items (D.document tables.old) }
    ensures done { OnOk result (D.document tables.new ≡ apply (D.document tables.old) action.now) }
    ensures err { OnErr result (D.document tables.new ≡ D.document tables.old) }
    ensures led { AllFit D.undone D.fits backs.new.items (D.document tables.new) }
    ensures back { taken_back D.undone D.fits backs.new.items (D.document tables.new)
        ≡ taken_back D.undone D.fits backs.old.items (D.document tables.old) }
{
    backs.reserve(1)?;
    let back = tables.put(action)?;
    backs.push_reserved(back);
    Ok(())
}

// The same of any action: one that is not valid leaves the document.
fn put_one<D: DocTables>(
    alloc: Global,
    tables: &mut D,
    action: &DocAction,
    backs: &mut Vec<D::Back>,
) -> Result<(), AllocError>
    requires whole { IsWhole (D.document tables.old) }
    requires led { AllFit D.undone D.fits backs.old.items (D.document tables.old) }
    ensures done { OnOk result (D.document tables.new ≡ apply (D.document tables.old) action.now) }
    ensures whole { IsWhole (D.document tables.new) }
    ensures led { AllFit D.undone D.fits backs.new.items (D.document tables.new) }
    ensures back { taken_back D.undone D.fits backs.new.items (D.document tables.new)
        ≡ taken_back D.undone D.fits backs.old.items (D.document tables.old) }
{
    kept_law();
    if !is_valid(alloc, tables, action) {
        return Ok(());
    }
    put_valid(tables, action, backs)
}

// Puts actions in order. When out of memory, some of them are done.
fn put_each<D: DocTables>(
    alloc: Global,
    tables: &mut D,
    actions: &[DocAction],
    backs: &mut Vec<D::Back>,
) -> Result<(), AllocError>
    requires whole { IsWhole (D.document tables.old) }
    requires led { AllFit D.undone D.fits backs.old.items (D.document tables.old) }
    ensures done { OnOk result
        (D.document tables.new ≡ apply_all (D.document tables.old) actions.now) }
    ensures whole { IsWhole (D.document tables.new) }
    ensures led { AllFit D.undone D.fits backs.new.items (D.document tables.new) }
    ensures back { taken_back D.undone D.fits backs.new.items (D.document tables.new)
        ≡ taken_back D.undone D.fits backs.old.items (D.document tables.old) }
{
    for action in actions {
        put_one(alloc, tables, action, backs)?;
    }
    Ok(())
}

// Takes back what was put, the last first. Memory: none.
fn take_all_back<D: DocTables>(tables: &mut D, mut backs: Vec<D::Back>)
    requires { AllFit D.undone D.fits backs.items (D.document tables.old) }
    ensures { D.document tables.new
        ≡ taken_back D.undone D.fits backs.items (D.document tables.old) }
{
    while let Some(back) = backs.pop() {
        tables.take_back(back);
    }
}

/// Puts actions in order, and passes over those that are not valid at their place.
///
/// Errors: out of memory; the document is then as it was.
/// Memory: what the store takes to change the document, and a place for each action; none to take
/// back what was put. Cost: that of `put`, and of the test whether the action is valid.
pub fn put_all<D: DocTables>(
    alloc: Global,
    tables: &mut D,
    actions: &[DocAction],
) -> Result<(), AllocError>
    requires whole { IsWhole (D.document tables.old) }
    ensures ok { OnOk result
        (D.document tables.new ≡ apply_all (D.document tables.old) actions.now) }
    ensures err { OnErr result (D.document tables.new ≡ D.document tables.old) }
    ensures whole { IsWhole (D.document tables.new) }
{
    let mut backs = Vec::new(alloc);
    let answer = put_each(alloc, tables, actions, &mut backs);
    if answer.is_err() {
        take_all_back(tables, backs);
    }
    answer
}
