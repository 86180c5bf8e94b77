//! Plan: a view is patched out of the empty one; what leads to another is told as short lines that
//! were written by hand (`tells_what_changed`); the changes lead there, and nothing leads from a
//! view to an equal one (`changes_lead_there`); what does not fit is told by its index
//! (`tells_what_does_not_fit`).

ghost use Rattle.std.specs.Prelude.{IfOk};
ghost use Rattle.doc_model.specs.Changes.{IsView};

use crate::shown::are_shown;
use crate::steps::{Kind, Part, Step, actions_of};
use Part::{Bool, Int, Null};
use doc_model::{View, ViewActionList, ViewTableList};
use plain_view::changes;
use std::alloc::{AllocError, Global};
use view_patch::{PatchFault, are_full, patch};

// A without columns, and B with X and Y in the rows 1 to 3.
static BEFORE: [Step; 3] = [
    Step::Table("B", &[("Y", Kind::Int), ("X", Kind::Any)]),
    Step::Table("A", &[]),
    Step::Rows(&[3, 2, 1], &[("X", &[Int(3), Int(1), Int(2)])]),
];

// B with X and Z in the rows 2 to 4, and C without columns.
static AFTER: [Step; 3] = [
    Step::Table("B", &[("X", Kind::Any), ("Z", Kind::Bool)]),
    Step::Table("C", &[]),
    Step::Rows(
        &[2, 3, 4],
        &[
            ("X", &[Bool(true), Int(3), Int(4)]),
            ("Z", &[Bool(false), Bool(true), Null]),
        ],
    ),
];

fn empty(alloc: Global) -> View
    ensures { IsView result.tables }
{
    View {
        tables: ViewTableList::new(alloc),
    }
}

// Patches where the actions are such as `patch` takes.
fn patched(alloc: Global, view: &View, actions: &ViewActionList) -> Result<View, AllocError>
    requires { IsView view.now.tables }
    ensures { IfOk result (λ v. IsView v.tables) }
{
    if actions.len() >= 100 || !are_full(actions) {
        return Err(AllocError);
    }
    match patch(alloc, view, actions) {
        Ok(view) => Ok(view),
        Err(_) => Err(AllocError),
    }
}

// The view after the actions, where those were made.
fn led(
    alloc: Global,
    view: &View,
    actions: &Result<ViewActionList, AllocError>,
) -> Result<View, AllocError>
    requires { IsView view.now.tables }
    ensures { IfOk result (λ v. IsView v.tables) }
{
    match actions {
        Ok(actions) => patched(alloc, view, actions),
        Err(_) => Err(AllocError),
    }
}

fn view(alloc: Global, steps: &[Step]) -> Result<View, AllocError>
    ensures { IfOk result (λ v. IsView v.tables) }
{
    led(alloc, &empty(alloc), &actions_of(alloc, steps))
}

const TOLD: &str = "|-table A|+table C|-column Y|+column Z|-rows 1|+rows 4 X 4 Z null\
     |=rows 2 X true|=rows 3 Z true";

// Whether both were made, and these lines lead from one to the other; no line where nothing does.
fn are_told(
    alloc: Global,
    old: &Result<View, AllocError>,
    new: &Result<View, AllocError>,
    want: &str,
) -> bool
    requires old { IfOk old.now (λ v. IsView v.tables) }
    requires new { IfOk new.now (λ v. IsView v.tables) }
{
    let Ok(old) = old else {
        return false;
    };
    let Ok(new) = new else {
        return false;
    };
    are_shown(alloc, &changes(alloc, old, new), want)
}

fn tells(alloc: Global) -> bool {
    are_told(alloc, &view(alloc, &BEFORE), &view(alloc, &AFTER), TOLD)
}

#[test]
fn tells_what_changed(rt: HostRuntime) {
    assert!(rt; tells(rt.alloc()), "not {TOLD}");
}

// The view that the changes from the old view to the new one make of the old one.
fn followed(
    alloc: Global,
    old: &Result<View, AllocError>,
    new: &Result<View, AllocError>,
) -> Result<View, AllocError>
    requires old { IfOk old.now (λ v. IsView v.tables) }
    requires new { IfOk new.now (λ v. IsView v.tables) }
    ensures { IfOk result (λ v. IsView v.tables) }
{
    let Ok(old) = old else {
        return Err(AllocError);
    };
    let Ok(new) = new else {
        return Err(AllocError);
    };
    led(alloc, old, &changes(alloc, old, new))
}

// Whether nothing leads from what the changes make to the new view.
fn lead_there(alloc: Global, old: &Result<View, AllocError>, new: &Result<View, AllocError>) -> bool
    requires old { IfOk old.now (λ v. IsView v.tables) }
    requires new { IfOk new.now (λ v. IsView v.tables) }
{
    are_told(alloc, &followed(alloc, old, new), new, "")
}

fn leads(alloc: Global) -> bool {
    lead_there(alloc, &view(alloc, &BEFORE), &view(alloc, &AFTER))
}

#[test]
fn changes_lead_there(rt: HostRuntime) {
    assert!(rt; leads(rt.alloc()), "something is left");
}

static REMOVED_TWICE: [Step; 2] = [Step::Removed(&[2]), Step::Removed(&[2])];

fn is_unfit(patched: &Result<View, PatchFault>, index: u32) -> bool {
    match patched {
        Err(PatchFault::Unfit { index: found }) => *found == index,
        _ => false,
    }
}

fn are_unfit(alloc: Global, view: &View, actions: &ViewActionList, index: u32) -> bool
    requires { IsView view.now.tables }
{
    if actions.len() >= 100 || !are_full(actions) {
        return false;
    }
    is_unfit(&patch(alloc, view, actions), index)
}

// Whether both were made, and the action at this index does not fit.
fn stops(
    alloc: Global,
    view: &Result<View, AllocError>,
    actions: &Result<ViewActionList, AllocError>,
    index: u32,
) -> bool
    requires { IfOk view.now (λ v. IsView v.tables) }
{
    let Ok(view) = view else {
        return false;
    };
    let Ok(actions) = actions else {
        return false;
    };
    are_unfit(alloc, view, actions, index)
}

fn stops_at_the_second(alloc: Global) -> bool {
    stops(
        alloc,
        &view(alloc, &BEFORE),
        &actions_of(alloc, &REMOVED_TWICE),
        1,
    )
}

#[test]
fn tells_what_does_not_fit(rt: HostRuntime) {
    assert!(rt; stops_at_the_second(rt.alloc()), "not at 1");
}
