//! The first shots of a core's document, and what its last entry did.

ghost use Rattle.std.specs.Prelude.{◌≡◌, ◌∷◌, ◌++◌, [], List, length, IfOk};
ghost use Rattle.doc_model.specs.Document.{Document};
ghost use Rattle.doc_model.specs.DocumentLaws.{IsWhole};
ghost use Rattle.doc_model.specs.declared.entry.Entry.{Entry};
ghost use Rattle.shot_changes.specs.Leading.{LeadOn};
ghost use Rattle.bundle_core.specs.KeptCore.{state_now};
ghost use Rattle.bundle_core.specs.LastChange.{IsChange};
ghost use Rattle.document_shot.specs.Pasts.{past_before, state_at};
ghost use Rattle.document_shot.specs.Shots.{LeadTo, Leads, Stands, applied, begun, shown_after};

use crate::operation::DocumentOp;
use crate::sessions::open_sessions;
use crate::shot::DocumentShot;
use bundle_core::{Core, LastChange};
use column_store::ColumnTables;
use doc_keeper::Keeper;
use doc_model::DocActionList;
use evaluated_doc::Doc;
use shot_cells::CellChanges;
use shot_changes::{changes_anew, changes_of_rows};
use shot_documents::DocumentChanges;
use std::alloc::{AllocError, Global};
use undo_bundles::copy_of_actions;

// What leads from the tables of a core's document alone to what it is now.
fn opening_of<K: Keeper>(alloc: Global, core: &Core<K>) -> Result<DocumentOp, AllocError>
    ensures past { IfOk result (λ op. op.past ≡ core.now.state) }
    ensures stands { IfOk result
        (λ op. Stands (applied (begun (state_now core.now.state).document) op)) }
{
    let cells = changes_anew(alloc, core.document())?;
    let sessions = open_sessions(alloc, core)?;
    Ok(DocumentOp {
        changes: DocumentChanges {
            actions: DocActionList::new(alloc),
            cells,
        },
        sessions,
        entries: core.history().len() as u64,
        past: core.past(),
    })
}

/// Two shots of a core as it is now.
///
/// Errors: out of memory. Cost: linear in the cells.
pub(crate) fn first_shots<K: Keeper>(
    alloc: Global,
    core: &Core<K>,
) -> Result<(DocumentShot, DocumentShot), AllocError>
    ensures alike { IfOk result (λ two. two.0 ≡ two.1) }
    ensures stands { IfOk result (λ two. Stands (shown_after two.0)) }
    ensures past { IfOk result (λ two. (shown_after two.0).past ≡ core.now.state) }
{
    let operation = opening_of(alloc, core)?;
    let tables = core.document().tables();
    let first = DocumentShot::start(alloc, tables.copy(alloc)?, &operation)?;
    let second = DocumentShot::start(alloc, tables.copy(alloc)?, &operation)?;
    Ok((first, second))
}

// What became of the values of formula cells by a bundle that led to the document.
fn values_after(
    alloc: Global,
    doc: &Doc<ColumnTables>,
    change: &LastChange,
) -> Result<CellChanges, AllocError>
    requires { IsWhole doc.now }
    ensures leads { IfOk result
        (λ c. (s : Document) → IsChange s doc.now change.now → LeadOn s doc.now c) }
    ensures beside { IfOk result (λ c. length c.values.items ≡ length c.cells.items) }
{
    match change.steps_of_records(alloc)? {
        Some(steps) => changes_of_rows(alloc, doc, steps.as_slice()),
        None => changes_anew(alloc, doc),
    }
}

// What a bundle did that led to the document.
fn changes_by(
    alloc: Global,
    doc: &Doc<ColumnTables>,
    change: &LastChange,
) -> Result<DocumentChanges, AllocError>
    requires { IsWhole doc.now }
    ensures leads { IfOk result
        (λ c. (s : Document) → IsChange s doc.now change.now → LeadTo s doc.now c) }
    ensures beside { IfOk result (λ c. length c.cells.values.items ≡ length c.cells.cells.items) }
{
    let actions = copy_of_actions(alloc, change.actions())?;
    let cells = values_after(alloc, doc, change)?;
    Ok(DocumentChanges { actions, cells })
}

// No actions, and no cell that holds something else.
fn no_changes(alloc: Global) -> DocumentChanges
    ensures leads { (s : Document) → LeadTo s s result }
    ensures beside { length result.cells.values.items ≡ length result.cells.cells.items }
{
    DocumentChanges {
        actions: DocActionList::new(alloc),
        cells: CellChanges {
            anew: false,
            cells: Vec::new(alloc),
            values: Vec::new(alloc),
            gone: Vec::new(alloc),
        },
    }
}

// What the last entry of a core did to its document.
fn last_changes<K: Keeper>(alloc: Global, core: &Core<K>) -> Result<DocumentChanges, AllocError>
    ensures leads { IfOk result (λ c. (before : List Entry) (e : Entry)
        → core.now.state.history ≡ before ++ e ∷ []
        → LeadTo (state_at (past_before core.now.state before)).document
        (state_now core.now.state).document c) }
    ensures beside { IfOk result (λ c. length c.cells.values.items ≡ length c.cells.cells.items) }
{
    match core.last_change() {
        Some(change) => changes_by(alloc, core.document(), change),
        None => Ok(no_changes(alloc)),
    }
}

/// What the last entry of a core did, with the history that it led to.
///
/// Errors: out of memory.
/// Cost: that of copying the open sessions and the bundle's actions; for a bundle of records, the
/// rows that it touched; for any other bundle, and for one after which its steps had to be done
/// again, all formula cells.
pub fn last_operation<K: Keeper>(alloc: Global, core: &Core<K>) -> Result<DocumentOp, AllocError>
    ensures past { IfOk result (λ op. op.past ≡ core.now.state) }
    ensures leads { IfOk result (λ op. (before : List Entry) (e : Entry)
        → core.now.state.history ≡ before ++ e ∷ []
        → Leads (past_before core.now.state before) op) }
{
    let changes = last_changes(alloc, core)?;
    let sessions = open_sessions(alloc, core)?;
    Ok(DocumentOp {
        changes,
        sessions,
        entries: core.history().len() as u64,
        past: core.past(),
    })
}
