//! Plan: each of the ten actions from a new document with two records, taken back, done again, and
//! its inverse (`record_actions_are_done_and_undone`, and so of tables and columns); the traps of
//! order, where a wrong index would still be a document (`removed_tables_come_back_in_their_place`,
//! `middle_columns_come_back_with_their_cells`); what is not valid
//! (`what_is_not_valid_changes_nothing`). Readings have the form of reading.rt and were worked out
//! by hand from docs/DEFINITIONS.md. Out of memory counts as false.

ghost use Rattle.std.specs.Prelude.{IfOk};
ghost use Rattle.doc_model.specs.DocumentLaws.{IsWhole};

use crate::actions::{Change, action_of};
use crate::reading::reads_as;
use Change::{
    Add, AddColumn, AddTable, ModifyColumn, Remove, RemoveColumn, RemoveTable, RenameColumn,
    RenameTable, Update,
};
use Deed::{Done, Invalid, Undone};
use action_inverse::inverse;
use doc_actions::{ApplyFault, apply, is_valid};
use doc_model::laws::new_document_law;
use doc_model::{DocAction, DocActionList, DocTables};
use row_tables::{RowBack, RowTables};
use std::alloc::{AllocError, Global};

// A letter for what came of an action: done, invalid, no memory.
fn letter(outcome: &Result<RowBack, ApplyFault>) -> char {
    match outcome {
        Ok(_) => 'd',
        Err(ApplyFault::Invalid) => 'i',
        Err(_) => '!',
    }
}

fn outcome(alloc: Global, document: &mut RowTables, action: &DocAction) -> char
    requires { IsWhole document.old }
    ensures { IsWhole document.new }
{
    letter(&apply(alloc, document, action))
}

fn is_done(alloc: Global, document: &mut RowTables, action: &DocAction) -> bool
    requires { IsWhole document.old }
    ensures { IsWhole document.new }
{
    outcome(alloc, document, action) == 'd'
}

// Whether each of the actions was done.
fn are_done(alloc: Global, document: &mut RowTables, actions: &DocActionList) -> bool
    requires { IsWhole document.old }
    ensures { IsWhole document.new }
{
    for action in actions.as_slice() {
        if !is_done(alloc, document, action) {
            return false;
        }
    }
    true
}

// What undoes the action, where it is valid.
fn undoing(
    alloc: Global,
    document: &RowTables,
    action: &DocAction,
) -> Result<DocActionList, AllocError>
    requires { IsWhole document.now }
{
    if is_valid(alloc, document, action) {
        inverse(alloc, document, action)
    } else {
        Err(AllocError)
    }
}

// Whether the action was done, and taken back without memory.
fn is_taken_back(alloc: Global, document: &mut RowTables, action: &DocAction) -> bool
    requires { IsWhole document.old }
    ensures { IsWhole document.new }
{
    match apply(alloc, document, action) {
        Ok(back) => {
            document.take_back(back);
            true
        }
        Err(_) => false,
    }
}

fn are_made_done(
    alloc: Global,
    document: &mut RowTables,
    actions: &Result<DocActionList, AllocError>,
) -> bool
    requires { IsWhole document.old }
    ensures { IsWhole document.new }
{
    match actions {
        Ok(actions) => are_done(alloc, document, actions),
        Err(_) => false,
    }
}

// Whether the document reads so after the action, which these undo then.
fn is_inverse(
    alloc: Global,
    document: &mut RowTables,
    action: &DocAction,
    back: &Result<DocActionList, AllocError>,
    after: &str,
) -> bool
    requires { IsWhole document.old }
    ensures { IsWhole document.new }
{
    is_done(alloc, document, action)
        && reads_as(alloc, document, after)
        && are_made_done(alloc, document, back)
}

// Whether the document reads so after the action, which is undone then.
fn is_inverted(alloc: Global, document: &mut RowTables, action: &DocAction, after: &str) -> bool
    requires { IsWhole document.old }
    ensures { IsWhole document.new }
{
    let back = undoing(alloc, document, action);
    is_inverse(alloc, document, action, &back, after)
}

// Whether the document reads so after the action, and as before both when the action is taken back
// and after its inverse.
fn is_undone(
    alloc: Global,
    document: &mut RowTables,
    action: &DocAction,
    before: &str,
    after: &str,
) -> bool
    requires { IsWhole document.old }
    ensures { IsWhole document.new }
{
    is_taken_back(alloc, document, action)
        && reads_as(alloc, document, before)
        && is_inverted(alloc, document, action, after)
        && reads_as(alloc, document, before)
}

/// What an action has to come to: it is done, it is told to be not valid, or it is undone where the
/// document reads so before and after it.
#[derive(Clone, Copy)]
pub(crate) enum Deed {
    Done,
    Invalid,
    Undone(&'static str, &'static str),
}

fn meets(alloc: Global, document: &mut RowTables, action: &DocAction, deed: Deed) -> bool
    requires { IsWhole document.old }
    ensures { IsWhole document.new }
{
    match deed {
        Done => is_done(alloc, document, action),
        Invalid => outcome(alloc, document, action) == 'i',
        Undone(before, after) => is_undone(alloc, document, action, before, after),
    }
}

/// The action that the words stand for, as a list: one way out that drops a list is proved sooner
/// than one that drops an action.
pub(crate) fn single(alloc: Global, change: &Change) -> Result<DocActionList, AllocError> {
    let mut actions = DocActionList::new(alloc);
    actions.push(action_of(alloc, change)?)?;
    Ok(actions)
}

fn one_meets(alloc: Global, document: &mut RowTables, actions: &[DocAction], deed: Deed) -> bool
    requires { IsWhole document.old }
    ensures { IsWhole document.new }
{
    if actions.len() == 1 {
        meets(alloc, document, &actions[0], deed)
    } else {
        false
    }
}

// Whether the action was made, and this comes of it.
fn is_made(
    alloc: Global,
    document: &mut RowTables,
    actions: &Result<DocActionList, AllocError>,
    deed: Deed,
) -> bool
    requires { IsWhole document.old }
    ensures { IsWhole document.new }
{
    match actions {
        Ok(actions) => one_meets(alloc, document, actions.as_slice(), deed),
        Err(_) => false,
    }
}

/// Whether this comes of the action that the words stand for.
pub(crate) fn does(alloc: Global, document: &mut RowTables, change: &Change, deed: Deed) -> bool
    requires { IsWhole document.old }
    ensures { IsWhole document.new }
{
    is_made(alloc, document, &single(alloc, change), deed)
}

/// Whether each of these changes was done.
pub(crate) fn are_all_done(alloc: Global, document: &mut RowTables, changes: &[Change]) -> bool
    requires { IsWhole document.old }
    ensures { IsWhole document.new }
{
    for change in changes {
        if !does(alloc, document, change, Done) {
            return false;
        }
    }
    true
}

static RECORDS: Change = Add("Table1", [1, 2], "A", [5, 6]);

// How the new document reads with those records.
const READING: &str = "T 1; C 1 2 3; Table1 A B C; 1: 5 - -; 2: 6 - -";

// The new document with two records.
fn two_records(alloc: Global) -> Result<RowTables, AllocError>
    ensures { IfOk result (λ document. IsWhole document) }
{
    new_document_law();
    let mut document = RowTables::new_document(alloc)?;
    if does(alloc, &mut document, &RECORDS, Done) {
        Ok(document)
    } else {
        Err(AllocError)
    }
}

// Actions, and how the document with two records reads after each.
type Row = (Change, &'static str);

static RECORD_ACTIONS: [Row; 3] = [
    (
        Add("Table1", [4, 3], "B", [40, 30]),
        "T 1; C 1 2 3; Table1 A B C; 1: 5 - -; 2: 6 - -; 3: - 30 -; 4: - 40 -",
    ),
    (
        Update("Table1", [2, 1], "A", [60, 50]),
        "T 1; C 1 2 3; Table1 A B C; 1: 50 - -; 2: 60 - -",
    ),
    (Remove("Table1", [2, 1]), "T 1; C 1 2 3; Table1 A B C"),
];

static TABLE_ACTIONS: [Row; 3] = [
    (
        AddTable("Table2", 2, 7, 9),
        "T 1 2; C 1 2 3 7 9; Table1 A B C; 1: 5 - -; 2: 6 - -; Table2 X Y",
    ),
    (RemoveTable("Table1"), "T; C"),
    (
        RenameTable("Table1", "Plants"),
        "T 1; C 1 2 3; Plants A B C; 1: 5 - -; 2: 6 - -",
    ),
];

static COLUMN_ACTIONS: [Row; 4] = [
    (
        AddColumn("Table1", "D", 4),
        "T 1; C 1 2 3 4; Table1 A B C D; 1: 5 - - -; 2: 6 - - -",
    ),
    (
        RemoveColumn("Table1", "A"),
        "T 1; C 2 3; Table1 B C; 1: - -; 2: - -",
    ),
    (
        RenameColumn("Table1", "A", "Height"),
        "T 1; C 1 2 3; Table1 Height B C; 1: 5 - -; 2: 6 - -",
    ),
    (
        ModifyColumn("Table1", "C", "$A"),
        "T 1; C 1 2 3; Table1 A B C=$A; 1: 5 - -; 2: 6 - -",
    ),
];

// Whether each action is undone before the next.
fn go_and_come(alloc: Global, document: &mut RowTables, rows: &[Row]) -> bool
    requires { IsWhole document.old }
    ensures { IsWhole document.new }
{
    for row in rows {
        if !does(alloc, document, &row.0, Undone(READING, row.1)) {
            return false;
        }
    }
    true
}

fn are_undone(alloc: Global, rows: &[Row]) -> bool {
    let Ok(mut document) = two_records(alloc) else {
        return false;
    };
    go_and_come(alloc, &mut document, rows)
}

#[test]
fn record_actions_are_done_and_undone(rt: HostRuntime) {
    assert!(rt; are_undone(rt.alloc(), &RECORD_ACTIONS));
}

#[test]
fn table_actions_are_done_and_undone(rt: HostRuntime) {
    assert!(rt; are_undone(rt.alloc(), &TABLE_ACTIONS));
}

#[test]
fn column_actions_are_done_and_undone(rt: HostRuntime) {
    assert!(rt; are_undone(rt.alloc(), &COLUMN_ACTIONS));
}

// Whether the document reads so after the first action, and so after the second, which is undone.
fn is_trap_passed(alloc: Global, first: &Row, second: &Row) -> bool {
    let Ok(mut document) = two_records(alloc) else {
        return false;
    };
    does(alloc, &mut document, &first.0, Done)
        && reads_as(alloc, &document, first.1)
        && does(alloc, &mut document, &second.0, Undone(first.1, second.1))
}

static TABLE_BEHIND: Row = (
    AddTable("Table2", 5, 8, 6),
    "T 1 5; C 1 2 3 6 8; Table1 A B C; 1: 5 - -; 2: 6 - -; Table2 Y X",
);

static FIRST_TABLE: Row = (RemoveTable("Table1"), "T 5; C 6 8; Table2 Y X");

static CELLS: Row = (
    Update("Table1", [2, 1], "B", [20, 10]),
    "T 1; C 1 2 3; Table1 A B C; 1: 5 10 -; 2: 6 20 -",
);

static MIDDLE_COLUMN: Row = (
    RemoveColumn("Table1", "B"),
    "T 1; C 1 3; Table1 A C; 1: 5 -; 2: 6 -",
);

#[test]
fn removed_tables_come_back_in_their_place(rt: HostRuntime) {
    assert!(rt; is_trap_passed(rt.alloc(), &TABLE_BEHIND, &FIRST_TABLE));
}

#[test]
fn middle_columns_come_back_with_their_cells(rt: HostRuntime) {
    assert!(rt; is_trap_passed(rt.alloc(), &CELLS, &MIDDLE_COLUMN));
}

// Rows that repeat, that are not there, that are, row 0, and a schema table.
static INVALID_RECORDS: [Change; 5] = [
    Remove("Table1", [2, 2]),
    Update("Table1", [2, 3], "A", [1, 1]),
    Add("Table1", [3, 2], "A", [1, 1]),
    Add("Table1", [0, 3], "A", [1, 1]),
    Remove("_grist_Tables", [1, 2]),
];

// A metadata table, a taken metadata row, a reserved word, a formula over values, and an id that is
// there.
static INVALID_SCHEMA: [Change; 5] = [
    AddColumn("_grist_ACLRules", "D", 4),
    AddColumn("Table1", "D", 3),
    RenameColumn("Table1", "A", "id"),
    ModifyColumn("Table1", "A", "1"),
    RenameTable("Table1", "Table1"),
];

// Whether each of the actions is told to be not valid.
fn are_refused(alloc: Global, document: &mut RowTables, changes: &[Change]) -> bool
    requires { IsWhole document.old }
    ensures { IsWhole document.new }
{
    for change in changes {
        if !does(alloc, document, change, Invalid) {
            return false;
        }
    }
    true
}

// Whether all of these are refused, and the document then reads as before.
fn refuses(alloc: Global, changes: &[Change]) -> bool {
    let Ok(mut document) = two_records(alloc) else {
        return false;
    };
    are_refused(alloc, &mut document, changes) && reads_as(alloc, &document, READING)
}

#[test]
fn what_is_not_valid_changes_nothing(rt: HostRuntime) {
    assert!(rt; refuses(rt.alloc(), &INVALID_RECORDS));
    assert!(rt; refuses(rt.alloc(), &INVALID_SCHEMA));
}
