//! Plan: what user actions come to in documents that accepted bundles do not lead to. A table is
//! wider than it may be: keeping and growing actions are past the limit
//! (`brings_nothing_above_the_limits`), and so are those that take something else away, not those
//! that take what is too much (`takes_away_what_is_above_the_limits`). The last row id is taken, of
//! a record or of a row that describes a column (`no_record_comes_behind_the_last_row`,
//! `no_column_comes_behind_the_last_row`). The limit after one document action, from the tally
//! before it (`one_action_passes_its_limit`). An end is the bound of the limit that would be
//! passed, 0 for steps; what is refused has none. Out of memory counts as false.

ghost use Rattle.doc_model.specs.DocumentLaws.{IsWhole};

use crate::actions::Change;
use crate::asked::{Asked, may_be_done, user_action};
use crate::tests::{Deed, does, single};
use Asked::{
    AddColumn, AddFullTable, AddRecord, AddTable, RemoveColumn, RemoveRecord, RemoveTable,
    RenameTable,
};
use action_limits::{Expansion, Tally, expand};
use doc_actions::is_valid;
use doc_model::laws::new_document_law;
use doc_model::{DocAction, DocActionList, LimitKind, UserAction};
use row_tables::RowTables;
use std::alloc::{AllocError, Global};

fn is_end(expansion: &Result<Expansion, AllocError>, end: u64) -> bool {
    match expansion {
        Ok(Expansion::Steps { .. }) => end == 0,
        Ok(Expansion::Limit(kind)) => kind.bound() == end,
        Err(_) => false,
    }
}

fn ends_at(alloc: Global, document: &RowTables, action: &UserAction, end: u64) -> bool
    requires { IsWhole document.now }
{
    if !may_be_done(alloc, document, action) {
        return false;
    }
    let Some(tally) = Tally::of(document) else {
        return false;
    };
    is_end(&expand(alloc, document, tally, action), end)
}

// User actions and their ends.
type Row = (Asked, u64);

// Whether the action was made, and has this end.
fn is_so(
    alloc: Global,
    document: &RowTables,
    action: &Result<UserAction, AllocError>,
    end: u64,
) -> bool
    requires { IsWhole document.now }
{
    match action {
        Ok(action) => ends_at(alloc, document, action, end),
        Err(_) => false,
    }
}

fn is_row(alloc: Global, document: &RowTables, row: &Row) -> bool
    requires { IsWhole document.now }
{
    is_so(alloc, document, &user_action(alloc, &row.0), row.1)
}

fn are_rows(alloc: Global, document: &RowTables, rows: &[Row]) -> bool
    requires { IsWhole document.now }
{
    for row in rows {
        if !is_row(alloc, document, row) {
            return false;
        }
    }
    true
}

// Whether the actions have these ends in a new document after another action.
fn come_to(alloc: Global, before: &Change, rows: &[Row]) -> bool {
    new_document_law();
    let Ok(mut document) = RowTables::new_document(alloc) else {
        return false;
    };
    does(alloc, &mut document, before, Deed::Done) && are_rows(alloc, &document, rows)
}

// Actions that keep the maxima of a document, or bring more.
static BRINGING: [Row; 4] = [
    (RenameTable("Table1", "Other"), 1024),
    (AddRecord, 1024),
    (AddTable, 1024),
    (AddColumn, 1024),
];

#[test]
fn brings_nothing_above_the_limits(rt: HostRuntime) {
    assert!(rt; come_to(rt.alloc(), &Change::AddWideTable, &BRINGING));
}

// Actions that take a column or a table away.
static TAKING: [Row; 4] = [
    (RemoveColumn("Table1", "A"), 1024),
    (RemoveColumn("Wide", "C1"), 0),
    (RemoveTable("Table1"), 1024),
    (RemoveTable("Wide"), 0),
];

#[test]
fn takes_away_what_is_above_the_limits(rt: HostRuntime) {
    assert!(rt; come_to(rt.alloc(), &Change::AddWideTable, &TAKING));
}

static LAST_RECORD: Change = Change::Add("Table1", [1, 4_294_967_295], "A", [1, 2]);

static RECORDS: [Row; 2] = [
    (AddRecord, 4_294_967_295),
    (RemoveRecord("Table1", 4_294_967_295), 0),
];

#[test]
fn no_record_comes_behind_the_last_row(rt: HostRuntime) {
    assert!(rt; come_to(rt.alloc(), &LAST_RECORD, &RECORDS));
}

static LAST_COLUMN: Change = Change::AddColumn("Table1", "Z", 4_294_967_295);

static METADATA_ROWS: [Row; 3] = [
    (AddColumn, 4_294_967_295),
    (AddFullTable, 4_294_967_295),
    (AddTable, 0),
];

#[test]
fn no_column_comes_behind_the_last_row(rt: HostRuntime) {
    assert!(rt; come_to(rt.alloc(), &LAST_COLUMN, &METADATA_ROWS));
}

fn is_passed(after: &Result<Tally, LimitKind>, bound: u64) -> bool {
    match after {
        Ok(_) => bound == 0,
        Err(kind) => kind.bound() == bound,
    }
}

fn passes(alloc: Global, document: &RowTables, action: &DocAction, bound: u64) -> bool
    requires { IsWhole document.now }
{
    let Some(tally) = Tally::of(document) else {
        return false;
    };
    is_valid(alloc, document, action) && is_passed(&tally.after(document, action), bound)
}

// Whether each of the actions passes the limit of this bound, or none where it is 0.
fn all_pass(alloc: Global, document: &RowTables, actions: &[DocAction], bound: u64) -> bool
    requires { IsWhole document.now }
{
    for action in actions {
        if !passes(alloc, document, action, bound) {
            return false;
        }
    }
    true
}

fn made_passes(alloc: Global, actions: &Result<DocActionList, AllocError>, bound: u64) -> bool {
    new_document_law();
    let Ok(document) = RowTables::new_document(alloc) else {
        return false;
    };
    match actions {
        Ok(actions) => all_pass(alloc, &document, actions.as_slice(), bound),
        Err(_) => false,
    }
}

// Document actions, and the bound of the limit that each passes in a new document.
static FIRST: [(Change, u64); 3] = [
    (Change::AddWideTable, 1024),
    (Change::Add("Table1", [1, 4_294_967_295], "A", [1, 2]), 0),
    (Change::RemoveTable("Table1"), 0),
];

#[test]
fn one_action_passes_its_limit(rt: HostRuntime) {
    for row in &FIRST {
        assert!(rt;
            made_passes(rt.alloc(), &single(rt.alloc(), &row.0), row.1),
            "not {}",
            row.1
        );
    }
}
