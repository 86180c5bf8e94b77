//! Plan: ten thousand random changes, each done, taken back and done again; after each of these the
//! document tells of each cell what one tells that was started over the same tables, and none of
//! them evaluates the whole document (`cells_are_as_from_the_start`). Out of memory counts as
//! false.

ghost use Rattle.std.specs.Prelude.{◌≡◌};
ghost use Rattle.doc_model.specs.Document.{Document};
ghost use Rattle.doc_model.specs.DocumentLaws.{IsWhole};

use crate::changes::{change, opening};
use crate::counting::change_alone;
use crate::draws::Draws;
use cell_types::{Name, Same};
use doc_model::laws::new_document_law;
use doc_model::{ColDef, DocAction, DocReader};
use evaluated_doc::{ChangeFault, Doc};
use row_tables::RowTables;
use std::alloc::{AllocError, Global};
use std::marker::Brand;
use std::sync::ledger::Blank;
use std::thread::Threads;

const CHANGES: u32 = 10_000;

// More than the document ever has.
const MOST_TABLES: usize = 7;

const MOST_COLUMNS: usize = 16;

// Whether both tell the same of the column in these rows.
fn is_column_same<L: DocReader, R: DocReader>(
    left: &L,
    right: &R,
    table: &Name,
    column: &ColDef,
    rows: &[u32],
) -> bool {
    rows.iter().all(|row| {
        match (
            left.cell(table, &column.id, *row),
            right.cell(table, &column.id, *row),
        ) {
            (Some(one), Some(other)) => one.same_as(other),
            _ => false,
        }
    })
}

// Whether both have the column at that index of the table or neither, and tell the same of it in
// these rows.
fn is_same_at<L: DocReader, R: DocReader>(
    left: &L,
    right: &R,
    table: &Name,
    index: usize,
    rows: &[u32],
) -> bool {
    match (left.column(table, index), right.column(table, index)) {
        (Some(column), Some(_)) => is_column_same(left, right, table, column, rows),
        (None, None) => true,
        _ => false,
    }
}

// Whether both tell the same of the first columns of the table.
fn is_table_same<L: DocReader, R: DocReader>(left: &L, right: &R, table: &Name) -> bool {
    match (left.rows(table), right.rows(table)) {
        (Some(rows), Some(others)) => {
            rows == others
                && (0..MOST_COLUMNS).all(|index| is_same_at(left, right, table, index, rows))
        }
        _ => false,
    }
}

// Whether both tell the same of each cell of the first tables.
fn are_same<L: DocReader, R: DocReader>(left: &L, right: &R) -> bool {
    (0..MOST_TABLES).all(|index| match (left.table(index), right.table(index)) {
        (Some(table), Some(_)) => is_table_same(left, right, table),
        (None, None) => true,
        _ => false,
    })
}

fn started<R: Threads + Sync>(
    rt: &R,
    alloc: Global,
    tables: &RowTables,
) -> Result<Doc<RowTables>, AllocError>
    requires { IsWhole tables.now }
{
    let copy = tables.copy(alloc)?;
    Doc::start(rt, alloc, copy)
}

// Whether the document tells what one tells that is started over its tables.
fn is_as_started<R: Threads + Sync>(rt: &R, alloc: Global, doc: &Doc<RowTables>) -> bool {
    match started(rt, alloc, doc.tables()) {
        Ok(fresh) => are_same(doc, &fresh),
        Err(_) => false,
    }
}

// Whether the action was done; nothing where memory is wanting, all cells were evaluated, or a cell
// is not as it has to be, after the action, after it was taken back, and after it was done again.
fn play<R: Threads + Sync>(
    rt: &R,
    alloc: Global,
    doc: &mut Doc<RowTables>,
    action: &DocAction,
) -> Option<bool> {
    match change_alone::<RowTables, Brand>(alloc, doc, action, Blank::new(1)) {
        Ok(trace) => {
            let is_right = !trace.is_whole() && is_as_started(rt, alloc, &*doc);
            doc.go_back(trace);
            if is_right
                && is_as_started(rt, alloc, &*doc)
                && is_done(rt, alloc, doc, action, false)
            {
                Some(true)
            } else {
                None
            }
        }
        Err(ChangeFault::Invalid) => Some(false),
        Err(ChangeFault::NoMemory) => None,
    }
}

/// Whether the action was done, and the document is then as it has to be; also where it evaluated
/// the whole document, if it may.
pub(crate) fn is_done<R: Threads + Sync>(
    rt: &R,
    alloc: Global,
    doc: &mut Doc<RowTables>,
    action: &DocAction,
    may_be_whole: bool,
) -> bool {
    match change_alone::<RowTables, Brand>(alloc, doc, action, Blank::new(1)) {
        Ok(trace) => {
            let is_right = may_be_whole || !trace.is_whole();
            drop(trace);
            is_right && is_as_started(rt, alloc, &*doc)
        }
        Err(_) => false,
    }
}

fn play_next<R: Threads + Sync>(
    rt: &R,
    alloc: Global,
    doc: &mut Doc<RowTables>,
    draws: &mut Draws,
) -> Option<bool> {
    match change(alloc, draws) {
        Ok(action) => play(rt, alloc, doc, &action),
        Err(_) => None,
    }
}

fn is_opened_by<R: Threads + Sync>(
    rt: &R,
    alloc: Global,
    doc: &mut Doc<RowTables>,
    number: u32,
) -> bool {
    match opening(alloc, number) {
        // The first formula affects all.
        Ok(action) => is_done(rt, alloc, doc, &action, number < 2),
        Err(_) => false,
    }
}

fn is_opened<R: Threads + Sync>(rt: &R, alloc: Global, doc: &mut Doc<RowTables>) -> bool {
    for number in 0..10 {
        if !is_opened_by(rt, alloc, doc, number) {
            return false;
        }
    }
    true
}

// How many changes were done, of so many that were drawn, until there were enough; none where one
// went wrong.
fn played<R: Threads + Sync>(
    rt: &R,
    alloc: Global,
    doc: &mut Doc<RowTables>,
    drawn: u32,
) -> Option<u32> {
    let mut draws = Draws::new(1);
    let mut done = 0u32;
    for _turn in 0..drawn {
        if done < CHANGES && play_next(rt, alloc, doc, &mut draws)? {
            done = done.saturating_add(1);
        }
    }
    Some(done)
}

/// The new document.
pub(crate) fn new_doc<R: Threads + Sync>(
    rt: &R,
    alloc: Global,
) -> Result<Doc<RowTables>, AllocError> {
    new_document_law();
    let tables = RowTables::new_document(alloc)?;
    Doc::start(rt, alloc, tables)
}

// How many changes were done; none where one went wrong.
fn played_from_new<R: Threads + Sync>(rt: &R, alloc: Global) -> Option<u32> {
    match new_doc(rt, alloc) {
        Ok(mut doc) => {
            if is_opened(rt, alloc, &mut doc) {
                played(rt, alloc, &mut doc, 4 * CHANGES)
            } else {
                None
            }
        }
        Err(_) => None,
    }
}

#[test]
fn cells_are_as_from_the_start(rt: HostRuntime) {
    let done = played_from_new(&rt, rt.alloc());
    assert!(rt; done.is_some());
    assert!(rt; done == Some(CHANGES));
}
