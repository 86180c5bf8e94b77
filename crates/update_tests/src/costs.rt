//! Plan: how often changes of documents of ten thousand rows ask the store for a cell
//! (`changes_ask_for_what_they_affect`): an edit at the end of a chain, one at its start, a value
//! that lookups sum up, and a key by which they find it; first ones after a change that was taken
//! back, which leaves nothing to attempt. Evaluation afresh asks for each cell that a formula
//! reads, and an index made anew for each cell of its column, so both would show. And that a
//! touched cell is evaluated anew with those that it affects, and no others
//! (`touched_cells_are_evaluated_anew`).
//! Out of memory counts as false.

ghost use Rattle.std.specs.Prelude.{◌≡◌};

use crate::changes::{modify, name};
use crate::counted::CountedTables;
use crate::counting::change_alone;
use cell_types::{CellId, CellIdList, CellValue, ReadList, RowList, ValueList};
use doc_model::laws::new_document_law;
use doc_model::{CellColumn, ColumnList, DocAction, DocReader};
use evaluated_doc::{Doc, Touched};
use std::alloc::{AllocError, Global};
use std::marker::Brand;
use std::sync::ledger::Blank;
use std::thread::Threads;

const ROWS: u32 = 10_000;

// Each key stands in fifty rows.
const KEYS: u32 = 200;

fn each_row(alloc: Global) -> Result<RowList, AllocError> {
    let mut rows = Vec::new(alloc);
    for row in 1..=ROWS {
        rows.push(row)?;
    }
    Ok(RowList::from(rows))
}

// The key of a row.
fn key(row: u32) -> CellValue {
    CellValue::Int(i64::from(row % KEYS))
}

fn each_key(alloc: Global) -> Result<ValueList, AllocError> {
    let mut values = ValueList::new(alloc);
    for row in 1..=ROWS {
        values.push(key(row))?;
    }
    Ok(values)
}

fn ones(alloc: Global) -> Result<ValueList, AllocError> {
    let mut values = ValueList::new(alloc);
    for _row in 1..=ROWS {
        values.push(CellValue::Int(1))?;
    }
    Ok(values)
}

fn cell_column(alloc: Global, id: &str, values: ValueList) -> Result<CellColumn, AllocError> {
    let id = name(alloc, id)?;
    Ok(CellColumn { id, values })
}

// The rows, each with its key in `A` and one in `B`.
fn add_all(alloc: Global) -> Result<DocAction, AllocError> {
    let table = name(alloc, "Table1")?;
    let rows = each_row(alloc)?;
    let mut columns = ColumnList::new(alloc);
    columns.push(cell_column(alloc, "A", each_key(alloc)?)?)?;
    columns.push(cell_column(alloc, "B", ones(alloc)?)?)?;
    Ok(DocAction::BulkAdd {
        table,
        rows,
        columns,
    })
}

fn write(alloc: Global, column: &str, row: u32, value: i64) -> Result<DocAction, AllocError> {
    let table = name(alloc, "Table1")?;
    let mut rows = Vec::new(alloc);
    rows.push(row)?;
    let mut values = ValueList::new(alloc);
    values.push(CellValue::Int(value))?;
    let mut columns = ColumnList::new(alloc);
    columns.push(cell_column(alloc, column, values)?)?;
    Ok(DocAction::BulkUpdate {
        table,
        rows: RowList::from(rows),
        columns,
    })
}

fn is_done(
    alloc: Global,
    doc: &mut Doc<CountedTables>,
    action: Result<DocAction, AllocError>,
) -> bool {
    match action {
        Ok(action) => {
            change_alone::<CountedTables, Brand>(alloc, doc, &action, Blank::new(1)).is_ok()
        }
        Err(_) => false,
    }
}

// Whether the action was done and taken back.
fn is_taken_back(
    alloc: Global,
    doc: &mut Doc<CountedTables>,
    action: Result<DocAction, AllocError>,
) -> bool {
    let Ok(action) = action else {
        return false;
    };
    match change_alone::<CountedTables, Brand>(alloc, doc, &action, Blank::new(1)) {
        Ok(trace) => {
            doc.go_back(trace);
            true
        }
        Err(_) => false,
    }
}

// A document of all rows, with this formula in `C`, where a first change was made.
fn loaded<R: Threads + Sync>(rt: &R, alloc: Global, formula: &str) -> Option<Doc<CountedTables>> {
    new_document_law();
    let tables = CountedTables::new_document(alloc).ok()?;
    let mut doc = Doc::start(rt, alloc, tables).ok()?;
    if is_done(alloc, &mut doc, add_all(alloc))
        && is_done(alloc, &mut doc, modify(alloc, "C", formula))
        && is_done(alloc, &mut doc, write(alloc, "B", 5_000, 2))
    {
        Some(doc)
    } else {
        None
    }
}

// How often a cell is asked for by a change that writes this value.
fn asked(
    alloc: Global,
    doc: &mut Doc<CountedTables>,
    column: &str,
    row: u32,
    value: i64,
) -> Option<u64> {
    let before = doc.tables().asked();
    if is_done(alloc, doc, write(alloc, column, row, value)) {
        Some(doc.tables().asked().wrapping_sub(before))
    } else {
        None
    }
}

// Whether the cell of `C` is this.
fn is_cell(alloc: Global, doc: &Doc<CountedTables>, row: u32, value: i64) -> bool {
    match (name(alloc, "Table1"), name(alloc, "C")) {
        (Ok(table), Ok(column)) => match doc.cell(&table, &column, row) {
            Some(CellValue::Int(found)) => *found == value,
            _ => false,
        },
        _ => false,
    }
}

fn is_most(asked: Option<u64>, most: u64) -> bool {
    match asked {
        Some(asked) => asked <= most,
        None => false,
    }
}

// An edit of the last row but one changes two cells, one of the first row changes all.
fn is_chain_cheap<R: Threads + Sync>(rt: &R, alloc: Global) -> bool {
    let Some(mut doc) = loaded(
        rt,
        alloc,
        "IF($id == 1, 0, Table1.lookupOne(id=$id - 1).C) + $B",
    ) else {
        return false;
    };
    let is_back = is_taken_back(alloc, &mut doc, write(alloc, "B", 9_990, 8));
    let end = asked(alloc, &mut doc, "B", 9_999, 5);
    let is_end = is_back
        && is_cell(alloc, &doc, 9_998, 9_999)
        && is_cell(alloc, &doc, 9_999, 10_004)
        && is_cell(alloc, &doc, 10_000, 10_005);
    let start = asked(alloc, &mut doc, "B", 1, 3);
    is_end && is_cell(alloc, &doc, 10_000, 10_007) && is_most(end, 10) && is_most(start, 10_100)
}

// A summed value changes fifty sums of fifty values, a key a hundred.
fn are_sums_cheap<R: Threads + Sync>(rt: &R, alloc: Global) -> bool {
    let Some(mut doc) = loaded(rt, alloc, "SUM(Table1.lookupRecords(A=$A).B)") else {
        return false;
    };
    let is_back = is_taken_back(alloc, &mut doc, write(alloc, "B", 1, 8));
    let value = asked(alloc, &mut doc, "B", 1, 5);
    let is_value = is_back && is_cell(alloc, &doc, 201, 54) && is_cell(alloc, &doc, 202, 50);
    let key = asked(alloc, &mut doc, "A", 1, 2);
    is_value
        && is_cell(alloc, &doc, 201, 49)
        && is_cell(alloc, &doc, 202, 55)
        && is_most(value, 5_100)
        && is_most(key, 10_200)
}

#[test]
fn changes_ask_for_what_they_affect(rt: HostRuntime) {
    assert!(rt; is_chain_cheap(&rt, rt.alloc()));
    assert!(rt; are_sums_cheap(&rt, rt.alloc()));
}

// A cell of `C` that may have changed, and nothing else.
fn touched_cell(alloc: Global, row: u32) -> Result<Touched, AllocError> {
    let table = name(alloc, "Table1")?;
    let column = name(alloc, "C")?;
    let mut cells = CellIdList::new(alloc);
    cells.push(CellId { table, column, row })?;
    Ok(Touched {
        reads: ReadList::new(alloc),
        cells,
    })
}

// How often a cell is asked for where that cell, and what it affects, is evaluated anew.
fn asked_anew(alloc: Global, doc: &mut Doc<CountedTables>, row: u32) -> Option<u64> {
    let before = doc.tables().asked();
    let touched = touched_cell(alloc, row).ok()?;
    if doc.refresh(alloc, &touched).is_ok() {
        Some(doc.tables().asked().wrapping_sub(before))
    } else {
        None
    }
}

// Each of them reads a value of its row: the last one alone, the last two, and a hundred.
fn are_touched_cells_cheap<R: Threads + Sync>(rt: &R, alloc: Global) -> bool {
    let Some(mut doc) = loaded(
        rt,
        alloc,
        "IF($id == 1, 0, Table1.lookupOne(id=$id - 1).C) + $B",
    ) else {
        return false;
    };
    let last = asked_anew(alloc, &mut doc, 10_000);
    let two = asked_anew(alloc, &mut doc, 9_999);
    let hundred = asked_anew(alloc, &mut doc, 9_901);
    last == Some(1)
        && two == Some(2)
        && hundred == Some(100)
        && is_cell(alloc, &doc, 9_999, 10_000)
        && is_cell(alloc, &doc, 10_000, 10_001)
}

#[test]
fn touched_cells_are_evaluated_anew(rt: HostRuntime) {
    assert!(rt; are_touched_cells_cheap(&rt, rt.alloc()));
}
