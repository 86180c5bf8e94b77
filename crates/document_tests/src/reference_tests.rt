//! Plan: the steps of a user action where columns refer to its table: a record that goes
//! (`references_to_records_that_go_are_cleared`), a reference of the table to itself and a list
//! that goes empty among them, and a table that is renamed
//! (`columns_follow_a_renamed_table_by_id`), formula columns too. Steps have the form of `written`
//! and were worked out by hand from docs/DEFINITIONS.md. Out of memory counts as false.

ghost use Rattle.doc_model.specs.DocumentLaws.{IsWhole};

use crate::actions::{Change, Kind};
use crate::asked::{Asked, may_be_done, user_action};
use crate::reading::{is_text, write_value};
use crate::tests::are_all_done;
use Asked::{RemoveRecord, RenameTable};
use Change::{Add, AddTable, Define, UpdateList};
use Kind::{Any, Ref, RefList};
use cell_types::Name;
use doc_model::laws::new_document_law;
use doc_model::{CellColumn, ColInfo, DocAction, Step, StepList, UserAction, type_text};
use row_tables::RowTables;
use std::alloc::{AllocError, Global};
use user_actions::steps;

// Items refers to itself; Pairs refers to Items in a cell, in a list and by a formula.
static TABLES: [Change; 9] = [
    AddTable("Items", 2, 4, 5),
    AddTable("Pairs", 3, 6, 7),
    Define("Items", "Parent", 8, Ref("Items"), ""),
    Define("Pairs", "Links", 9, RefList("Items"), ""),
    Define("Pairs", "Link", 10, Ref("Items"), ""),
    Define("Pairs", "First", 11, Ref("Items"), "Items.lookupOne()"),
    Define("Pairs", "Other", 12, Ref("Pairs"), ""),
    Add("Items", [1, 2], "Parent", [2, 1]),
    Add("Pairs", [1, 2], "Link", [1, 2]),
];

static CELLS: [Change; 2] = [
    UpdateList("Pairs", 1, "Links", [1, 2]),
    UpdateList("Pairs", 2, "Links", [1, 1]),
];

fn write_column(alloc: Global, text: &mut String, column: &CellColumn) -> Result<(), AllocError> {
    write!(text, " {}:", column.id.as_str())?;
    for value in column.values.as_slice() {
        write_value(alloc, text, value)?;
    }
    Ok(())
}

fn write_rows(text: &mut String, word: &str, table: &Name, rows: &[u32]) -> Result<(), AllocError> {
    write!(text, "{word} {}", table.as_str())?;
    for row in rows {
        write!(text, " {row}")?;
    }
    Ok(())
}

fn write_update(
    alloc: Global,
    text: &mut String,
    table: &Name,
    rows: &[u32],
    columns: &[CellColumn],
) -> Result<(), AllocError> {
    write_rows(text, "update", table, rows)?;
    for column in columns {
        write_column(alloc, text, column)?;
    }
    Ok(())
}

fn write_info(
    alloc: Global,
    text: &mut String,
    table: &Name,
    column: &Name,
    info: &ColInfo,
) -> Result<(), AllocError> {
    let shown = type_text(alloc, &info.ty)?;
    write!(
        text,
        "modify {}.{} {}",
        table.as_str(),
        column.as_str(),
        shown.as_str()
    )?;
    if info.is_formula {
        write!(text, " ={}", info.formula.as_str())?;
    }
    Ok(())
}

fn write_action(alloc: Global, text: &mut String, action: &DocAction) -> Result<(), AllocError> {
    match action {
        DocAction::BulkRemove { table, rows } => {
            write_rows(text, "remove", table, rows.as_slice())
        }
        DocAction::BulkUpdate {
            table,
            rows,
            columns,
        } => write_update(alloc, text, table, rows.as_slice(), columns.as_slice()),
        DocAction::RenameTable { table, new } => {
            write!(text, "rename {} {}", table.as_str(), new.as_str())
        }
        DocAction::ModifyColumn {
            table,
            column,
            info,
        } => write_info(alloc, text, table, column, info),
        _ => text.push_str("other"),
    }
}

// The steps, each on a line, a direct one behind a `!`.
fn written(alloc: Global, steps: &[Step]) -> Result<String, AllocError> {
    let mut text = String::new(alloc);
    for step in steps {
        text.push_str(if step.direct { "! " } else { "  " })?;
        write_action(alloc, &mut text, &step.action)?;
        text.push_str("\n")?;
    }
    Ok(text)
}

fn are_steps(alloc: Global, steps: &Result<Option<StepList>, AllocError>, want: &str) -> bool {
    match steps {
        Ok(Some(steps)) => is_text(&written(alloc, steps.as_slice()), want),
        _ => false,
    }
}

fn has_steps(alloc: Global, document: &RowTables, action: &UserAction, want: &str) -> bool
    requires { IsWhole document.now }
{
    may_be_done(alloc, document, action) && are_steps(alloc, &steps(alloc, document, action), want)
}

/// Whether the action was made and has these steps, each on a line, a direct one behind a `!`.
pub(crate) fn made_has_steps(
    alloc: Global,
    document: &RowTables,
    action: &Result<UserAction, AllocError>,
    want: &str,
) -> bool
    requires { IsWhole document.now }
{
    match action {
        Ok(action) => has_steps(alloc, document, action, want),
        Err(_) => false,
    }
}

// Whether the action has these steps, each on a line, in the document of the tables above.
fn leads_to(alloc: Global, asked: &Asked, want: &str) -> bool {
    new_document_law();
    let Ok(mut document) = RowTables::new_document(alloc) else {
        return false;
    };
    are_all_done(alloc, &mut document, &TABLES)
        && are_all_done(alloc, &mut document, &CELLS)
        && made_has_steps(alloc, &document, &user_action(alloc, asked), want)
}

static REMOVALS: [(Asked, &str); 3] = [
    (
        RemoveRecord("Items", 1),
        "! remove Items 1
  update Items 2 Parent: 0
  update Pairs 1 Link: 0
  update Pairs 1 2 Links: [2] -
",
    ),
    (
        RemoveRecord("Items", 2),
        "! remove Items 2
  update Items 1 Parent: 0
  update Pairs 2 Link: 0
  update Pairs 1 Links: [1]
",
    ),
    (RemoveRecord("Pairs", 1), "! remove Pairs 1\n"),
];

#[test]
fn references_to_records_that_go_are_cleared(rt: HostRuntime) {
    for case in &REMOVALS {
        assert!(rt; leads_to(rt.alloc(), &case.0, case.1), "not {}", case.1);
    }
}

// The new id stands before and behind that of the other table.
static RENAMES: [(Asked, &str); 3] = [
    (
        RenameTable("Items", "Zoo"),
        "! rename Items Zoo
  modify Pairs.First Ref:Zoo =Items.lookupOne()
  modify Pairs.Link Ref:Zoo
  modify Pairs.Links RefList:Zoo
  modify Zoo.Parent Ref:Zoo
",
    ),
    (
        RenameTable("Items", "Aisle"),
        "! rename Items Aisle
  modify Aisle.Parent Ref:Aisle
  modify Pairs.First Ref:Aisle =Items.lookupOne()
  modify Pairs.Link Ref:Aisle
  modify Pairs.Links RefList:Aisle
",
    ),
    (
        RenameTable("Pairs", "Duos"),
        "! rename Pairs Duos
  modify Duos.Other Ref:Duos
",
    ),
];

#[test]
fn columns_follow_a_renamed_table_by_id(rt: HostRuntime) {
    for case in &RENAMES {
        assert!(rt; leads_to(rt.alloc(), &case.0, case.1), "not {}", case.1);
    }
}
