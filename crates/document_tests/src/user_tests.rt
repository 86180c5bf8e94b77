//! Plan: that `steps` finds memory, and makes the id and the metadata row that were worked out by
//! hand (`a_new_table_is_one_step`).

ghost use Rattle.doc_model.specs.DocumentLaws.{IsWhole};

use cell_types::CellText;
use doc_model::laws::new_document_law;
use doc_model::{DocAction, Step, StepList, UserAction, UserColList};
use name_rules::is_name;
use row_tables::RowTables;
use std::alloc::{AllocError, Global};
use user_actions::steps;

// The steps that add a table without columns, where its id is a name.
fn steps_of_table(
    alloc: Global,
    document: &RowTables,
    table: &str,
) -> Result<Option<StepList>, AllocError>
    requires { IsWhole document.now }
{
    if !is_name(table) {
        return Err(AllocError);
    }
    let action = UserAction::AddTable {
        table: CellText::copy_of(alloc, table)?,
        columns: UserColList::new(alloc),
    };
    steps(alloc, document, &action)
}

// Whether the step is one that the rules are asked about, and adds this table without columns.
fn is_addition(step: &Step, wanted: &str, wanted_row: u32) -> bool {
    match &step.action {
        DocAction::AddTable {
            table,
            row,
            columns,
        } => step.direct && table.as_str() == wanted && *row == wanted_row && columns.is_empty(),
        _ => false,
    }
}

// Whether the steps are this one.
fn are_addition(steps: &Result<Option<StepList>, AllocError>, made: &str) -> bool {
    match steps {
        Ok(Some(steps)) => steps.len() == 1 && is_addition(&steps.as_slice()[0], made, 2),
        _ => false,
    }
}

fn is_made(alloc: Global, wanted: &str, made: &str) -> bool {
    new_document_law();
    let Ok(document) = RowTables::new_document(alloc) else {
        return false;
    };
    are_addition(&steps_of_table(alloc, &document, wanted), made)
}

#[test]
fn a_new_table_is_one_step(rt: HostRuntime) {
    assert!(rt; is_made(rt.alloc(), "Work", "Work"), "not free");
    assert!(rt; is_made(rt.alloc(), "Table1", "Table12"), "not taken");
}
