//! Plan: a column that changes as a user says: its steps, for data and formulas each way
//! (`a_column_changes_with_its_cells`), and by what name a change or a value for a formula column
//! is refused (`names_what_stands_against_a_change`). Steps have the form of `written`, and were
//! worked out by hand from docs/DEFINITIONS.md. Out of memory counts as false.

ghost use Rattle.doc_model.specs.DocumentLaws.{IsWhole};

use crate::actions::{Change, Kind};
use crate::asked::{Asked, is_refused, user_action};
use crate::reference_tests::made_has_steps;
use crate::tests::are_all_done;
use Asked::{Give, Modify};
use Change::{Add, Define};
use Kind::{Any, Int};
use doc_model::UserAction;
use doc_model::laws::new_document_law;
use row_tables::RowTables;
use std::alloc::{AllocError, Global};

// Beside A, B and C, data columns of type Any, whose cells are null.
static COLUMNS: [Change; 4] = [
    Define("Table1", "Count", 4, Int, ""),
    Define("Table1", "Twice", 5, Int, "$Count * 2"),
    Define("Table1", "Same", 6, Any, "$Count"),
    Add("Table1", [1, 2], "Count", [7, 8]),
];

// Whether the action has these steps in the document of the columns above.
fn leads_to(alloc: Global, asked: &Asked, want: &str) -> bool {
    new_document_law();
    let Ok(mut document) = RowTables::new_document(alloc) else {
        return false;
    };
    are_all_done(alloc, &mut document, &COLUMNS)
        && made_has_steps(alloc, &document, &user_action(alloc, asked), want)
}

// What is not said stays; the same column has no steps. Then data to a formula, a formula to data,
// data to data, and a formula to a formula.
static CHANGES: [(Asked, &str); 9] = [
    (Modify("Count", Some("Int"), None, Some("")), ""),
    (Modify("Twice", None, Some(true), None), ""),
    (
        Modify("Count", None, Some(true), Some("$A")),
        "  update Table1 1 2 Count: - -
! modify Table1.Count Int =$A
",
    ),
    (
        Modify("A", Some("Text"), Some(true), None),
        "! modify Table1.A Text =\n",
    ),
    (
        Modify("Twice", None, Some(false), None),
        "! modify Table1.Twice Int
  update Table1 1 2 Twice: 0 0
",
    ),
    (
        Modify("Same", None, Some(false), None),
        "! modify Table1.Same Any\n",
    ),
    (
        Modify("Count", Some("Date"), None, None),
        "! modify Table1.Count Date
  update Table1 1 2 Count: d7 d8
",
    ),
    (
        Modify("Twice", None, None, Some("$Count * 3")),
        "! modify Table1.Twice Int =$Count * 3\n",
    ),
    (
        Modify("Twice", Some("Ref:Table1"), None, None),
        "! modify Table1.Twice Ref:Table1 =$Count * 2\n",
    ),
];

#[test]
fn a_column_changes_with_its_cells(rt: HostRuntime) {
    for case in &CHANGES {
        assert!(rt; leads_to(rt.alloc(), &case.0, case.1), "not {}", case.1);
    }
}

fn made_is_refused(
    alloc: Global,
    document: &RowTables,
    action: &Result<UserAction, AllocError>,
    want: &str,
) -> bool
    requires { IsWhole document.now }
{
    match action {
        Ok(action) => is_refused(alloc, document, action, want),
        Err(_) => false,
    }
}

fn refuses(alloc: Global, asked: &Asked, want: &str) -> bool {
    new_document_law();
    let Ok(mut document) = RowTables::new_document(alloc) else {
        return false;
    };
    are_all_done(alloc, &mut document, &COLUMNS)
        && made_is_refused(alloc, &document, &user_action(alloc, asked), want)
}

// Actions, and the names of their refusals; empty where there is none.
static REFUSED: [(Asked, &str); 9] = [
    (Modify("Nope", Some("Nope"), None, None), "NoSuchColumn"),
    (Modify("Count", Some("Nope"), None, None), "BadValue"),
    (Modify("Count", Some("Ref:in"), None, None), "BadValue"),
    (Modify("Count", None, None, Some("1")), "BadValue"),
    (Modify("Twice", None, Some(false), Some("1")), "BadValue"),
    (Modify("Twice", None, Some(false), Some("")), ""),
    (Modify("Count", Some("Ref:Nope"), Some(true), None), ""),
    (Give("Twice"), "FormulaColumn"),
    (Give("Count"), ""),
];

#[test]
fn names_what_stands_against_a_change(rt: HostRuntime) {
    for case in &REFUSED {
        assert!(rt; refuses(rt.alloc(), &case.0, case.1), "not {}", case.1);
    }
}
