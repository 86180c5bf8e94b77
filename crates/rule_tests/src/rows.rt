//! Rows of the tables of access rules, those that are good and those that are not.
//!
//! `rows_of_resources_are_good_where_they_read` and `rules_are_good_where_their_cells_read` have
//! the forms, worked out by hand.

use acl_rows::{RowCells, is_good_resource, is_good_rule};
use cell_types::{CellText, CellValue, copy_of};
use std::alloc::{AllocError, Global};

// A cell.
#[derive(Clone, Copy)]
enum Cell {
    Null,
    Truth,
    Number(i64),
    Text(&'static str),
}

fn value_of(alloc: Global, cell: Cell) -> Result<CellValue, AllocError> {
    match cell {
        Cell::Null => Ok(CellValue::Null),
        Cell::Truth => Ok(CellValue::Bool(true)),
        Cell::Number(number) => Ok(CellValue::Int(number)),
        Cell::Text(text) => Ok(CellValue::Text(CellText::copy_of(alloc, text)?)),
    }
}

// A row of resources.
#[derive(Drop)]
struct ResourceRow {
    table: CellValue,
    columns: CellValue,
}

impl RowCells for ResourceRow {
    ghost use Rattle.std.specs.Prelude.{codes, cond};
    ghost use Rattle.std.specs.Str.{bytes_eq};

    ghost told = { λ r column. cond (bytes_eq column (codes "tableId")) r.table r.columns };

    fn cell(&self, _alloc: Global, column: &str) -> Result<CellValue, AllocError> {
        if column == "tableId" {
            copy_of(&self.table)
        } else {
            copy_of(&self.columns)
        }
    }
}

// A row of rules without a resource, and Null in all other columns but one.
#[derive(Drop)]
struct RuleRow {
    column: &'static str,
    cell: CellValue,
}

impl RowCells for RuleRow {
    ghost use Rattle.std.specs.Prelude.{codes, cond, pos};
    ghost use Rattle.std.specs.Str.{bytes_eq};
    ghost use Rattle.cell_types.specs.declared.value.CellValue.TheVariants as value;

    ghost told = { λ r column. cond (bytes_eq column r.column.now) r.cell
        (cond (bytes_eq column (codes "resource")) (value.Int (pos 0)) value.Null) };

    fn cell(&self, _alloc: Global, column: &str) -> Result<CellValue, AllocError> {
        if column == self.column {
            return copy_of(&self.cell);
        }
        if column == "resource" {
            return Ok(CellValue::Int(0));
        }
        Ok(CellValue::Null)
    }
}

// A table, its columns, and whether they say a resource.
static RESOURCES: [(Cell, Cell, bool); 15] = [
    (Cell::Text("*"), Cell::Text("*"), true),
    (Cell::Text("T"), Cell::Text("*"), true),
    (Cell::Text("T"), Cell::Text("A"), true),
    (Cell::Text("T"), Cell::Text("A,B"), true),
    (Cell::Text("é"), Cell::Text("A,A"), true),
    (Cell::Text("*"), Cell::Text("A"), false),
    (Cell::Text("T"), Cell::Text("A, B"), false),
    (Cell::Text("T"), Cell::Text("A,"), false),
    (Cell::Text("T"), Cell::Text("*,A"), false),
    (Cell::Text("1x"), Cell::Text("*"), false),
    (Cell::Text("_grist_ACLRules"), Cell::Text("*"), false),
    (Cell::Text("T"), Cell::Null, false),
    (Cell::Null, Cell::Text("*"), false),
    (Cell::Number(1), Cell::Text("*"), false),
    (Cell::Text("T"), Cell::Truth, false),
];

// A column, its cell, and whether the rule is good beside the rows 2 and 5 of resources.
static RULES: [(&str, Cell, bool); 36] = [
    ("aclFormula", Cell::Text(""), true),
    ("aclFormula", Cell::Text(" \t"), true),
    (
        "aclFormula",
        Cell::Text("rec.A == 1 and newRec.id > 2"),
        true,
    ),
    ("aclFormula", Cell::Text("user.P.x == 1"), true),
    ("aclFormula", Cell::Text("rec."), false),
    ("aclFormula", Cell::Text("$A == 1"), false),
    ("aclFormula", Cell::Text("1 < 2 < 3"), false),
    ("aclFormula", Cell::Number(1), false),
    ("permissionsText", Cell::Text("+U"), true),
    ("permissionsText", Cell::Text("-CUDS"), true),
    ("permissionsText", Cell::Text(""), true),
    ("permissionsText", Cell::Text("+U-U"), false),
    ("permissionsText", Cell::Text("U"), false),
    ("permissionsText", Cell::Truth, false),
    ("permissionsText", Cell::Text("+R"), true),
    ("permissionsText", Cell::Text("-R"), true),
    ("permissionsText", Cell::Text("all"), true),
    ("permissionsText", Cell::Text("none"), true),
    ("rulePos", Cell::Number(-7), true),
    ("rulePos", Cell::Null, true),
    ("rulePos", Cell::Text("1"), false),
    ("rulePos", Cell::Truth, false),
    ("resource", Cell::Number(0), true),
    ("resource", Cell::Number(2), true),
    ("resource", Cell::Number(5), true),
    ("resource", Cell::Number(3), false),
    ("resource", Cell::Number(-1), false),
    ("resource", Cell::Number(4294967298), false),
    ("resource", Cell::Null, false),
    ("userAttributes", Cell::Text(""), true),
    ("userAttributes", Cell::Text(" "), false),
    ("userAttributes", Cell::Text("{}"), false),
    (
        "userAttributes",
        Cell::Text(r#"{"charId":"Email","lookupColId":"E","name":"P","tableId":"T"}"#),
        true,
    ),
    ("memo", Cell::Text("any text"), true),
    ("memo", Cell::Number(1), false),
    ("memo", Cell::Null, true),
];

fn is_resource(alloc: Global, table: Cell, columns: Cell) -> Result<bool, AllocError> {
    let table = value_of(alloc, table)?;
    let columns = value_of(alloc, columns)?;
    is_good_resource(alloc, &ResourceRow { table, columns })
}

fn is_rule(alloc: Global, column: &'static str, cell: Cell) -> Result<bool, AllocError> {
    let cell = value_of(alloc, cell)?;
    is_good_rule(alloc, &[2, 5], &RuleRow { column, cell })
}

fn is_so(answer: Result<bool, AllocError>, want: bool) -> bool {
    match answer {
        Ok(good) => good == want,
        Err(_) => false,
    }
}

#[test]
fn rows_of_resources_are_good_where_they_read(rt: HostRuntime) {
    for row in &RESOURCES {
        assert!(rt; is_so(is_resource(rt.alloc(), row.0, row.1), row.2));
    }
}

#[test]
fn rules_are_good_where_their_cells_read(rt: HostRuntime) {
    for row in &RULES {
        assert!(rt;
            is_so(is_rule(rt.alloc(), row.0, row.1), row.2),
            "{}",
            row.0
        );
    }
}
