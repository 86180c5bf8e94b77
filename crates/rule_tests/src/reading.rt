//! What rules let a user read: columns, formulas and cells.
//!
//! `columns_are_shown_by_the_walk` has rules that use a row, rules that fail, and rules about other
//! permissions; an editor asks, whom the rule behind all others shows everything.

use crate::decisions::{Given, context};
use crate::samples::{Sample, name, row};
use acl_formula::AttributeRow;
use acl_reading::{is_bare_shown, is_cell_shown, is_column_shown, is_formula_shown};
use acl_rules::Ctx;
use cell_types::Name;
use std::alloc::{AllocError, Global};

static RULES: [Given; 14] = [
    (1, "T.A", "+R", "rec.I == 3"),
    (2, "T.A", "-R", ""),
    (3, "T.B", "-R", "rec.I == 3"),
    (4, "T.B", "+R", "user.Access == EDITOR"),
    (5, "T.B", "-R", ""),
    (6, "T.C", "+R", "user.Access == OWNER"),
    (7, "T.D", "+R", "true or"),
    (8, "T.E", "-R", "true or"),
    (9, "T.F", "-SU", ""),
    (10, "T.G", "+R", "newRec.I == 3"),
    (11, "T.G", "-R", ""),
    (12, "T.H", "-R", "rec.I == 3"),
    (13, "V", "-R", "user.Access == EDITOR"),
    (14, "V.A", "+R", "rec.I == 4"),
];

// A column of a table; whether it is shown, and its formula; whether the row with 3 and that with 4
// in the column `I` may be read in it.
static COLUMNS: [(&str, &str, [bool; 4]); 11] = [
    ("T", "A", [true, true, true, false]),
    ("T", "B", [true, true, false, true]),
    ("T", "C", [true, true, true, true]),
    ("T", "D", [true, true, true, true]),
    ("T", "E", [false, true, false, false]),
    ("T", "F", [true, false, true, true]),
    ("T", "G", [true, true, false, false]),
    ("T", "H", [true, true, false, true]),
    ("V", "A", [true, true, false, true]),
    ("V", "B", [false, true, false, false]),
    ("W", "A", [true, true, true, true]),
];

// A table; whether it is shown without columns, and a row of it may then be read.
static TABLES: [(&str, [bool; 2]); 3] = [
    ("T", [true, true]),
    ("V", [false, false]),
    ("W", [true, true]),
];

fn reads(ctx: &Ctx, rows: [&AttributeRow; 2], table: &Name, column: &Name) -> [bool; 4] {
    [
        is_column_shown(ctx, table, column),
        is_formula_shown(ctx, table, column),
        is_cell_shown(ctx, table, Some(column), rows[0]),
        is_cell_shown(ctx, table, Some(column), rows[1]),
    ]
}

fn reads_bare(ctx: &Ctx, row: &AttributeRow, table: &Name) -> [bool; 2] {
    [
        is_bare_shown(ctx, table),
        is_cell_shown(ctx, table, None, row),
    ]
}

// The first column or table of which another thing is read.
fn wrong_in(alloc: Global, ctx: &Ctx) -> Result<&'static str, AllocError> {
    let third = row(alloc, 7, &[("I", Sample::Int(3))])?;
    let fourth = row(alloc, 8, &[("I", Sample::Int(4))])?;
    for (table, column, want) in &COLUMNS {
        let (id, column_id) = (name(alloc, *table)?, name(alloc, *column)?);
        if reads(ctx, [&third, &fourth], &id, &column_id) != *want {
            return Ok(*column);
        }
    }
    for (table, want) in &TABLES {
        if reads_bare(ctx, &third, &name(alloc, *table)?) != *want {
            return Ok(*table);
        }
    }
    Ok("none")
}

fn wrong(alloc: Global) -> Result<&'static str, AllocError> {
    let ctx = context(alloc, &RULES)?;
    wrong_in(alloc, &ctx)
}

#[test]
fn columns_are_shown_by_the_walk(rt: HostRuntime) {
    assert!(rt; matches!(wrong(rt.alloc()), Ok("none")));
}
