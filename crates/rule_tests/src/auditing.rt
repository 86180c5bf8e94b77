//! What audits say.

use crate::decisions::{Given, context};
use crate::samples::name;
use acl_formula::Perm;
use acl_rules::Ctx;
use cell_types::{CellText, ColType, RowList};
use doc_model::{CellRowList, View, ViewCol, ViewColList, ViewTable, ViewTableList};
use rule_audit::{Audit, audit_of};
use std::alloc::{AllocError, Global};

// Columns of the table T: an id, whether it has a formula, and whether that is shown.
type Shown = (&'static str, bool, bool);

fn column(alloc: Global, shown: Shown) -> Result<ViewCol, AllocError> {
    let formula = if shown.2 {
        Some(CellText::copy_of(alloc, "1")?)
    } else {
        None
    };
    Ok(ViewCol {
        id: name(alloc, shown.0)?,
        ty: ColType::Any,
        is_formula: shown.1,
        formula,
    })
}

fn view(alloc: Global, all: &[Shown]) -> Result<View, AllocError> {
    let mut columns = ViewColList::new(alloc);
    for shown in all {
        columns.push(column(alloc, *shown)?)?;
    }
    let table = ViewTable {
        id: name(alloc, "T")?,
        columns,
        rows: RowList::new(alloc),
        cells: CellRowList::new(alloc),
    };
    let mut tables = ViewTableList::new(alloc);
    tables.push(table)?;
    Ok(View { tables })
}

// What is said: nothing; or a column, a permission and a rule; S for a hidden formula.
type Said = Option<(&'static str, Perm, u32)>;

fn is_said(audit: &Audit, said: Said) -> bool {
    match (audit, said) {
        (Audit::Closed, None) => true,
        (
            Audit::Leak {
                column: None,
                perm,
                rule,
                ..
            },
            Some(("", p, r)),
        ) => *perm == p && *rule == r,
        (
            Audit::Leak {
                column: Some(c),
                perm,
                rule,
                ..
            },
            Some((d, p, r)),
        ) => { c.as_str() == d && *perm == p && *rule == r }
        (Audit::HiddenFormula { column, .. }, Some((d, Perm::S, 0))) => column.as_str() == d,
        _ => false,
    }
}

fn says(alloc: Global, rules: &[Given], shown: &[Shown], said: Said) -> Result<bool, AllocError> {
    let ctx = context(alloc, rules)?;
    let view = view(alloc, shown)?;
    let audit = audit_of(alloc, &ctx, &view)?;
    Ok(is_said(&audit, said))
}

static HIDDEN: [Given; 2] = [
    (1, "T.Secret", "-R", "user.Access != OWNER"),
    (2, "T", "-U", "rec.Secret == 1"),
];

static OPEN: [Given; 1] = [(2, "T", "-U", "rec.Secret == 1")];

static NEW: [Given; 1] = [(2, "T", "-U", "newRec.Sum == 1")];

static GONE: [Given; 1] = [(2, "T", "-D", "rec.Sum == 1")];

static BEHIND: [Given; 3] = [
    (1, "T.Secret", "-R", "rec.Title == 1"),
    (2, "T", "+U", "user.Access == EDITOR"),
    (3, "T", "-U", "rec.Secret == 1"),
];

static ROW: [Given; 2] = [
    (1, "T", "-R", "rec.Title == 1"),
    (2, "T", "-C", "rec.id > 3"),
];

static TITLE: [Shown; 1] = [("Title", false, true)];

static BOTH: [Shown; 2] = [("Secret", false, true), ("Title", false, true)];

static SUM: [Shown; 2] = [("Sum", true, true), ("Title", false, true)];

static HIDDEN_SUM: [Shown; 2] = [("Sum", true, false), ("Title", false, false)];

fn all_said(alloc: Global) -> Result<bool, AllocError> {
    let all = says(alloc, &HIDDEN, &TITLE, Some(("Title", Perm::U, 2)))?
        && says(alloc, &OPEN, &BOTH, None)?
        && says(alloc, &NEW, &SUM, Some(("Sum", Perm::U, 2)))?
        && says(alloc, &GONE, &SUM, None)?
        && says(alloc, &GONE, &HIDDEN_SUM, Some(("Sum", Perm::S, 0)))?
        && says(alloc, &BEHIND, &BOTH, None)?
        && says(alloc, &ROW, &BOTH, Some(("", Perm::C, 2)))?;
    Ok(all)
}

#[test]
fn audits_say_the_first_fault(rt: HostRuntime) {
    assert!(rt; matches!(all_said(rt.alloc()), Ok(true)));
}
