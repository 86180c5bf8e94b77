//! Plans of renames.
//!
//! `formulas_follow` has formulas of columns: what is replaced, what stays, what counts.
//! `rules_follow` has formulas of rules and attributes of users.

use crate::told::told;
use crate::views::{Column, Kind, ResourceRow, RuleRow, view_of};
use cell_types::CellText;
use doc_model::View;
use rename_flow::{RenamePlan, plan_rename};
use std::alloc::{AllocError, Global};

// The table, the column and the new name; what the plan says, and how much of it is unresolved.
type Asked = (&'static str, &'static str, &'static str, &'static str, u32);

fn plan_for(alloc: Global, view: &View, asked: Asked) -> Result<RenamePlan, AllocError> {
    let table = CellText::copy_of(alloc, asked.0)?;
    let column = CellText::copy_of(alloc, asked.1)?;
    let new = CellText::copy_of(alloc, asked.2)?;
    plan_rename(alloc, view, &table, &column, &new)
}

fn is_planned(alloc: Global, view: &View, asked: Asked) -> Result<bool, AllocError> {
    let plan = plan_for(alloc, view, asked)?;
    let said = told(alloc, &plan)?;
    Ok(said.as_str() == asked.3 && plan.unresolved == asked.4)
}

// What is planned in a view of one formula more, in the column F of that table.
fn follows(
    alloc: Global,
    table: &'static str,
    formula: &'static str,
    asked: Asked,
) -> Result<bool, AllocError> {
    let columns: [Column; 9] = [
        (table, "F", Kind::Any, formula),
        ("T", "K", Kind::Int, ""),
        ("T", "N", Kind::Int, ""),
        ("T", "P", Kind::Ref("U"), ""),
        ("T", "X", Kind::Any, "T.lookupOne(N=10)"),
        ("U", "K", Kind::Int, ""),
        ("U", "N", Kind::Int, ""),
        ("U", "Q", Kind::RefList("T"), ""),
        ("U", "R", Kind::Ref("T"), ""),
    ];
    let view = view_of(alloc, &columns, &[], &[])?;
    is_planned(alloc, &view, asked)
}

// A table, a formula in it, and what the rename of K of T to Key makes of it.
static FORMULAS: [(&str, &str, &str, u32); 25] = [
    (
        "T",
        "SUM(T.lookupRecords(K=$K).N)",
        "Key;T.F=SUM(T.lookupRecords(Key=$Key).N);",
        0,
    ),
    ("T", "$X.K", "Key;", 1),
    ("U", "$R.K", "Key;U.F=$R.Key;", 0),
    ("U", "$Q.K + $K", "Key;U.F=$Q.Key + $K;", 0),
    ("T", "$P.K", "Key;", 0),
    ("U", "$Q.P.R.K", "Key;U.F=$Q.P.R.Key;", 0),
    ("T", "rec.K", "Key;T.F=rec.Key;", 0),
    ("U", "(T.all).K", "Key;U.F=(T.all).Key;", 0),
    (
        "T",
        "$N if $K else ( $K )",
        "Key;T.F=$N if $Key else ( $Key );",
        0,
    ),
    ("T", "'K' + str($K)", "Key;T.F='K' + str($Key);", 0),
    (
        "U",
        "IFERROR(T.lookupOne(N=1), 0).K",
        "Key;U.F=IFERROR(T.lookupOne(N=1), 0).Key;",
        0,
    ),
    (
        "U",
        "IF(1, T.lookupOne(N=1), U.lookupOne(N=1)).K",
        "Key;",
        1,
    ),
    ("U", "IF(T.all, 1, U.all).K", "Key;", 0),
    ("U", "[T.all, rec].K", "Key;", 1),
    (
        "U",
        "(T.all and T.all).K",
        "Key;U.F=(T.all and T.all).Key;",
        0,
    ),
    ("U", "max(T.all).K", "Key;", 0),
    (
        "T",
        "U.lookupOne(K=$K, N=[-$K])",
        "Key;T.F=U.lookupOne(K=$Key, N=[-$Key]);",
        0,
    ),
    (
        "U",
        "T.lookupRecords(K=CONTAINS($K))",
        "Key;U.F=T.lookupRecords(Key=CONTAINS($K));",
        0,
    ),
    (
        "U",
        "T.lookupOne(K=1, Key=2).Key",
        "Key;U.F=T.lookupOne(Key=1, Key=2).Key;",
        2,
    ),
    ("U", "$Key + U.lookupOne(Key=1).Key", "Key;", 0),
    ("T", "$Key", "Key;", 1),
    ("T", "$X.Key + $X.N", "Key;", 1),
    ("T", "$K +", "Key;", 0),
    ("T", "?", "Key;", 1),
    ("T", "", "Key;", 0),
];

fn all_follow(alloc: Global) -> Result<bool, AllocError> {
    for (table, formula, said, unresolved) in &FORMULAS {
        if !follows(alloc, table, formula, ("T", "K", "Key", said, *unresolved))? {
            return Ok(false);
        }
    }
    Ok(true)
}

// Names that are not there, that are taken, and that mean something behind a table's name.
static NAMES: [Asked; 7] = [
    ("V", "K", "Key", "Key;", 0),
    ("T", "Z", "Key", "Key;", 0),
    ("T", "K", "N", "N;", 2),
    ("T", "K", "K", "K;", 1),
    ("T", "K", "all", "all;", 1),
    ("T", "K", "lookupOne", "lookupOne;", 1),
    ("T", "K", "1x", "1x;", 0),
];

fn all_named(alloc: Global) -> Result<bool, AllocError> {
    for asked in &NAMES {
        if !follows(alloc, "T", "", *asked)? {
            return Ok(false);
        }
    }
    Ok(true)
}

// Columns that name the renamed one, and itself.
static OWN: [Column; 3] = [
    ("T", "A", Kind::Any, "$K"),
    ("T", "K", Kind::Any, "$K + 1"),
    ("T", "Z", Kind::Any, "$K"),
];

// A type that names a metadata table.
static SCHEMA: [Column; 2] = [
    ("T", "K", Kind::Int, ""),
    ("T", "M", Kind::Ref("_grist_Tables"), ""),
];

// A formula that gets too long.
static LONG: [Column; 2] = [("T", "F", Kind::Any, "#"), ("T", "K", Kind::Int, "")];

fn is_ordered(alloc: Global) -> Result<bool, AllocError> {
    let view = view_of(alloc, &OWN, &[], &[])?;
    let front = ("T", "K", "M", "M;T.A=$M;T.M=$M + 1;T.Z=$M;", 0);
    let end = ("T", "K", "Zz", "Zz;T.A=$Zz;T.Z=$Zz;T.Zz=$Zz + 1;", 0);
    Ok(is_planned(alloc, &view, front)? && is_planned(alloc, &view, end)?)
}

fn is_counted(alloc: Global) -> Result<bool, AllocError> {
    let schema = view_of(alloc, &SCHEMA, &[], &[])?;
    let long = view_of(alloc, &LONG, &[], &[])?;
    let plan = plan_for(alloc, &long, ("T", "K", "Key", "", 1))?;
    let asked = ("T", "K", "Key", "Key;", 1);
    Ok(is_planned(alloc, &schema, asked)? && plan.unresolved == 1)
}

#[test]
fn formulas_follow(rt: HostRuntime) {
    assert!(rt; matches!(all_follow(rt.alloc()), Ok(true)));
    assert!(rt; matches!(all_named(rt.alloc()), Ok(true)));
    assert!(rt; matches!(is_ordered(rt.alloc()), Ok(true)));
    assert!(rt; matches!(is_counted(rt.alloc()), Ok(true)));
}

static KEYS: [Column; 2] = [("T", "K", Kind::Any, ""), ("T", "N", Kind::Int, "")];

static RESOURCES: [ResourceRow; 4] = [("T", "*"), ("*", "*"), ("U", "*"), ("T", "K,,")];

const IN_T: &str = "{\"charId\":\"Email\",\"lookupColId\":\"K\",\"name\":\"P\",\"tableId\":\"T\"}";

const IN_U: &str =
    "{ \"tableId\": \"U\", \"name\": \"P\", \"charId\": \"Name\", \"lookupColId\": \"K\" }";

const NEW_IN_T: &str =
    "{\"charId\":\"UserID\",\"lookupColId\":\"Key\",\"name\":\"Q\",\"tableId\":\"T\"}";

// The resource of a rule and its formula, an attribute beside it, what the plan says, and how much
// is unresolved.
static RULES: [(i64, &str, &str, &str, u32); 13] = [
    (
        1,
        "rec.K == 'a' and newRec.K != \"K\" or user.P.K == rec.N",
        "",
        "Key;aclFormula 1 rec.Key == 'a' and newRec.Key != \"K\" or user.P.K == rec.N;",
        0,
    ),
    (1, "rec.Key == newRec.Key", "", "Key;", 2),
    (
        2,
        "rec.K in [newRec.Key, rec.N, newRec.K, rec.Key]",
        "",
        "Key;",
        4,
    ),
    (3, "rec.K == newRec.Key", "", "Key;", 0),
    (4, "rec.K == newRec.Key", "", "Key;", 0),
    (9, "rec.K == newRec.Key", "", "Key;", 0),
    (1, "rec.K ==", "", "Key;", 0),
    (1, "", "", "Key;", 0),
    (
        3,
        "user.P.K == 1 or user.Q.K == 1",
        IN_T,
        "Key;aclFormula 1 user.P.Key == 1 or user.Q.K == 1;userAttributes 2 \
         {\"charId\":\"Email\",\"lookupColId\":\"Key\",\"name\":\"P\",\"tableId\":\"T\"};",
        0,
    ),
    (
        2,
        "user.P.Key == 1",
        IN_T,
        "Key;userAttributes 2 \
         {\"charId\":\"Email\",\"lookupColId\":\"Key\",\"name\":\"P\",\"tableId\":\"T\"};",
        1,
    ),
    (1, "user.P.K == user.P.Key", IN_U, "Key;", 0),
    (
        1,
        "user.Q.K == 1",
        NEW_IN_T,
        "Key;aclFormula 1 user.Q.Key == 1;",
        1,
    ),
    (1, "", "{}", "Key;", 0),
];

fn all_ruled(alloc: Global) -> Result<bool, AllocError> {
    for (resource, formula, attribute, said, unresolved) in &RULES {
        let rules: [RuleRow; 2] = [(*resource, *formula, ""), (0, "", *attribute)];
        let view = view_of(alloc, &KEYS, &RESOURCES, &rules)?;
        if !is_planned(alloc, &view, ("T", "K", "Key", said, *unresolved))? {
            return Ok(false);
        }
    }
    Ok(true)
}

// Two attributes of one name in two tables, and resources that name the new column.
static TWO: [RuleRow; 3] = [
    (1, "user.P.K == user.P.Key", ""),
    (0, "", IN_T),
    (0, "rec.K", IN_U),
];

static CLAIMS: [ResourceRow; 3] = [("T", "N,Key"), ("U", "Key"), ("T", "Key,Key")];

fn are_two(alloc: Global) -> Result<bool, AllocError> {
    let two = view_of(alloc, &KEYS, &RESOURCES, &TWO)?;
    let claimed = view_of(alloc, &KEYS, &CLAIMS, &[])?;
    let said = "Key;userAttributes 2 \
         {\"charId\":\"Email\",\"lookupColId\":\"Key\",\"name\":\"P\",\"tableId\":\"T\"};";
    Ok(
        is_planned(alloc, &two, ("T", "K", "Key", said, 2))?
            && is_planned(alloc, &claimed, ("T", "K", "Key", "Key;", 2))?,
    )
}

#[test]
fn rules_follow(rt: HostRuntime) {
    assert!(rt; matches!(all_ruled(rt.alloc()), Ok(true)));
    assert!(rt; matches!(are_two(rt.alloc()), Ok(true)));
}
