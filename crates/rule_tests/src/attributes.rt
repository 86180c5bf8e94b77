//! Attributes of users: those that the rules of a document say, and the rows that they find.
//!
//! `attributes_are_of_the_least_row` has the order of rules, of two rules with one name the first,
//! two rows with one email, and tables, columns and rows that are not there.

ghost use Rattle.std.specs.Prelude.{IfOk};
ghost use Rattle.doc_model.specs.DocumentLaws.{IsWhole};

use crate::documents::{Three, add_rows, new_document};
use crate::samples::editor;
use acl_formula::{AttributeRow, RuleTruth, UserInfo, eval_rule, parse_rule};
use row_tables::RowTables;
use std::alloc::{AllocError, Global};
use user_attrs::{load_attributes, user_info};

// Rows 5 and 9 have the editor's email, 9 and 7 its number.
static PEOPLE: [Three; 3] = [
    Three::Texts("A", "ed@x.org", "al@x.org", "ed@x.org"),
    Three::Numbers("B", 3, 2, 2),
    Three::Texts("C", "Rome", "Oslo", "Bonn"),
];

// The second rule is asked first, since it has the least place.
static RULES: [Three; 2] = [
    Three::Texts(
        "userAttributes",
        r#"{"charId":"UserID","lookupColId":"B","name":"P","tableId":"Table1"}"#,
        r#"{"charId":"Email","lookupColId":"A","name":"P","tableId":"Table1"}"#,
        r#"{"charId":"UserID","lookupColId":"B","name":"Q","tableId":"Table1"}"#,
    ),
    Three::Numbers("rulePos", 2, 1, 3),
];

static MORE_RULES: [Three; 2] = [
    Three::Texts(
        "userAttributes",
        r#"{"charId":"Email","lookupColId":"A","name":"NoTable","tableId":"Table2"}"#,
        r#"{"charId":"Email","lookupColId":"D","name":"NoColumn","tableId":"Table1"}"#,
        r#"{"charId":"Name","lookupColId":"C","name":"NoRow","tableId":"Table1"}"#,
    ),
    Three::Numbers("rulePos", 4, 5, 6),
];

// Formulas and what they come to.
static QUESTIONS: [(&str, RuleTruth); 10] = [
    ("user.P.id == 5", RuleTruth::True),
    ("user.P.C == 'Rome'", RuleTruth::True),
    ("user.Q.id == 7", RuleTruth::True),
    ("user.Q.A == user.Email", RuleTruth::False),
    ("user.P.Z == None", RuleTruth::Fails),
    ("user.NoTable.A == None", RuleTruth::True),
    ("user.NoColumn.A == None", RuleTruth::True),
    ("user.NoRow.id == None", RuleTruth::True),
    ("user.Other.A == None", RuleTruth::Fails),
    ("user.Email == 'ed@x.org'", RuleTruth::True),
];

fn document(alloc: Global) -> Result<RowTables, AllocError> {
    let mut document = new_document(alloc)?;
    add_rows(alloc, &mut document, "Table1", [5, 7, 9], &PEOPLE)?;
    add_rows(alloc, &mut document, "_grist_ACLRules", [1, 2, 3], &RULES)?;
    add_rows(
        alloc,
        &mut document,
        "_grist_ACLRules",
        [4, 5, 6],
        &MORE_RULES,
    )?;
    Ok(document)
}

fn info(alloc: Global, document: &RowTables) -> Result<UserInfo, AllocError> {
    let rules = load_attributes(alloc, document)?;
    let editor = editor(alloc)?;
    user_info(alloc, rules.as_slice(), &editor.user, document)
}

fn is_answer(alloc: Global, info: &UserInfo, text: &str, truth: RuleTruth) -> bool {
    match parse_rule(alloc, text) {
        Ok(rule) => eval_rule::<AttributeRow>(&rule, info, None, None) == truth,
        Err(_) => false,
    }
}

// The first question that has another answer.
fn wrong(alloc: Global) -> Result<&'static str, AllocError> {
    let document = document(alloc)?;
    let info = info(alloc, &document)?;
    for (text, truth) in &QUESTIONS {
        if !is_answer(alloc, &info, *text, *truth) {
            return Ok(*text);
        }
    }
    Ok("none")
}

#[test]
fn attributes_are_of_the_least_row(rt: HostRuntime) {
    assert!(rt; matches!(wrong(rt.alloc()), Ok("none")));
}
