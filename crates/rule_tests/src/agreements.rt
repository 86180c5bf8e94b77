//! Which fields formulas of rules ask for, and whether two users are the same in them: the editor
//! of the samples, and a guest whose attributes found other rows.

use crate::samples::{Sample, editor, name, row};
use acl_formula::{Attribute, AttributeList, AttributeRow, UserInfo};
use agreeing_contexts::{UserFieldList, are_same_in, note_formula};
use formula_parse::{Dialect, read_tree};
use std::alloc::{AllocError, Global};
use std::test::Fail;

fn attribute(alloc: Global, text: &str, found: AttributeRow) -> Result<Attribute, AllocError> {
    let row = Some(found);
    match name(alloc, text) {
        Ok(name) => Ok(Attribute { name, row }),
        Err(error) => {
            drop(row);
            Err(error)
        }
    }
}

// `P` found another row than the editor's, and `Q` found one where the editor's found none.
fn attributes(alloc: Global) -> Result<AttributeList, AllocError> {
    let mut attributes = AttributeList::new(alloc);
    let found = row(
        alloc,
        6,
        &[("City", Sample::Text("Rome")), ("Bad", Sample::Int(1))],
    )?;
    attributes.push(attribute(alloc, "P", found)?)?;
    let found = row(
        alloc,
        9,
        &[("City", Sample::Null), ("Town", Sample::Text("Rome"))],
    )?;
    attributes.push(attribute(alloc, "Q", found)?)?;
    Ok(attributes)
}

fn guest(alloc: Global) -> Result<UserInfo, AllocError> {
    let UserInfo {
        user,
        attributes: rows,
    } = editor(alloc)?;
    drop(rows);
    let attributes = attributes(alloc)?;
    Ok(UserInfo { user, attributes })
}

fn fields_of(alloc: Global, rule: &str) -> Result<UserFieldList, AllocError> {
    let formula = read_tree(alloc, Dialect::Rule, rule).ok();
    let mut fields = UserFieldList::new(alloc);
    let noted = note_formula(&mut fields, &formula);
    drop(formula);
    match noted {
        Ok(()) => Ok(fields),
        Err(error) => {
            drop(fields);
            Err(error)
        }
    }
}

// How many fields the rule asks for, and whether the users are the same in them.
fn told(
    alloc: Global,
    rule: &str,
    left: &UserInfo,
    right: &UserInfo,
) -> Result<(usize, bool), AllocError> {
    let fields = fields_of(alloc, rule)?;
    let told = (
        fields.as_slice().len(),
        are_same_in(fields.as_slice(), left, right),
    );
    drop(fields);
    Ok(told)
}

// A field of a row that was not found is Null; a column that is not there is nothing, and so is an
// error.
static CASES: [(&str, usize, bool); 11] = [
    ("user.P.City == 'Rome'", 1, true),
    ("user.P.id == 5", 1, false),
    ("user.P.Bad == 1", 1, false),
    ("user.P.Gone == 1", 1, true),
    ("user.Q.City == 1", 1, true),
    ("user.Q.Town == 1", 1, false),
    ("user.Email == 'ed@x.org'", 0, true),
    ("user.P.City == user.P.City", 1, true),
    ("user.P.City in [user.P.id]", 2, false),
    ("user.P.City ==", 0, true),
    ("", 0, true),
];

fn are_as_told(alloc: Global) -> Result<bool, AllocError> {
    let left = editor(alloc)?;
    let right = guest(alloc)?;
    let mut all = true;
    for (rule, count, same) in &CASES {
        all = all && told(alloc, rule, &left, &right)? == (*count, *same);
    }
    drop(left);
    drop(right);
    Ok(all)
}

#[test]
fn users_are_the_same_in_what_rules_ask_for(rt: HostRuntime) -> Result<(), Fail> {
    assert!(rt; are_as_told(rt.alloc())?);
    Ok(())
}
