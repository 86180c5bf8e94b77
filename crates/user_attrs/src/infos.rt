//! What rules know of a user.

ghost use Rattle.std.specs.Prelude.{◌≡◌, IfOk, map};
ghost use Rattle.user_attrs.specs.UserInfos.{attribute_for, user_info};

use crate::attribute_rule::AttributeRule;
use crate::found_rows::found_in;
use acl_formula::{Attribute, AttributeList, UserInfo};
use doc_model::{DocReader, User};
use std::alloc::{AllocError, Global};

fn attribute_for<C: DocReader>(
    alloc: Global,
    doc: &C,
    user: &User,
    attribute: &AttributeRule,
) -> Result<Attribute, AllocError>
    ensures { IfOk result
        (λ a. a ≡ attribute_for (C.document doc.now) user.now attribute.now) }
{
    let row = found_in(alloc, doc, user, attribute)?;
    match attribute.name.clone() {
        Ok(name) => Ok(Attribute { name, row }),
        Err(error) => {
            drop(row);
            Err(error)
        }
    }
}

fn attributes_for<C: DocReader>(
    alloc: Global,
    doc: &C,
    user: &User,
    rules: &[AttributeRule],
) -> Result<AttributeList, AllocError>
    ensures { IfOk result
        (λ l. l ≡ map (attribute_for (C.document doc.now) user.now) rules.now) }
{
    let mut made = AttributeList::new(alloc);
    for rule in rules {
        made.push(attribute_for(alloc, doc, user, rule)?)?;
    }
    Ok(made)
}

/// What these attributes are of a user in a document whose cells are evaluated: of each the least
/// row of its table whose cell in its column equals the user's email, name or number, with its
/// cells; none where there is no such row, table or column.
///
/// Errors: out of memory.
/// Memory: the user and the rows that are found. Cost: a walk over the rows of the tables.
pub fn user_info<C: DocReader>(
    alloc: Global,
    rules: &[AttributeRule],
    user: &User,
    doc: &C,
) -> Result<UserInfo, AllocError>
    ensures { IfOk result
        (λ info. info ≡ user_info rules.now user.now (C.document doc.now)) }
{
    let attributes = attributes_for(alloc, doc, user, rules)?;
    match user.clone() {
        Ok(user) => Ok(UserInfo { user, attributes }),
        Err(error) => {
            drop(attributes);
            Err(error)
        }
    }
}
