//! What the texts of a resource say.

ghost use Rattle.std.specs.Prelude.{◌≡◌, ◌∷◌, true, Some, None, IfOk, cond, option_map};
ghost use Rattle.cell_types.specs.NameRule.{is_name};
ghost use Rattle.acl_rules.specs.declared.resource.Resource.TheVariants as resource;
ghost use Rattle.acl_rules.specs.RuleTexts.{are_names, columns_of, parts_behind, parts_of, resource_of};

use crate::resource::{Columns, Resource};
use cell_types::{Name, NameList};
use name_rules::{is_name, name_of};
use std::alloc::{AllocError, Global};

/// How many columns a rule lists at most.
const MAX_LISTED: usize = 255;

// The name that a text is, if it is one.
fn name_in(alloc: Global, text: &str) -> Result<Option<Name>, AllocError>
    ensures { IfOk result (λ n. n ≡ cond (is_name text.now) (Some text.now) None) }
{
    if !is_name(text) {
        return Ok(None);
    }
    Ok(Some(name_of(alloc, text)?))
}

// What stands before the first comma, and what behind it, where there is one.
fn first_part(text: &str) -> (&str, Option<&str>)
    ensures { parts_of text.now ≡ result.0.now ∷ parts_behind result.1 }
{
    match text.split_once(',') {
        Some((part, behind)) => (part, Some(behind)),
        None => (text, None),
    }
}

// The names between the commas of a text, if all of these are names and no more than 255.
fn names_in(alloc: Global, text: &str) -> Result<Option<NameList>, AllocError>
    ensures { IfOk result
        (λ o. o ≡ cond (are_names (parts_of text.now)) (Some (parts_of text.now)) None) }
{
    let mut names = NameList::new(alloc);
    let mut rest = text;
    for _count in 0..MAX_LISTED {
        let (part, behind) = first_part(rest);
        match name_in(alloc, part)? {
            Some(name) => names.push(name)?,
            None => return Ok(None),
        }
        match behind {
            Some(behind) => rest = behind,
            None => return Ok(Some(names)),
        }
    }
    Ok(None)
}

fn columns_of(alloc: Global, text: &str) -> Result<Option<Columns>, AllocError>
    ensures { IfOk result (λ c. c ≡ columns_of text.now) }
{
    if text == "*" {
        return Ok(Some(Columns::All));
    }
    match names_in(alloc, text)? {
        Some(names) => Ok(Some(Columns::These(names))),
        None => Ok(None),
    }
}

// A table with its columns, where these say some.
fn of_table(
    alloc: Global,
    table: &str,
    columns: Option<Columns>,
) -> Result<Option<Resource>, AllocError>
    requires { is_name table.now ≡ true }
    ensures { IfOk result (λ r. r ≡ option_map (resource.Table table.now) columns) }
{
    let Some(columns) = columns else {
        return Ok(None);
    };
    match name_of(alloc, table) {
        Ok(table) => Ok(Some(Resource::Table(table, columns))),
        Err(error) => {
            drop(columns);
            Err(error)
        }
    }
}

/// What the two texts of a resource say, or nothing where they do not read. The table's is a name,
/// and the columns' `*` or 1 to 255 names with commas between them; or both are `*`.
///
/// Errors: out of memory.
pub fn read_resource(
    alloc: Global,
    table: &str,
    columns: &str,
) -> Result<Option<Resource>, AllocError>
    ensures { IfOk result (λ r. r ≡ resource_of table.now columns.now) }
{
    if table == "*" {
        return Ok(if columns == "*" {
            Some(Resource::Document)
        } else {
            None
        });
    }
    if !is_name(table) {
        return Ok(None);
    }
    of_table(alloc, table, columns_of(alloc, columns)?)
}
