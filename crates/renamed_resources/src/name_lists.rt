//! Lists of names as a text has them.

ghost use Rattle.std.specs.Prelude.{◌≡◌, ◌∷◌, Some, None, IfOk, cond};
ghost use Rattle.cell_types.specs.NameRule.{is_name};
ghost use Rattle.renamed_resources.specs.NameLists.{names_of, parts_behind, parts_of};

use cell_types::{Name, NameList};
use name_rules::{is_name, name_of};
use std::alloc::{AllocError, Global};

/// How many names a text lists at most.
const MAX_LISTED: usize = 255;

// The name that a text is, if it is one.
fn name_in(alloc: Global, text: &str) -> Result<Option<Name>, AllocError>
    ensures { IfOk result (λ n. n ≡ cond (is_name text.now) (Some text.now) None) }
{
    if !is_name(text) {
        return Ok(None);
    }
    Ok(Some(name_of(alloc, text)?))
}

// What stands before the first comma, and what behind it, where there is one.
fn first_part(text: &str) -> (&str, Option<&str>)
    ensures { parts_of text.now ≡ result.0.now ∷ parts_behind result.1 }
{
    match text.split_once(',') {
        Some((part, behind)) => (part, Some(behind)),
        None => (text, None),
    }
}

/// The names between the commas of a text, if all of these are names and no more than 255.
///
/// Errors: out of memory.
pub fn names_in(alloc: Global, text: &str) -> Result<Option<NameList>, AllocError>
    ensures { IfOk result (λ o. o ≡ names_of text.now) }
{
    let mut names = NameList::new(alloc);
    let mut rest = text;
    for _count in 0..MAX_LISTED {
        let (part, behind) = first_part(rest);
        match name_in(alloc, part)? {
            Some(name) => names.push(name)?,
            None => return Ok(None),
        }
        match behind {
            Some(behind) => rest = behind,
            None => return Ok(Some(names)),
        }
    }
    Ok(None)
}
