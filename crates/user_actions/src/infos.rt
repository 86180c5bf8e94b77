//! The types that texts name.

ghost use Rattle.std.specs.Prelude.{◌≡◌, true, Some, None, IfOk, IfSome, codes, is_some};
ghost use Rattle.std.specs.Option.{option_copied};
ghost use Rattle.cell_types.specs.NameRule.{is_name};
ghost use Rattle.user_actions.specs.Infos.{behind, name_behind, named, plain_type_of, reference_type_of, type_of};

use cell_types::ColType;
use name_rules::{is_name, name_of};
use std::alloc::{AllocError, Global};

// The type of numbers, truths or dates that a text names.
fn scalar_type_of(text: &str) -> Option<ColType>
    ensures { result
        ≡ named text.now (codes "Int") ColType.Int
        (named text.now (codes "Bool") ColType.Bool
        (named text.now (codes "Date") ColType.Date None)) }
{
    if text == "Int" {
        return Some(ColType::Int);
    }
    if text == "Bool" {
        return Some(ColType::Bool);
    }
    if text == "Date" {
        return Some(ColType::Date);
    }
    None
}

// The type that a text names, but for references.
fn plain_type_of(text: &str) -> Option<ColType>
    ensures { result ≡ plain_type_of text.now }
{
    if text == "Any" {
        return Some(ColType::Any);
    }
    if text == "Text" {
        return Some(ColType::Text);
    }
    scalar_type_of(text)
}

// The rest of a text behind a beginning.
fn behind<'a>(start: &str, text: &'a str) -> Option<&'a str>
    ensures { option_copied result ≡ behind start.now text.now }
{
    text.strip_prefix(start)
}

// The name that stands behind a beginning.
fn name_behind<'a>(start: &str, text: &'a str) -> Option<&'a str>
    ensures value { option_copied result ≡ name_behind start.now text.now }
    ensures name { IfSome result (λ rest. is_name rest.now ≡ true) }
{
    let rest = behind(start, text)?;
    if !is_name(rest) {
        return None;
    }
    Some(rest)
}

// The type of references that a text names.
fn reference_type_of(alloc: Global, text: &str) -> Result<Option<ColType>, AllocError>
    ensures { IfOk result (λ o. o ≡ reference_type_of text.now) }
{
    if let Some(table) = name_behind("Ref:", text) {
        return Ok(Some(ColType::Ref(name_of(alloc, table)?)));
    }
    match name_behind("RefList:", text) {
        Some(table) => Ok(Some(ColType::RefList(name_of(alloc, table)?))),
        None => Ok(None),
    }
}

/// The type that a text names.
///
/// Memory: a copy of the id of a table that it names.
pub(crate) fn type_of(alloc: Global, text: &str) -> Result<Option<ColType>, AllocError>
    ensures { IfOk result (λ o. o ≡ type_of text.now) }
{
    match plain_type_of(text) {
        Some(ty) => Ok(Some(ty)),
        None => reference_type_of(alloc, text),
    }
}

// Whether a text names a type of references.
fn is_reference_type(text: &str) -> bool
    ensures { result ≡ is_some (reference_type_of text.now) }
{
    name_behind("Ref:", text).is_some() || name_behind("RefList:", text).is_some()
}

/// Whether a text names a type.
pub(crate) fn is_type(text: &str) -> bool
    ensures { result ≡ is_some (type_of text.now) }
{
    plain_type_of(text).is_some() || is_reference_type(text)
}
