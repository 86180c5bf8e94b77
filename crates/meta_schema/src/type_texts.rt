//! Names and types, read from their texts.

ghost use Rattle.std.specs.Prelude.{◌≡◌, ◌++◌, None, codes, IfOk, option_copied};
ghost use Rattle.std.specs.Str.{bytes_eq};
ghost use Rattle.cell_types.specs.declared.column_type.ColType.TheVariants.{Ref, RefList};
ghost use Rattle.doc_model.specs.Schema.{type_text};
ghost use Rattle.meta_schema.specs.Decoding.{after, name_of, reference, type_of};

use cell_types::{CellText, ColType, Name};
use std::alloc::{AllocError, Global};

/// The name of that text, where it has 1 to 64 characters.
pub fn name_of(alloc: Global, text: &str) -> Result<Option<Name>, AllocError>
    ensures { IfOk result (λ o. o ≡ name_of text.now) }
{
    Ok(Name::try_new(CellText::copy_of(alloc, text)?))
}

// What follows a word at the front of a text.
fn after<'a>(text: &'a str, word: &str) -> Option<&'a str>
    ensures { option_copied result ≡ after word.now text.now }
{
    text.strip_prefix(word)
}

// The type whose word stands before the name of a table.
fn reference_of(alloc: Global, text: &str) -> Result<Option<ColType>, AllocError>
    ensures { IfOk result
        (λ o. o ≡ reference text.now (codes "Ref:") Ref
        (reference text.now (codes "RefList:") RefList None)) }
{
    if let Some(table) = after(text, "Ref:") {
        return Ok(name_of(alloc, table)?.map(|name| ColType::Ref(name)));
    }
    if let Some(table) = after(text, "RefList:") {
        return Ok(name_of(alloc, table)?.map(|name| ColType::RefList(name)));
    }
    Ok(None)
}

/// The type that a text says.
pub fn type_of(alloc: Global, text: &str) -> Result<Option<ColType>, AllocError>
    ensures { IfOk result (λ o. o ≡ type_of text.now) }
{
    if text == "Any" {
        return Ok(Some(ColType::Any));
    }
    if text == "Text" {
        return Ok(Some(ColType::Text));
    }
    if text == "Int" {
        return Ok(Some(ColType::Int));
    }
    if text == "Bool" {
        return Ok(Some(ColType::Bool));
    }
    if text == "Date" {
        return Ok(Some(ColType::Date));
    }
    reference_of(alloc, text)
}

// Whether a text is a word and then the name of that table.
#[tactic(auto, using(crate::proofs::TextLemmas::names_told))]
fn names_table(text: &str, word: &str, table: &Name) -> bool
    ensures { result ≡ bytes_eq text.now (word.now ++ table.now) }
{
    match after(text, word) {
        Some(rest) => rest == table.as_str(),
        None => false,
    }
}

/// Whether a text is that of a type.
pub(crate) fn is_type_text(text: &str, ty: &ColType) -> bool
    ensures { result ≡ bytes_eq text.now (type_text ty.now) }
{
    match ty {
        ColType::Any => text == "Any",
        ColType::Text => text == "Text",
        ColType::Int => text == "Int",
        ColType::Bool => text == "Bool",
        ColType::Date => text == "Date",
        ColType::Ref(table) => names_table(text, "Ref:", table),
        ColType::RefList(table) => names_table(text, "RefList:", table),
    }
}
