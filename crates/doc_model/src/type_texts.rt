//! The texts of types, as the schema tables and the lines of views have them.

ghost use Rattle.std.specs.Prelude.{◌≡◌, ◌++◌, IfOk};
ghost use Rattle.doc_model.specs.Schema.{type_text};

use cell_types::{CellText, ColType, Name};
use std::alloc::{AllocError, Global};

/// The text of a type.
///
/// Errors: out of memory. Source: docs/PROTOCOL.md, "user actions".
pub fn type_text(alloc: Global, ty: &ColType) -> Result<CellText, AllocError>
    ensures { IfOk result (λ t. t ≡ type_text ty.now) }
{
    match ty {
        ColType::Any => CellText::copy_of(alloc, "Any"),
        ColType::Text => CellText::copy_of(alloc, "Text"),
        ColType::Int => CellText::copy_of(alloc, "Int"),
        ColType::Bool => CellText::copy_of(alloc, "Bool"),
        ColType::Date => CellText::copy_of(alloc, "Date"),
        ColType::Ref(table) => joined(alloc, "Ref:", table),
        ColType::RefList(table) => joined(alloc, "RefList:", table),
    }
}

fn joined(alloc: Global, word: &str, table: &Name) -> Result<CellText, AllocError>
    ensures { IfOk result (λ t. t ≡ word.now ++ table.now) }
{
    let mut text = String::from_str(alloc, word)?;
    text.push_str(table.as_str())?;
    CellText::from_string(text)
}
