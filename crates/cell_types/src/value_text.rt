//! The text of a value, and the names of errors.

ghost use Rattle.std.specs.Prelude.{◌≡◌, IfOk};
ghost use Rattle.cell_types.specs.ValueText.{err_text, text_within_bound};

use crate::bounded_text::{BoundedText, TextEnd};
use crate::{CellText, CellValue, ErrKind};
use std::alloc::{AllocError, Global};

/// The text of a value, as formulas and texts made of other values show it: `None`, `True`, `-7`,
/// `d86400`, `People[3]`, `People[[1, 2]]`, `[1, 'a']`; a text is itself. It is nothing where it
/// would have more than 65,536 bytes.
///
/// Cost: linear in the text, and never more than the bound, however long the list.
pub fn text_of(alloc: Global, value: &CellValue) -> Result<Option<CellText>, AllocError>
    ensures { IfOk result (λ o. o ≡ text_within_bound value.now) }
{
    let mut text = BoundedText::new(alloc);
    match text.write_value(value) {
        Ok(()) => Ok(Some(text.into_text()?)),
        Err(TextEnd::TooLong) => Ok(None),
        Err(TextEnd::NoMemory) => Err(AllocError),
    }
}

/// The name of an error, as cells show it.
///
/// Memory: none.
pub fn error_name(kind: ErrKind) -> &'static str
    ensures { result.now ≡ err_text kind }
{
    match kind {
        ErrKind::Circular => "CircularRefError",
        ErrKind::ZeroDivision => "ZeroDivisionError",
        ErrKind::WrongType => "TypeError",
        ErrKind::Attribute => "AttributeError",
        ErrKind::Key => "KeyError",
        ErrKind::Name => "NameError",
        ErrKind::Overflow => "OverflowError",
        ErrKind::Syntax => "SyntaxError",
    }
}
