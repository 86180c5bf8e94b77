//! The words that mark values, and the names of errors.
ghost use Rattle.std.specs.Prelude.{◌≡◌};
ghost use Rattle.action_lines.specs.Marks.{mark_from, error_from};

use cell_types::ErrKind;

/// What stands first in the array of a value.
#[derive(Clone, Copy)]
pub(crate) enum Mark {
    List,
    Date,
    Rec,
    Rows,
    Err,
    Censored,
}

/// The mark of that text.
pub(crate) fn mark_of(text: &str) -> Option<Mark>
    ensures { result ≡ mark_from text.now }
{
    match text {
        "L" => Some(Mark::List),
        "d" => Some(Mark::Date),
        "R" => Some(Mark::Rec),
        "r" => Some(Mark::Rows),
        "E" => Some(Mark::Err),
        "C" => Some(Mark::Censored),
        _ => None,
    }
}

/// The error of that name.
pub(crate) fn error_of(name: &str) -> Option<ErrKind>
    ensures { result ≡ error_from name.now }
{
    match name {
        "CircularRefError" => Some(ErrKind::Circular),
        "ZeroDivisionError" => Some(ErrKind::ZeroDivision),
        "TypeError" => Some(ErrKind::WrongType),
        "AttributeError" => Some(ErrKind::Attribute),
        "KeyError" => Some(ErrKind::Key),
        "NameError" => Some(ErrKind::Name),
        "OverflowError" => Some(ErrKind::Overflow),
        "SyntaxError" => Some(ErrKind::Syntax),
        _ => None,
    }
}
