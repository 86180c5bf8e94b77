//! Why there is no formula.

ghost use Rattle.std.specs.Prelude.{◌≡◌, Err};
ghost use Rattle.formula_lex.specs.declared.fault.Stop.{Stop};

use formula_lex::{LexFault, Stop};
use std::alloc::AllocError;
use std::fmt;

/// Why a text is no formula.
#[derive(Clone, Copy, Debug)]
pub enum ParseFault {
    /// No tree within the limits spells the text. The place is that of the token that ends the
    /// reading; nothing is claimed of it but that it lies in the text.
    ///
    /// Units: `at` counts bytes.
    Syntax { at: usize },
    /// Out of memory.
    NoMemory,
}

impl fmt::Display for ParseFault {
    ghost use Rattle.std.specs.Prelude.{Some};
    ghost use Rattle.formula_parse.specs.Message.{message_of};

    ghost output = { λ fault. Some (message_of fault) };

    fn fmt<W: fmt::Write>(&self, f: &mut fmt::Formatter<W>) -> fmt::Result {
        match self {
            ParseFault::Syntax { at } => write!(f, "no formula, from byte {at} on"),
            ParseFault::NoMemory => write!(f, "out of memory"),
        }
    }
}

impl std::error::Error for ParseFault {}

impl From<AllocError> for ParseFault {
    ghost use Rattle.std.specs.Prelude.{◌≡◌};
    ghost use Rattle.formula_parse.specs.declared.fault.ParseFault.TheVariants.{NoMemory};

    ghost from_gives = { λ _ made. made ≡ NoMemory };

    fn from(error: AllocError) -> Self {
        let _ = error;
        ParseFault::NoMemory
    }
}

impl From<LexFault> for ParseFault {
    ghost use Rattle.std.specs.Prelude.{◌≡◌};
    ghost use Rattle.formula_parse.specs.Parsed.{of_lexer};

    ghost from_gives = { λ fault made. made ≡ of_lexer fault };

    fn from(fault: LexFault) -> Self {
        match fault {
            LexFault::Bad { at } => ParseFault::Syntax { at },
            LexFault::NoMemory => ParseFault::NoMemory,
        }
    }
}

/// The end of a reading at what has no place there, which is dropped.
///
/// Its callers hand it over: where a value of many forms is dropped in place, each form is proved
/// anew.
pub(crate) fn refused<X, T: Drop>(rest: T) -> Result<X, Stop>
    ensures { result ≡ Err Stop.Bad }
{
    drop(rest);
    Err(Stop::Bad)
}
