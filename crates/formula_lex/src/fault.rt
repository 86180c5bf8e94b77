//! Why there are no tokens.

use std::alloc::{AllocError, AllocFailed};
use std::fmt;

/// Why a text has no tokens.
#[derive(Clone, Copy, Debug)]
pub enum LexFault {
    /// No list of tokens spells the text. The place is that of the character that ends the reading.
    ///
    /// Units: `at` counts bytes.
    Bad { at: usize },
    /// Out of memory.
    NoMemory,
}

impl fmt::Display for LexFault {
    ghost use Rattle.std.specs.Prelude.{Some};
    ghost use Rattle.formula_lex.specs.Message.{message_of};

    ghost output = { λ fault. Some (message_of fault) };

    fn fmt<W: fmt::Write>(&self, f: &mut fmt::Formatter<W>) -> fmt::Result {
        match self {
            LexFault::Bad { at } => write!(f, "no token at byte {at}"),
            LexFault::NoMemory => write!(f, "out of memory"),
        }
    }
}

impl std::error::Error for LexFault {}

impl From<AllocError> for LexFault {
    ghost use Rattle.std.specs.Prelude.{◌≡◌};
    ghost use Rattle.formula_lex.specs.declared.fault.LexFault.TheVariants.{NoMemory};

    ghost from_gives = { λ _ made. made ≡ NoMemory };

    fn from(error: AllocError) -> Self {
        let _ = error;
        LexFault::NoMemory
    }
}

/// What ends a reading, of characters or of tokens, at a place that its loop knows.
#[derive(Clone, Copy)]
pub enum Stop {
    /// Nothing that is read has this at the place.
    Bad,
    /// Out of memory.
    NoMemory,
}

impl From<AllocError> for Stop {
    ghost use Rattle.std.specs.Prelude.{◌≡◌};
    ghost use Rattle.formula_lex.specs.declared.fault.Stop.TheVariants.{NoMemory};

    ghost from_gives = { λ _ made. made ≡ NoMemory };

    fn from(error: AllocError) -> Self {
        let _ = error;
        Stop::NoMemory
    }
}

impl<T: Drop> From<AllocFailed<T>> for Stop {
    ghost use Rattle.std.specs.Prelude.{◌≡◌};
    ghost use Rattle.formula_lex.specs.declared.fault.Stop.TheVariants.{NoMemory};

    ghost from_gives = { λ _ made. made ≡ NoMemory };

    fn from(error: AllocFailed<T>) -> Self {
        let _ = error;
        Stop::NoMemory
    }
}
