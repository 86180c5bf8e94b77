//! Why an evaluation has no value.

use cell_types::{CellId, ErrKind};
use std::alloc::{AllocError, AllocFailed};
use value_ops::OpFault;

/// Why an evaluation has no value.
#[derive(Drop)]
pub(crate) enum Halt {
    Raised(ErrKind),
    Circular,
    Need(CellId),
    NoMemory,
}

impl From<AllocError> for Halt {
    ghost use Rattle.std.specs.Prelude.{◌≡◌};
    ghost use Rattle.formula_eval.specs.declared.halt.Halt.TheVariants.{NoMemory};

    ghost from_gives = { λ _ made. made ≡ NoMemory };

    fn from(error: AllocError) -> Self {
        let _ = error;
        Halt::NoMemory
    }
}

impl<T: Drop> From<AllocFailed<T>> for Halt {
    ghost use Rattle.std.specs.Prelude.{◌≡◌};
    ghost use Rattle.formula_eval.specs.declared.halt.Halt.TheVariants.{NoMemory};

    ghost from_gives = { λ _ made. made ≡ NoMemory };

    fn from(error: AllocFailed<T>) -> Self {
        let _ = error;
        Halt::NoMemory
    }
}

impl From<OpFault> for Halt {
    ghost use Rattle.std.specs.Prelude.{◌≡◌};
    ghost use Rattle.formula_eval.specs.Halted.{halt_of};

    ghost from_gives = { λ fault made. made ≡ halt_of fault };

    fn from(fault: OpFault) -> Self {
        match fault {
            OpFault::Raised(kind) => Halt::Raised(kind),
            OpFault::NoMemory => Halt::NoMemory,
        }
    }
}
