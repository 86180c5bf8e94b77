//! Why an operator has no result.

use cell_types::{ErrKind, error_name};
use std::alloc::AllocError;
use std::fmt;

/// Why an operator has no result.
#[derive(Clone, Copy, Debug)]
pub enum OpFault {
    /// The formula raises this error.
    Raised(ErrKind),
    /// Memory is wanting; this says nothing of the operands.
    NoMemory,
}

impl fmt::Display for OpFault {
    ghost use Rattle.std.specs.Prelude.{Some};
    ghost use Rattle.value_ops.specs.Message.{message_of};

    ghost output = { λ fault. Some (message_of fault) };

    fn fmt<W: fmt::Write>(&self, f: &mut fmt::Formatter<W>) -> fmt::Result {
        match self {
            OpFault::Raised(kind) => write!(f, "the operator raises {}", error_name(*kind)),
            OpFault::NoMemory => write!(f, "out of memory"),
        }
    }
}

impl std::error::Error for OpFault {}

impl From<ErrKind> for OpFault {
    ghost use Rattle.std.specs.Prelude.{◌≡◌};
    ghost use Rattle.value_ops.specs.declared.fault.OpFault.TheVariants.{Raised};

    ghost from_gives = { λ kind made. made ≡ Raised kind };

    fn from(kind: ErrKind) -> OpFault {
        OpFault::Raised(kind)
    }
}

impl From<AllocError> for OpFault {
    ghost use Rattle.std.specs.Prelude.{◌≡◌};
    ghost use Rattle.value_ops.specs.declared.fault.OpFault.TheVariants.{NoMemory};

    ghost from_gives = { λ _ made. made ≡ NoMemory };

    fn from(_fault: AllocError) -> OpFault {
        OpFault::NoMemory
    }
}
