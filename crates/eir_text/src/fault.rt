//! Why a text is no program.

ghost use Rattle.std.specs.Prelude.{◌≡◌};
ghost use Rattle.eir_text.specs.declared.fault.EirFault.TheVariants.{Memory};

use std::alloc::{AllocError, AllocFailed};
use thiserror::Error;

/// Why a text is refused. Lines count from 1.
#[derive(Clone, Copy, Debug, PartialEq, Eq, Error)]
pub enum EirFault {
    /// The line has no form, or its statement stands in the wrong section.
    #[error("BadLine at {0}")]
    BadLine(u32),
    /// A number, an addend or a piece's number of the line is above 2^24 - 1.
    #[error("NumberRange at {0}")]
    NumberRange(u32),
    /// The line defines a label that was defined before.
    #[error("DuplicateLabel at {0}")]
    DuplicateLabel(u32),
    /// The line uses a label that no line defines.
    #[error("UnknownLabel at {0}")]
    UnknownLabel(u32),
    /// The blocks, operations and data words are more than 2^21 together.
    #[error("TooLarge")]
    TooLarge,
    /// Memory ran out.
    #[error("out of memory")]
    Memory,
}

impl From<AllocError> for EirFault {
    ghost from_gives = { λ _ e. e ≡ Memory };

    fn from(_e: AllocError) -> EirFault {
        EirFault::Memory
    }
}

impl<T: Drop> From<AllocFailed<T>> for EirFault {
    ghost from_gives = { λ _ e. e ≡ Memory };

    fn from(_e: AllocFailed<T>) -> EirFault {
        EirFault::Memory
    }
}
