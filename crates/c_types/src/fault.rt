//! Why a tree is refused.

ghost use Rattle.std.specs.Prelude.{◌≡◌};
ghost use Rattle.c_types.specs.declared.fault.TypeFault.TheVariants.{Memory};

use std::alloc::{AllocError, AllocFailed};
use thiserror::Error;

/// Why a tree is refused, with the place in the text. Of several refusals the lowest place is told, and at one
/// place the first of these.
#[derive(Clone, Copy, Debug, PartialEq, Eq, Error)]
pub enum TypeFault {
    /// A name, tag or member that is not declared before.
    #[error("Unknown at {0}")]
    Unknown(u32),
    /// A second declaration in a scope, an equal case or a second default.
    #[error("Twice at {0}")]
    Twice(u32),
    /// Any other break of the rules of types.
    #[error("Mismatch at {0}")]
    Mismatch(u32),
    /// An operand that has to be a place and is none.
    #[error("NotLvalue at {0}")]
    NotLvalue(u32),
    /// A call that no function takes so, or a function's name used as a value without a definition.
    #[error("BadCall at {0}")]
    BadCall(u32),
    /// No definition of `main` without parameters that gives an int; the place is the end of the text.
    #[error("NoMain at {0}")]
    NoMain(u32),
    /// A tree above the limits on weight and words.
    #[error("TooLarge")]
    TooLarge,
    #[error("out of memory")]
    Memory,
}

impl From<AllocError> for TypeFault {
    ghost from_gives = { λ _ e. e ≡ Memory };

    fn from(_: AllocError) -> Self {
        TypeFault::Memory
    }
}
