// Why a module is refused.
ghost use Rattle.std.specs.Prelude.{◌≡◌};
ghost use Rattle.wasm_valid.specs.declared.fault.ValidFault.TheVariants.{Memory};

use std::alloc::{AllocError, AllocFailed};
use thiserror::Error;

/// Why a module is refused.
#[derive(Clone, Copy, Debug, PartialEq, Eq, Error)]
pub enum ValidFault {
    /// The number of the first body that is not typed, or the number of all bodies where the module's
    /// other rules are broken.
    #[error("Invalid at {0}")]
    Invalid(u32),
    #[error("out of memory")]
    Memory,
}

impl From<AllocError> for ValidFault {
    ghost from_gives = { λ _ e. e ≡ Memory };

    fn from(_: AllocError) -> Self {
        ValidFault::Memory
    }
}
