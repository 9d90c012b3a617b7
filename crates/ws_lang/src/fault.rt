// Why a text is no program.
ghost use Rattle.std.specs.Prelude.{◌≡◌};
ghost use Rattle.ws_lang.specs.declared.fault.WsFault.TheVariants.{Memory};

use std::alloc::{AllocError, AllocFailed};
use thiserror::Error;

/// Why a text is no program. A position counts the bytes of the text before it, comments too.
#[derive(Clone, Copy, Debug, PartialEq, Eq, Error)]
pub enum WsFault {
    /// Where an instruction begins that is cut or has no form.
    #[error("BadForm at {0}")]
    BadForm(u32),
    /// Where an instruction begins whose number is outside signed 64 bits.
    #[error("NumberRange at {0}")]
    NumberRange(u32),
    /// Where a mark begins whose label was marked before.
    #[error("DuplicateLabel at {0}")]
    DuplicateLabel(u32),
    /// Where an instruction begins whose label is marked nowhere.
    #[error("UnknownLabel at {0}")]
    UnknownLabel(u32),
    #[error("out of memory")]
    Memory,
}

impl From<AllocError> for WsFault {
    ghost from_gives = { λ _ e. e ≡ Memory };

    fn from(_: AllocError) -> Self {
        WsFault::Memory
    }
}

impl<T: Drop> From<AllocFailed<T>> for WsFault {
    ghost from_gives = { λ _ e. e ≡ Memory };

    fn from(_: AllocFailed<T>) -> Self {
        WsFault::Memory
    }
}
