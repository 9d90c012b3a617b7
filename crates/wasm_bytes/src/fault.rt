// Why bytes are no module.
ghost use Rattle.std.specs.Prelude.{◌≡◌};
ghost use Rattle.wasm_bytes.specs.declared.fault.ModFault.TheVariants.{Memory};

use std::alloc::{AllocError, AllocFailed};
use thiserror::Error;

/// Why bytes are no module, at the lowest place of a byte that can't be taken.
#[derive(Clone, Copy, Debug, PartialEq, Eq, Error)]
pub enum ModFault {
    /// A byte that the binary grammar doesn't have at this place, or the end where a byte is wanted.
    #[error("Malformed at {0}")]
    Malformed(u32),
    /// A form of WebAssembly 1.0 that isn't about 32-bit integers.
    #[error("Unsupported at {0}")]
    Unsupported(u32),
    /// The first byte of a number that passes a limit, or an opcode that nests too deep.
    #[error("TooLarge at {0}")]
    TooLarge(u32),
    #[error("out of memory")]
    Memory,
}

impl From<AllocError> for ModFault {
    ghost from_gives = { λ _ e. e ≡ Memory };

    fn from(_: AllocError) -> Self {
        ModFault::Memory
    }
}

impl<T: Drop> From<AllocFailed<T>> for ModFault {
    ghost from_gives = { λ _ e. e ≡ Memory };

    fn from(_: AllocFailed<T>) -> Self {
        ModFault::Memory
    }
}
