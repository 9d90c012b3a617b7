// Why a module is refused.

use thiserror::Error;

/// Why a module can't be run here.
#[derive(Clone, Copy, Debug, PartialEq, Eq, Error)]
pub enum LinkFault {
    /// An import is neither `env.getchar` of type [] to [i32] nor `env.putchar` of type [i32] to [].
    #[error("an import that is not known")]
    WrongImport,
    /// No exported function is called `main` and has the type [] to [].
    #[error("no function `main`")]
    NoMain,
    /// A data segment lies outside the memory as it is at the start.
    #[error("a data segment outside the memory")]
    BadData,
    #[error("out of memory")]
    Memory,
}
