//! Why a text has no tokens.

ghost use Rattle.std.specs.Prelude.{◌≡◌};
ghost use Rattle.c_prep.specs.declared.fault.PrepFault.TheVariants.{Memory};

use std::alloc::{AllocError, AllocFailed};

/// Why a text has no tokens, and the place.
#[derive(Clone, Copy, PartialEq, Eq, Debug)]
pub enum PrepFault {
    /// A byte that starts no token or doesn't belong to one, an escape that is none, or a `#` that stays in the result.
    BadChar(u32),
    /// A comment, string or character constant that isn't closed.
    Unclosed(u32),
    /// A number above 16,777,215 that stays in the result.
    NumberRange(u32),
    /// A directive that is none, a name that it lacks or that is a keyword, or a token too many.
    BadDirective(u32),
    /// An `#else` or `#endif` that no conditional waits for, or a conditional that is left open.
    Unbalanced(u32),
    /// More than 1,000,000 tokens before the end, or more than 1,000,000 names replaced.
    TooLarge,
    Memory,
}

impl From<AllocError> for PrepFault {
    ghost from_gives = { λ _ e. e ≡ Memory };

    fn from(_e: AllocError) -> PrepFault {
        PrepFault::Memory
    }
}

impl<T: Drop> From<AllocFailed<T>> for PrepFault {
    ghost from_gives = { λ _ e. e ≡ Memory };

    fn from(_e: AllocFailed<T>) -> PrepFault {
        PrepFault::Memory
    }
}
