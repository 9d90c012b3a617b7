// Why a step leads to no next instruction.

ghost use Rattle.std.specs.Prelude.{◌≡◌};

use c_store::Act;
use std::alloc::AllocError;

/// Why a step leads to no next instruction.
#[derive(Clone, Copy)]
pub enum Halt {
    /// The run ends.
    Ended,
    /// A unit of fuel is wanted, and none is left.
    Exhausted,
    /// An undefined act.
    Act(Act),
    /// Memory is wanted; nothing was done.
    Memory,
}

impl From<Act> for Halt {
    ghost use Rattle.std.specs.Prelude.{◌≡◌};
    ghost use Rattle.c_parts.specs.declared.halt.Halt.TheVariants as halt;

    ghost from_gives = { λ act e. e ≡ halt.Act act };

    fn from(act: Act) -> Self {
        Halt::Act(act)
    }
}

impl From<AllocError> for Halt {
    ghost use Rattle.std.specs.Prelude.{◌≡◌};
    ghost use Rattle.c_parts.specs.declared.halt.Halt.TheVariants as halt;

    ghost from_gives = { λ _ e. e ≡ halt.Memory };

    fn from(_: AllocError) -> Self {
        Halt::Memory
    }
}
