// Back ends.

ghost use Rattle.std.specs.Prelude.{◌≡◌, ℕ, ◌≤◌, List, Bool};
ghost use Rattle.mach_core.specs.Outside.{Rose};
ghost use Rattle.eir_core.specs.Eir.{Eir, size_of};
ghost use Rattle.eir_core.specs.Step.{Config};
ghost use Rattle.sim_trait.specs.Bound.{bound};
ghost use Rattle.sim_trait.specs.Laws.{Translates};
ghost use Rattle.sim_trait.specs.Faithful.{Faithful};
ghost use Rattle.sim_trait.specs.Emit.{EmitAnswers};

use eir_core::Program;
use mach_core::{Machine, Sink};
use std::alloc::Global;
use thiserror::Error;

/// Why a program was not emitted.
#[derive(Clone, Copy, Debug, PartialEq, Eq, Error)]
pub enum EmitFault {
    #[error("a program of size {size} is too large for the target")]
    TooLarge { size: u32 },
    #[error("the text can't be written")]
    Write,
    #[error("out of memory")]
    Memory,
}

/// What emits EIR programs for a target. Its `emit` shows what `emit_to` needs of each single step.
pub trait Backend {
    /// The machine that executes the target's programs.
    type Target: Machine;

    /// The greatest size of a program that is emitted.
    const LIMIT: u32;

    /// How many target steps stand for one step of a program, for each unit of its size and one more.
    const FACTOR: u64;

    /// Whether that number is taken once more for each record of memory on the way to an address.
    const BY_REACH: bool;

    /// `LIMIT`, for clauses.
    ghost LIMIT: { ℕ };

    /// `FACTOR`, for clauses.
    ghost FACTOR: { ℕ };

    /// `BY_REACH`, for clauses.
    ghost BY_REACH: { Bool };

    /// The text spells a program of the target that its machine takes.
    ghost spells: { List ℕ → Self.Target.Code → Type 0 };

    /// Of a program and the target's program for it: a configuration of the one and one of the other that are at the same.
    ghost related: { Eir → Self.Target.Code → Config → Self.Target.Config → Type 0 };

    /// Writes a text of a program of the target that does what this one does, step by step.
    fn emit<O: Sink>(alloc: Global, p: &Program, out: &mut O) -> Result<(), EmitFault>
        ensures answers { EmitAnswers (size_of p.now) LIMIT (Rose (O.faults out.old) (O.faults out.new))
            (λ text. (q : Self.Target.Code) × Translates spells Self.Target.rule Self.Target.start related (record { factor = FACTOR; by_reach = BY_REACH }) p.now text q)
            (O.got out.old) (O.got out.new) result }
        ensures later { O.faults out.old ≤ O.faults out.new };
}

/// Emits a program for a target. The text that comes out is faithful to the program: for every input it
/// writes the same, takes the same input, and ends exactly if the program does.
///
/// `TooLarge` comes exactly where the program's size is above the target's limit, and nothing was written then.
/// `Write` comes only where the sink's count of faults rose. After `Write` and `Memory` the sink got a front
/// of a faithful text.
pub fn emit_to<B: Backend, O: Sink>(
    alloc: Global,
    p: &Program,
    out: &mut O,
) -> Result<(), EmitFault>
    ensures answers { EmitAnswers (size_of p.now) B.LIMIT (Rose (O.faults out.old) (O.faults out.new))
        (Faithful B.spells B.Target.rule B.Target.start (bound (record { factor = B.FACTOR; by_reach = B.BY_REACH })) p.now)
        (O.got out.old) (O.got out.new) result }
    ensures later { O.faults out.old ≤ O.faults out.new }
{
    B::emit(alloc, p, out)
}
