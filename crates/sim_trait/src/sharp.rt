// Back ends whose programs take few steps for each step.

ghost use Rattle.std.specs.Prelude.{◌≤◌, Bool};
ghost use Rattle.mach_core.specs.Outside.{Rose};
ghost use Rattle.eir_core.specs.Eir.{size_of};
ghost use Rattle.sim_trait.specs.Bound.{sharp_bound};
ghost use Rattle.sim_trait.specs.Laws.{TranslatesSharply};
ghost use Rattle.sim_trait.specs.Faithful.{Faithful};
ghost use Rattle.sim_trait.specs.Emit.{EmitAnswers};

use crate::backend::{Backend, EmitFault};
use eir_core::Program;
use mach_core::Sink;
use std::alloc::Global;

/// What emits EIR programs for a target such that loading alone counts the size of the program: each of its
/// steps is followed by `FACTOR` steps of the target at most, once more for each binary digit of the number of
/// blocks where `DIGITS` says so.
pub trait Sharp: Backend {
    /// Whether the number of binary digits of the number of blocks counts.
    const DIGITS: bool;

    /// `DIGITS`, for clauses.
    ghost DIGITS: { Bool };

    /// As `emit`, with a program of the target that is sharp besides.
    fn emit_sharply<O: Sink>(alloc: Global, p: &Program, out: &mut O) -> Result<(), EmitFault>
        ensures answers { EmitAnswers (size_of p.now) Self.LIMIT (Rose (O.faults out.old) (O.faults out.new))
            (λ text. (q : Self.Target.Code) × TranslatesSharply Self.spells Self.Target.rule Self.Target.start Self.related (record { factor = Self.FACTOR; by_reach = Self.BY_REACH }) DIGITS p.now text q)
            (O.got out.old) (O.got out.new) result }
        ensures later { O.faults out.old ≤ O.faults out.new };
}

/// Emits a program for a target, as `emit_to` does with the same answers and for the same causes. What the
/// program does in so many steps the text that comes out does within the sharp bound too: that of `emit_to`
/// grows with the product of the size and the steps, and this one with the size and with the steps.
pub fn emit_sharp<B: Sharp, O: Sink>(
    alloc: Global,
    p: &Program,
    out: &mut O,
) -> Result<(), EmitFault>
    ensures answers { EmitAnswers (size_of p.now) B.LIMIT (Rose (O.faults out.old) (O.faults out.new))
        (Faithful B.spells B.Target.rule B.Target.start (sharp_bound (record { factor = B.FACTOR; by_reach = B.BY_REACH }) B.DIGITS) p.now)
        (O.got out.old) (O.got out.new) result }
    ensures later { O.faults out.old ≤ O.faults out.new }
{
    B::emit_sharply(alloc, p, out)
}
