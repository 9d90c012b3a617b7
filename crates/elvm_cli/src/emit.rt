// Emission of programs.
ghost use Rattle.std.specs.Prelude.{◌≤◌, ◌^◌, length};
ghost use Rattle.sim_trait.specs.Bound.{bound, sharp_bound};
ghost use Rattle.sim_trait.specs.Faithful.{Faithful};
ghost use Rattle.elvm_cli.specs.Seen.{on_sink};
ghost use Rattle.elvm_cli.specs.Shows.{EmitShows, EmitTextShows};
ghost use Rattle.elvm_cli.specs.Languages.{EirRefused, EirSpells};

use crate::outcome::Outcome;
use crate::read::eir_program;
use eir_core::Program;
use mach_core::Sink;
use sim_trait::{Backend, EmitFault, Sharp, emit_sharp, emit_to};
use std::alloc::Global;

/// Emits a program for a target.
pub fn emit_program<B: Backend, O: Sink>(alloc: Global, program: &Program, out: &mut O) -> Outcome
    ensures { EmitShows B.LIMIT (Faithful B.spells B.Target.rule B.Target.start (bound (record { factor = B.FACTOR; by_reach = B.BY_REACH })))
        (on_sink (O.faults out.old) (O.faults out.new) (O.got out.old) (O.got out.new)) program.now result }
{
    match emit_to::<B, O>(alloc, program, out) {
        Ok(()) => Outcome::Done,
        Err(EmitFault::TooLarge { .. }) => Outcome::TooLarge,
        Err(EmitFault::Write) => Outcome::NoOutput,
        Err(EmitFault::Memory) => Outcome::NoMemory,
    }
}

/// Emits a program for a target, within the sharp bound.
pub fn emit_program_sharply<B: Sharp, O: Sink>(
    alloc: Global,
    program: &Program,
    out: &mut O,
) -> Outcome
    ensures { EmitShows B.LIMIT (Faithful B.spells B.Target.rule B.Target.start (sharp_bound (record { factor = B.FACTOR; by_reach = B.BY_REACH }) B.DIGITS))
        (on_sink (O.faults out.old) (O.faults out.new) (O.got out.old) (O.got out.new)) program.now result }
{
    match emit_sharp::<B, O>(alloc, program, out) {
        Ok(()) => Outcome::Done,
        Err(EmitFault::TooLarge { .. }) => Outcome::TooLarge,
        Err(EmitFault::Write) => Outcome::NoOutput,
        Err(EmitFault::Memory) => Outcome::NoMemory,
    }
}

/// Emits the program of an EIR text.
pub fn emit_text<B: Backend, O: Sink>(alloc: Global, text: &[u8], out: &mut O) -> Outcome
    requires { length text.now ≤ 2 ^ 29 }
    ensures { EmitTextShows EirSpells EirRefused B.LIMIT (Faithful B.spells B.Target.rule B.Target.start (bound (record { factor = B.FACTOR; by_reach = B.BY_REACH })))
        (on_sink (O.faults out.old) (O.faults out.new) (O.got out.old) (O.got out.new)) text.now result }
{
    match eir_program(alloc, text) {
        Ok(program) => emit_program::<B, O>(alloc, &program, out),
        Err(outcome) => outcome,
    }
}

/// Emits the program of an EIR text, within the sharp bound.
pub fn emit_text_sharply<B: Sharp, O: Sink>(alloc: Global, text: &[u8], out: &mut O) -> Outcome
    requires { length text.now ≤ 2 ^ 29 }
    ensures { EmitTextShows EirSpells EirRefused B.LIMIT (Faithful B.spells B.Target.rule B.Target.start (sharp_bound (record { factor = B.FACTOR; by_reach = B.BY_REACH }) B.DIGITS))
        (on_sink (O.faults out.old) (O.faults out.new) (O.got out.old) (O.got out.new)) text.now result }
{
    match eir_program(alloc, text) {
        Ok(program) => emit_program_sharply::<B, O>(alloc, &program, out),
        Err(outcome) => outcome,
    }
}
