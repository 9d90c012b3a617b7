// Runs of programs.
ghost use Rattle.std.specs.Prelude.{◌≡◌, ◌≤◌, ◌^◌, length, false};
ghost use Rattle.elvm_cli.specs.Seen.{on_sink, on_source};
ghost use Rattle.elvm_cli.specs.Runs.{runs_by};
ghost use Rattle.elvm_cli.specs.Shows.{RunShows, RunTextShows};
ghost use Rattle.elvm_cli.specs.Languages.{EirRefused, EirSpells, eir_runs};
ghost use Rattle.elvm_cli.specs.Answer.{IsEarly};

use crate::language::Language;
use crate::outcome::Outcome;
use crate::read::eir_program;
use eir_core::EirMachine;
use mach_core::{Machine, RunEnd, RunFault, Sink, Source, run_machine};
use std::alloc::{AllocError, Global};

// Runs a machine for at most so many steps.
fn run<M: Machine, I: Source, O: Sink>(m: &mut M, steps: u64, input: &mut I, out: &mut O) -> Outcome
    requires { I.over input.old ≡ false }
    ensures { RunShows (runs_by (M.rule (M.code m.old)) (M.config m.old)) steps
        (on_source (I.faults input.old) (I.faults input.new) (I.left input.old) (I.left input.new))
        (on_sink (O.faults out.old) (O.faults out.new) (O.got out.old) (O.got out.new)) result }
{
    match run_machine(m, steps, input, out) {
        Ok(RunEnd::Ended) => Outcome::Done,
        Ok(RunEnd::Limit) => Outcome::Limit,
        Ok(RunEnd::Fault(code)) => Outcome::Fault { code },
        Err(RunFault::Read) => Outcome::NoInput,
        Err(RunFault::Write) => Outcome::NoOutput,
        Err(RunFault::Memory) => Outcome::NoMemory,
    }
}

/// Runs the program of an EIR text.
pub fn run_eir_text<I: Source, O: Sink>(
    alloc: Global,
    text: &[u8],
    steps: u64,
    input: &mut I,
    out: &mut O,
) -> Outcome
    requires short { length text.now ≤ 2 ^ 29 }
    requires open { I.over input.old ≡ false }
    ensures shows { RunTextShows EirSpells EirRefused eir_runs steps
        (on_source (I.faults input.old) (I.faults input.new) (I.left input.old) (I.left input.new))
        (on_sink (O.faults out.old) (O.faults out.new) (O.got out.old) (O.got out.new)) text.now result }
    ensures early { IsEarly result → input.new ≡ input.old }
{
    let program = match eir_program(alloc, text) {
        Ok(program) => program,
        Err(outcome) => return outcome,
    };
    match EirMachine::new(alloc, &program) {
        Ok(mut machine) => run(&mut machine, steps, input, out),
        Err(AllocError) => Outcome::NoMemory,
    }
}

/// Runs the program of a text.
pub fn run_text<L: Language, I: Source, O: Sink>(
    alloc: Global,
    codel: u32,
    text: &[u8],
    steps: u64,
    input: &mut I,
    out: &mut O,
) -> Outcome
    requires short { length text.now ≤ 2 ^ 29 }
    requires some { 1 ≤ codel }
    requires open { I.over input.old ≡ false }
    ensures shows { RunTextShows (L.spells codel) (L.refused codel) (λ code. runs_by (L.rule code) (L.start code)) steps
        (on_source (I.faults input.old) (I.faults input.new) (I.left input.old) (I.left input.new))
        (on_sink (O.faults out.old) (O.faults out.new) (O.got out.old) (O.got out.new)) text.now result }
    ensures early { IsEarly result → input.new ≡ input.old }
{
    match L::load(alloc, codel, text) {
        Ok(mut machine) => run(&mut machine, steps, input, out),
        Err(outcome) => outcome,
    }
}
