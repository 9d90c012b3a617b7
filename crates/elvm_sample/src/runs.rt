// The sample program and its Whitespace text, and a run of each.
ghost use Rattle.std.specs.Prelude.{◌≡◌, ◌+◌, ◌*◌, ◌^◌, ◌≤◌, List, ℕ, [], IfOk};
ghost use Rattle.mach_core.specs.Rule.{run};
ghost use Rattle.eir_core.specs.Eir.{size_of};
ghost use Rattle.eir_core.specs.Step.{eir_rule, eir_start};
ghost use Rattle.ws_lang.specs.Instruction.{Instruction};
ghost use Rattle.ws_lang.specs.Spelling.{ws_spells};
ghost use Rattle.ws_lang.specs.Step.{ws_rule, ws_start};
ghost use Rattle.elvm_sample.specs.Program.{sample_program};
ghost use Rattle.elvm_sample.specs.Ends.{EndsAfter, EndsWithin};
ghost use Rattle.elvm_sample.specs.Line.{last_of};
ghost use Rattle.elvm_sample.specs.Sample.{StandsFor};

use crate::outside::{Grown, NoInput};
use eir_core::{EirMachine, Program};
use mach_core::{Machine, RunFault, is_going, run_machine};
use sim_trait::{EmitFault, emit_sharp};
use std::alloc::{AllocError, Global};
use ws_back::Whitespace;
use ws_lang::{WsFault, WsMachine, read_ws};

/// The last byte that a program writes in so many steps on no input.
pub fn last_byte(alloc: Global, program: &Program, steps: u64) -> Result<Option<u8>, AllocError>
    ensures { IfOk result (λ last. last ≡ last_of (run (eir_rule program.now) (eir_start program.now) [] steps).output) }
{
    let mut machine = EirMachine::new(alloc, program)?;
    let mut out = Grown::new(alloc);
    match run_machine(&mut machine, steps, &mut NoInput::new(), &mut out) {
        Ok(_) => Ok(out.bytes.last().copied()),
        Err(RunFault::Read) => unreachable!(),
        Err(RunFault::Write) => Err(AllocError),
        Err(RunFault::Memory) => Err(AllocError),
    }
}

/// The Whitespace text of a program, by the call that emits a file's program.
pub fn whitespace_text(alloc: Global, program: &Program) -> Result<Vec<u8>, AllocError>
    requires { size_of program.now ≤ 2 ^ 17 }
    ensures { IfOk result (λ text. StandsFor program.now text.items) }
{
    let mut out = Grown::new(alloc);
    match emit_sharp::<Whitespace, Grown>(alloc, program, &mut out) {
        Ok(()) => Ok(out.bytes),
        Err(EmitFault::TooLarge { .. }) => unreachable!(),
        Err(EmitFault::Write) => Err(AllocError),
        Err(EmitFault::Memory) => Err(AllocError),
    }
}

// Steps a machine on no input until its end, which comes within the bound, and counts the steps.
fn count_steps<M: Machine>(m: &mut M, bound: u64) -> Result<u64, AllocError>
    requires { EndsWithin (M.rule (M.code m.old)) (M.config m.old) [] bound }
    ensures { IfOk result (λ count. EndsAfter (M.rule (M.code m.old)) (M.config m.old) [] count) }
{
    for count in 0..bound {
        if !is_going(m) {
            return Ok(count);
        }
        let _moved = m.step(0)?;
    }
    Ok(bound)
}

// The most steps of the Whitespace program for a sample of `n` blocks: 2^8 for each step of the sample and one more,
// times its size and one.
fn step_bound(n: u32) -> u64
    requires { n ≤ 20000 }
    ensures { result ≡ 2 ^ 8 * (6 * n + 1) * (5 * n + 1) }
{
    let n = u64::from(n);
    256 * (6 * n + 1) * (5 * n + 1)
}

/// How many steps the program of a Whitespace text of the sample of `n` blocks makes until its end.
pub fn whitespace_steps(alloc: Global, n: u32, text: &[u8]) -> Result<u64, AllocError>
    requires few { n ≤ 20000 }
    requires stands { StandsFor (sample_program n) text.now }
    ensures { IfOk result (λ moves. (code : List Instruction) (input : List ℕ) → ws_spells text.now code → EndsAfter (ws_rule code) (ws_start code) input moves) }
{
    let program = match read_ws(alloc, text) {
        Ok(program) => program,
        Err(fault) => match fault {
            WsFault::Memory => return Err(AllocError),
            _ => unreachable!(),
        },
    };
    let mut machine = WsMachine::new(alloc, program)?;
    count_steps(&mut machine, step_bound(n))
}
