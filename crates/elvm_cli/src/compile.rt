// C texts, compiled.
ghost use Rattle.std.specs.Prelude.{◌≡◌, ◌≤◌, ◌^◌, length, IfErr, IfOk};
ghost use Rattle.eir_core.specs.Eir.{size_of};
ghost use Rattle.eir_print.specs.Printed.{printed};
ghost use Rattle.c_types.specs.Typed.{plain_of};
ghost use Rattle.c_compiled.specs.Compiled.{compiled};
ghost use Rattle.c_compiled.specs.Texts.{IsCompiledText};
ghost use Rattle.sim_trait.specs.Bound.{bound, sharp_bound};
ghost use Rattle.elvm_cli.specs.Seen.{on_sink};
ghost use Rattle.elvm_cli.specs.Shows.{IsNoProgram, PutShows};
ghost use Rattle.elvm_cli.specs.Sources.{BuildTextShows, CRefused, CompileTextShows, Compiles, IsBuiltBy};
ghost use Rattle.elvm_cli.specs.declared.outcome.Outcome.TheVariants.{NoMemory};

use crate::emit::{emit_program, emit_program_sharply};
use crate::outcome::Outcome;
use crate::read::are_bytes;
use crate::refusal::Refusal;
use c_compiled::texts_are_compiled;
use c_desugar::desugar;
use c_lower::{LowerFault, lower};
use c_source::read_c;
use c_types::Typed;
use eir_core::Program;
use eir_print::print_eir;
use mach_core::Sink;
use sim_trait::{Backend, Sharp};
use std::alloc::{AllocError, Global};

/// The greatest size of a program.
const MOST: u32 = 1 << 21;

// The program to which a typed tree is compiled, or how the call comes out.
fn compile_tree(alloc: Global, typed: &Typed) -> Result<Program, Outcome>
    requires { IsCompiledText (plain_of typed.now) }
    ensures ok { IfOk result (λ program. program ≡ compiled (plain_of typed.now)) }
    ensures within { IfOk result (λ program. size_of program ≤ 2 ^ 21) }
    ensures err { IfErr result (λ outcome. outcome ≡ NoMemory) }
{
    let unit = match desugar(alloc, typed) {
        Ok(unit) => unit,
        Err(AllocError) => return Err(Outcome::NoMemory),
    };
    match lower(alloc, &unit, MOST) {
        Ok(program) => Ok(program),
        Err(LowerFault::TooLarge) => unreachable!(),
        Err(LowerFault::Memory) => Err(Outcome::NoMemory),
    }
}

// The program to which a C text is compiled, or how the call comes out.
fn compiled_program(alloc: Global, text: &[u8]) -> Result<Program, Outcome>
    requires { length text.now ≤ 2 ^ 29 }
    ensures ok { IfOk result (Compiles text.now) }
    ensures within { IfOk result (λ program. size_of program ≤ 2 ^ 21) }
    ensures err { IfErr result (IsNoProgram (CRefused text.now)) }
{
    texts_are_compiled();
    are_bytes(text);
    let typed = match read_c(alloc, text) {
        Ok(typed) => typed,
        Err(fault) => return Err(fault.outcome()),
    };
    compile_tree(alloc, &typed)
}

// Puts out the text of a program.
fn put_program<O: Sink>(program: &Program, out: &mut O) -> Outcome
    ensures { PutShows (printed program.now)
        (on_sink (O.faults out.old) (O.faults out.new) (O.got out.old) (O.got out.new)) result }
{
    match print_eir(program, out) {
        Ok(()) => Outcome::Done,
        Err(_) => Outcome::NoOutput,
    }
}

/// Puts out the EIR text of the program to which a C text is compiled.
pub fn compile_text<O: Sink>(alloc: Global, text: &[u8], out: &mut O) -> Outcome
    requires { length text.now ≤ 2 ^ 29 }
    ensures { CompileTextShows
        (on_sink (O.faults out.old) (O.faults out.new) (O.got out.old) (O.got out.new)) text.now result }
{
    match compiled_program(alloc, text) {
        Ok(program) => put_program(&program, out),
        Err(outcome) => outcome,
    }
}

/// Emits the program to which a C text is compiled.
pub fn build_text<B: Backend, O: Sink>(alloc: Global, text: &[u8], out: &mut O) -> Outcome
    requires { length text.now ≤ 2 ^ 29 }
    ensures { BuildTextShows B.LIMIT (IsBuiltBy B.spells B.Target.rule B.Target.start (bound (record { factor = B.FACTOR; by_reach = B.BY_REACH })))
        (on_sink (O.faults out.old) (O.faults out.new) (O.got out.old) (O.got out.new)) text.now result }
{
    match compiled_program(alloc, text) {
        Ok(program) => emit_program::<B, O>(alloc, &program, out),
        Err(outcome) => outcome,
    }
}

/// Emits the program to which a C text is compiled, within the sharp bound.
pub fn build_text_sharply<B: Sharp, O: Sink>(alloc: Global, text: &[u8], out: &mut O) -> Outcome
    requires { length text.now ≤ 2 ^ 29 }
    ensures { BuildTextShows B.LIMIT (IsBuiltBy B.spells B.Target.rule B.Target.start (sharp_bound (record { factor = B.FACTOR; by_reach = B.BY_REACH }) B.DIGITS))
        (on_sink (O.faults out.old) (O.faults out.new) (O.got out.old) (O.got out.new)) text.now result }
{
    match compiled_program(alloc, text) {
        Ok(program) => emit_program_sharply::<B, O>(alloc, &program, out),
        Err(outcome) => outcome,
    }
}
