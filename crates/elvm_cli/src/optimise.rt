// Programs that are optimised and printed.
ghost use Rattle.std.specs.Prelude.{◌≤◌, ◌^◌, length};
ghost use Rattle.elvm_cli.specs.Seen.{on_sink};
ghost use Rattle.elvm_cli.specs.Shows.{PutShows, PutTextShows};
ghost use Rattle.elvm_cli.specs.Languages.{EirRefused, EirSpells, optimised_text};

use crate::outcome::Outcome;
use crate::read::eir_program;
use eir_core::Program;
use eir_opt::optimise;
use eir_print::print_eir;
use mach_core::Sink;
use std::alloc::{AllocError, Global};

// Puts out the text of what a program is optimised to.
fn put_optimised<O: Sink>(alloc: Global, program: &Program, out: &mut O) -> Outcome
    ensures { PutShows (optimised_text program.now)
        (on_sink (O.faults out.old) (O.faults out.new) (O.got out.old) (O.got out.new)) result }
{
    let optimised = match optimise(alloc, program) {
        Ok(optimised) => optimised,
        Err(AllocError) => return Outcome::NoMemory,
    };
    match print_eir(&optimised, out) {
        Ok(()) => Outcome::Done,
        Err(_) => Outcome::NoOutput,
    }
}

/// Puts out the text of what the program of an EIR text is optimised to.
pub fn optimise_text<O: Sink>(alloc: Global, text: &[u8], out: &mut O) -> Outcome
    requires { length text.now ≤ 2 ^ 29 }
    ensures { PutTextShows EirSpells EirRefused optimised_text
        (on_sink (O.faults out.old) (O.faults out.new) (O.got out.old) (O.got out.new)) text.now result }
{
    match eir_program(alloc, text) {
        Ok(program) => put_optimised(alloc, &program, out),
        Err(outcome) => outcome,
    }
}
