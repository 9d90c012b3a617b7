// What is read of files.
ghost use Rattle.std.specs.Prelude.{◌≡◌, ◌≤◌, ◌+◌, ◌^◌, length, IsTrue, IfErr, IfOk};
ghost use Rattle.mach_core.specs.Outside.{HasTakenAtMost, IsTextUnder, one_more};
ghost use Rattle.c_valid.specs.Valid.{AreBytes};
ghost use Rattle.elvm_cli.specs.Seen.{on_shelf};
ghost use Rattle.elvm_cli.specs.Shows.{IsNoProgram, IsNoText};
ghost use Rattle.elvm_cli.specs.Languages.{EirRefused, EirSpells};

use crate::outcome::Outcome;
use crate::refusal::Refusal;
use eir_core::Program;
use eir_text::read_eir;
use mach_core::{FileFault, Shelf, read_file};
use std::alloc::Global;

/// The most bytes of a file.
const MOST: u32 = 1 << 29;

/// Bytes are numbers below 2^8.
pub fn are_bytes(_text: &[u8])
    ensures { AreBytes _text.now }
{}

/// Reads the text of a file, or says how the call comes out.
pub fn file_text<F: Shelf>(alloc: Global, name: &str, shelf: &mut F) -> Result<Vec<u8>, Outcome>
    ensures text { IfOk result (λ text. IsTextUnder (F.texts shelf.old) name.now text.items) }
    ensures within { IfOk result (λ text. length text.items ≤ 2 ^ 29) }
    ensures err { IfErr result (IsNoText (on_shelf (F.faults shelf.old) (F.faults shelf.new) (F.texts shelf.old) (F.texts shelf.new)
        (F.lookups shelf.old) (F.lookups shelf.new) (F.chosen shelf.new) (F.left shelf.new)) name.now) }
    ensures looks_up { F.lookups shelf.new ≡ one_more (F.lookups shelf.old) }
    ensures took { IsTrue (F.chosen shelf.new) → HasTakenAtMost (F.texts shelf.old) name.now (F.left shelf.new) (2 ^ 29 + 1) }
    ensures same { F.texts shelf.new ≡ F.texts shelf.old }
{
    match read_file(alloc, shelf, name, MOST) {
        Ok(text) => Ok(text),
        Err(FileFault::File) => Err(Outcome::NoFile),
        Err(FileFault::TooLarge) => Err(Outcome::TooLarge),
        Err(FileFault::Memory) => Err(Outcome::NoMemory),
    }
}

/// Reads the program of an EIR text, or says how the call comes out.
pub fn eir_program(alloc: Global, text: &[u8]) -> Result<Program, Outcome>
    requires { length text.now ≤ 2 ^ 29 }
    ensures ok { IfOk result (EirSpells text.now) }
    ensures err { IfErr result (IsNoProgram (EirRefused text.now)) }
{
    match read_eir(alloc, text) {
        Ok(program) => {
            // Its contract says that a program isn't too large.
            let _size = program.size();
            Ok(program)
        }
        Err(fault) => Err(fault.outcome()),
    }
}
