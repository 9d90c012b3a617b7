// The text of a program.

ghost use Rattle.std.specs.Prelude.{◌≡◌, ◌≤◌, ◌^◌, IfOk, OnOk, OnErr};
ghost use Rattle.std.specs.Io.KnownBytes.{Appends};
ghost use Rattle.mach_core.specs.Outside.{Rose, HasCause};
ghost use Rattle.mach_core.specs.Put.{GotPrefix};
ghost use Rattle.bf_lang.specs.Laws.{text_of};
ghost use Rattle.eir_core.specs.Eir.{size_of};
ghost use Rattle.sim_trait.specs.Emit.{EmitAnswers};
ghost use Rattle.bf_back.specs.Emit.{IsTextOf, program_text};

use crate::translation::translate;
use bf_lang::BfMachine;
use bf_tape::Frag;
use eir_core::Program;
use mach_core::{Failed, Put, Sink};
use sim_trait::{Backend, EmitFault};
use std::alloc::Global;

// The greatest size of a program that is emitted.
const LIMIT: u32 = 16384;

// Writes the text of a piece: out gets exactly this text. `Failed` comes only from out, which then got a prefix of it.
fn write_text<O: Sink>(code: &Frag, out: &mut O) -> Result<(), Failed>
    ensures text { OnOk result (Appends (O.got out.old) (O.got out.new) (text_of code.now.commands)) }
    ensures prefix { OnErr result (GotPrefix (O.got out.old) (O.got out.new) (text_of code.now.commands)) }
    ensures cause { HasCause (O.faults out.old) (O.faults out.new) result }
{
    let mut put = Put::new();
    code.send(&mut put, out)?;
    put.flush(out)
}

/// Writes a text of a Brainfuck program that does what this program does, step by step: the text of the code that is
/// defined for it, and nothing else.
///
/// `TooLarge` comes exactly where the program's size is above 2^14, and nothing was written then. `Write` comes only where
/// the sink's count of faults rose; the sink then got a front of such a text.
fn emit_text<O: Sink>(alloc: Global, p: &Program, out: &mut O) -> Result<(), EmitFault>
    ensures answers { EmitAnswers (size_of p.now) (2 ^ 14) (Rose (O.faults out.old) (O.faults out.new)) (IsTextOf p.now) (O.got out.old) (O.got out.new) result }
    ensures exact { EmitAnswers (size_of p.now) (2 ^ 14) (Rose (O.faults out.old) (O.faults out.new)) (λ text. text ≡ program_text p.now) (O.got out.old) (O.got out.new) result }
    ensures later { O.faults out.old ≤ O.faults out.new }
{
    let size = p.size();
    if size > LIMIT {
        return Err(EmitFault::TooLarge { size });
    }
    let Ok(code) = translate(alloc, p) else {
        return Err(EmitFault::Memory);
    };
    match write_text(&code, out) {
        Ok(()) => Ok(()),
        Err(_) => Err(EmitFault::Write),
    }
}

/// Emits programs as Brainfuck.
pub struct Brainfuck;

impl Backend for Brainfuck {
    ghost use Rattle.std.specs.Prelude.{◌^◌, true};
    ghost use Rattle.bf_lang.specs.Text.{bf_spells};
    ghost use Rattle.bf_back.specs.Related.{Related};

    type Target = BfMachine;

    const LIMIT: u32 = LIMIT;

    const FACTOR: u64 = 16777216;

    const BY_REACH: bool = true;

    ghost LIMIT = { 2 ^ 14 };

    ghost FACTOR = { 2 ^ 24 };

    ghost BY_REACH = { true };

    ghost spells = { bf_spells };

    ghost related = { Related };

    // Out gets the text of the code that is defined for the program, or a front of it.
    fn emit<O: Sink>(alloc: Global, p: &Program, out: &mut O) -> Result<(), EmitFault>
        ensures answers { EmitAnswers (size_of p.now) (2 ^ 14) (Rose (O.faults out.old) (O.faults out.new)) (IsTextOf p.now) (O.got out.old) (O.got out.new) result }
        ensures later { O.faults out.old ≤ O.faults out.new }
        ensures exact { EmitAnswers (size_of p.now) (2 ^ 14) (Rose (O.faults out.old) (O.faults out.new)) (λ text. text ≡ program_text p.now) (O.got out.old) (O.got out.new) result }
    {
        emit_text(alloc, p, out)
    }
}
