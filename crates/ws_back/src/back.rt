// The back end.
ghost use Rattle.std.specs.Prelude.{◌≤◌, ◌^◌};
ghost use Rattle.mach_core.specs.Outside.{Rose};
ghost use Rattle.eir_core.specs.Eir.{size_of};
ghost use Rattle.sim_trait.specs.Emit.{EmitAnswers};
ghost use Rattle.ws_back.specs.Laws.{StandsFor};

use crate::handing::put_code;
use eir_core::Program;
use mach_core::{Put, Sink};
use sim_trait::{Backend, EmitFault, Sharp};
use std::alloc::Global;
use ws_lang::WsMachine;

/// The greatest size of a program that is emitted.
const LIMIT: u32 = 131072;

/// Emits programs as Whitespace.
pub struct Whitespace;

// Writes the text of the code of a program.
fn emit_code<O: Sink>(alloc: Global, p: &Program, out: &mut O) -> Result<(), EmitFault>
    ensures answers { EmitAnswers (size_of p.now) (2 ^ 17) (Rose (O.faults out.old) (O.faults out.new))
        (StandsFor p.now) (O.got out.old) (O.got out.new) result }
    ensures later { O.faults out.old ≤ O.faults out.new }
{
    let size = p.size();
    if size > LIMIT {
        return Err(EmitFault::TooLarge { size });
    }
    let mut put = Put::new();
    put_code(alloc, p, &mut put, out)?;
    match put.flush(out) {
        Ok(()) => Ok(()),
        Err(_) => Err(EmitFault::Write),
    }
}

impl Backend for Whitespace {
    ghost use Rattle.std.specs.Prelude.{◌^◌, false};
    ghost use Rattle.ws_lang.specs.Spelling.{ws_spells};
    ghost use Rattle.ws_back.specs.Related.{Related};

    type Target = WsMachine;

    const LIMIT: u32 = LIMIT;

    const FACTOR: u64 = 256;

    const BY_REACH: bool = false;

    ghost LIMIT = { 2 ^ 17 };

    ghost FACTOR = { 2 ^ 8 };

    ghost BY_REACH = { false };

    ghost spells = { ws_spells };

    ghost related = { Related };

    fn emit<O: Sink>(alloc: Global, p: &Program, out: &mut O) -> Result<(), EmitFault> {
        emit_code(alloc, p, out)
    }
}

impl Sharp for Whitespace {
    ghost use Rattle.std.specs.Prelude.{true};

    const DIGITS: bool = true;

    ghost DIGITS = { true };

    fn emit_sharply<O: Sink>(alloc: Global, p: &Program, out: &mut O) -> Result<(), EmitFault> {
        emit_code(alloc, p, out)
    }
}
