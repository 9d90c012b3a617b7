// The back end.
ghost use Rattle.std.specs.Prelude.{◌≢◌, ◌≤◌, ◌^◌, OnOk, OnErr};
ghost use Rattle.std.specs.Io.KnownBytes.{Appends};
ghost use Rattle.mach_core.specs.Outside.{Rose, HasCause};
ghost use Rattle.mach_core.specs.Put.{GotPrefix};
ghost use Rattle.eir_core.specs.Eir.{IsEir, size_of};
ghost use Rattle.sim_trait.specs.Emit.{EmitAnswers};
ghost use Rattle.sq_back.specs.Laws.{StandsFor};
ghost use Rattle.sq_back.specs.Text.{text_of};

use crate::image::put_image;
use eir_core::Program;
use mach_core::{Failed, Put, Sink};
use sim_trait::{Backend, EmitFault, Sharp};
use sq_lang::SqMachine;
use std::alloc::Global;

/// The greatest size of a program that is emitted.
const LIMIT: u32 = 65536;

/// Emits programs as SUBLEQ.
pub struct Subleq;

// Writes the text of a program: out gets exactly this text. It takes no memory.
//
// `Failed` comes only from out, which then got a prefix of the text.
fn write_text<O: Sink>(p: &Program, out: &mut O) -> Result<(), Failed>
    requires sound { IsEir p.now }
    requires size { size_of p.now ≤ 2 ^ 16 }
    ensures text { OnOk result (Appends (O.got out.old) (O.got out.new) (text_of p.now)) }
    ensures prefix { OnErr result (GotPrefix (O.got out.old) (O.got out.new) (text_of p.now)) }
    ensures cause { HasCause (O.faults out.old) (O.faults out.new) result }
{
    let mut put = Put::new();
    put_image(p, &mut put, out)?;
    put.flush(out)
}

// Writes the text of a program that is not too large. It takes no memory.
fn emit_text<O: Sink>(p: &Program, out: &mut O) -> Result<(), EmitFault>
    ensures answers { EmitAnswers (size_of p.now) (2 ^ 16) (Rose (O.faults out.old) (O.faults out.new))
        (StandsFor p.now) (O.got out.old) (O.got out.new) result }
    ensures later { O.faults out.old ≤ O.faults out.new }
    ensures memory { result ≢ Err EmitFault.Memory }
{
    let size = p.size();
    if size > LIMIT {
        return Err(EmitFault::TooLarge { size });
    }
    match write_text(p, out) {
        Ok(()) => Ok(()),
        Err(_) => Err(EmitFault::Write),
    }
}

impl Backend for Subleq {
    ghost use Rattle.std.specs.Prelude.{◌^◌, false};
    ghost use Rattle.sq_lang.specs.Text.{sq_spells};
    ghost use Rattle.sq_back.specs.Related.{Related};

    type Target = SqMachine;

    const LIMIT: u32 = LIMIT;

    const FACTOR: u64 = 8192;

    const BY_REACH: bool = false;

    ghost LIMIT = { 2 ^ 16 };

    ghost FACTOR = { 2 ^ 13 };

    ghost BY_REACH = { false };

    ghost spells = { sq_spells };

    ghost related = { Related };

    fn emit<O: Sink>(_alloc: Global, p: &Program, out: &mut O) -> Result<(), EmitFault> {
        emit_text(p, out)
    }
}

impl Sharp for Subleq {
    ghost use Rattle.std.specs.Prelude.{false};

    const DIGITS: bool = false;

    ghost DIGITS = { false };

    fn emit_sharply<O: Sink>(_alloc: Global, p: &Program, out: &mut O) -> Result<(), EmitFault> {
        emit_text(p, out)
    }
}
