// The back end.
ghost use Rattle.std.specs.Prelude.{◌≤◌, ◌^◌};
ghost use Rattle.mach_core.specs.Outside.{Rose};
ghost use Rattle.eir_core.specs.Eir.{size_of};
ghost use Rattle.sim_trait.specs.Emit.{EmitAnswers};
ghost use Rattle.wasm_back.specs.Laws.{StandsFor};

use eir_core::Program;
use mach_core::Sink;
use sim_trait::{Backend, EmitFault};
use std::alloc::Global;
use wasm_code::module_for;
use wasm_run::WasmMachine;
use wasm_write::write_module;

/// The greatest size of a program that is emitted.
const LIMIT: u32 = 65536;

/// Emits programs as modules of WebAssembly in their binary form.
pub struct WebAssembly;

// Writes the module for a program that is not too large.
fn emit_module<O: Sink>(alloc: Global, p: &Program, out: &mut O) -> Result<(), EmitFault>
    ensures answers { EmitAnswers (size_of p.now) (2 ^ 16) (Rose (O.faults out.old) (O.faults out.new))
        (StandsFor p.now) (O.got out.old) (O.got out.new) result }
    ensures later { O.faults out.old ≤ O.faults out.new }
{
    let size = p.size();
    if size > LIMIT {
        return Err(EmitFault::TooLarge { size });
    }
    let Ok(m) = module_for(alloc, p) else {
        return Err(EmitFault::Memory);
    };
    match write_module(&m, out) {
        Ok(()) => Ok(()),
        Err(_) => Err(EmitFault::Write),
    }
}

impl Backend for WebAssembly {
    ghost use Rattle.std.specs.Prelude.{◌^◌, false};
    ghost use Rattle.wasm_rule.specs.Spells.{WasmSpells};
    ghost use Rattle.wasm_back.specs.Related.{Related};

    type Target = WasmMachine;

    const LIMIT: u32 = LIMIT;

    const FACTOR: u64 = 256;

    const BY_REACH: bool = false;

    ghost LIMIT = { 2 ^ 16 };

    ghost FACTOR = { 2 ^ 8 };

    ghost BY_REACH = { false };

    ghost spells = { WasmSpells };

    ghost related = { Related };

    fn emit<O: Sink>(alloc: Global, p: &Program, out: &mut O) -> Result<(), EmitFault> {
        emit_module(alloc, p, out)
    }
}
