// The languages of the targets.
ghost use Rattle.std.specs.Prelude.{◌≡◌, ◌≤◌, ◌^◌, ℕ, List, length, IfErr, IfOk};
ghost use Rattle.wasm_bin.specs.Module.{module_spells};
ghost use Rattle.wasm_valid.specs.Rules.{IsValid};
ghost use Rattle.elvm_cli.specs.Languages.{StandsAtStart, WasmRefused};
ghost use Rattle.elvm_cli.specs.Shows.{IsNoProgram};
ghost use Rattle.elvm_cli.specs.declared.outcome.Outcome.{Outcome};

use crate::outcome::Outcome;
use crate::refusal::Refusal;
use bf_lang::{BfMachine, read_bf};
use mach_core::Machine;
use piet_image::read_ppm;
use piet_lang::PietMachine;
use sq_lang::{SqMachine, read_sq};
use std::alloc::{AllocError, Global};
use wasm_bin::read_module;
use wasm_run::WasmMachine;
use wasm_valid::{Valid, validate};
use ws_lang::{WsMachine, read_ws};

/// A machine whose programs are texts, which may depend on how many pixels a side a codel has.
pub trait Language: Machine + Drop {
    /// The text spells this program.
    ghost spells: { ℕ → List ℕ → Self.Code → Type 0 };

    /// The text is refused, and this comes out.
    ghost refused: { ℕ → List ℕ → Outcome → Type 0 };

    /// The machine at the start of the program that a text spells, or how the call comes out.
    fn load(alloc: Global, codel: u32, text: &[u8]) -> Result<Self, Outcome>
        requires short { length text.now ≤ 2 ^ 29 }
        requires some { 1 ≤ codel }
        ensures loaded { IfOk result (λ m. StandsAtStart (spells codel text.now) Self.rule Self.start (Self.rule (Self.code m)) (Self.config m)) }
        ensures err { IfErr result (IsNoProgram (refused codel text.now)) };
}

impl Language for BfMachine {
    ghost use Rattle.bf_lang.specs.Text.{bf_spells};
    ghost use Rattle.elvm_cli.specs.Languages.{BfRefused};

    ghost spells = { λ codel. bf_spells };

    ghost refused = { λ codel. BfRefused };

    fn load(alloc: Global, _codel: u32, text: &[u8]) -> Result<BfMachine, Outcome> {
        match read_bf(alloc, text) {
            Ok(program) => match BfMachine::new(alloc, program) {
                Ok(machine) => Ok(machine),
                Err(AllocError) => Err(Outcome::NoMemory),
            },
            Err(fault) => Err(fault.outcome()),
        }
    }
}

impl Language for WsMachine {
    ghost use Rattle.ws_lang.specs.Spelling.{ws_spells};
    ghost use Rattle.elvm_cli.specs.Languages.{WsRefused};

    ghost spells = { λ codel. ws_spells };

    ghost refused = { λ codel. WsRefused };

    fn load(alloc: Global, _codel: u32, text: &[u8]) -> Result<WsMachine, Outcome> {
        match read_ws(alloc, text) {
            Ok(program) => match WsMachine::new(alloc, program) {
                Ok(machine) => Ok(machine),
                Err(AllocError) => Err(Outcome::NoMemory),
            },
            Err(fault) => Err(fault.outcome()),
        }
    }
}

impl Language for SqMachine {
    ghost use Rattle.sq_lang.specs.Text.{sq_spells};
    ghost use Rattle.elvm_cli.specs.Languages.{SqRefused};

    ghost spells = { λ codel. sq_spells };

    ghost refused = { λ codel. SqRefused };

    fn load(alloc: Global, _codel: u32, text: &[u8]) -> Result<SqMachine, Outcome> {
        match read_sq(alloc, text) {
            Ok(program) => match SqMachine::new(alloc, program) {
                Ok(machine) => Ok(machine),
                Err(AllocError) => Err(Outcome::NoMemory),
            },
            Err(fault) => Err(fault.outcome()),
        }
    }
}

impl Language for PietMachine {
    ghost use Rattle.piet_image.specs.Text.{Spells};
    ghost use Rattle.elvm_cli.specs.Languages.{PietRefused};

    ghost spells = { λ codel text. Spells text codel };

    ghost refused = { PietRefused };

    fn load(alloc: Global, codel: u32, text: &[u8]) -> Result<PietMachine, Outcome> {
        match read_ppm(alloc, text, codel) {
            Ok(image) => match PietMachine::new(alloc, image) {
                Ok(machine) => Ok(machine),
                Err(AllocError) => Err(Outcome::NoMemory),
            },
            Err(fault) => Err(fault.outcome()),
        }
    }
}

// The valid module that bytes are, or how the call comes out.
fn valid_module(alloc: Global, bytes: &[u8]) -> Result<Valid, Outcome>
    requires { length bytes.now ≤ 2 ^ 29 }
    ensures read { IfOk result (module_spells bytes.now) }
    ensures valid { IfOk result IsValid }
    ensures err { IfErr result (IsNoProgram (WasmRefused bytes.now)) }
{
    let module = match read_module(alloc, bytes) {
        Ok(module) => module,
        Err(fault) => return Err(fault.outcome()),
    };
    match validate(alloc, module) {
        Ok(valid) => Ok(valid),
        Err(fault) => Err(fault.outcome()),
    }
}

impl Language for WasmMachine {
    ghost use Rattle.wasm_rule.specs.Spells.{WasmSpells};
    ghost use Rattle.elvm_cli.specs.Languages.{WasmRefused};

    ghost spells = { λ codel. WasmSpells };

    ghost refused = { λ codel. WasmRefused };

    fn load(alloc: Global, _codel: u32, text: &[u8]) -> Result<WasmMachine, Outcome> {
        let valid = valid_module(alloc, text)?;
        match WasmMachine::new(alloc, valid) {
            Ok(machine) => Ok(machine),
            Err(fault) => Err(fault.outcome()),
        }
    }
}
