// The answer to a module.
ghost use Rattle.std.specs.Prelude.{◌≡◌, ℕ, ◌<◌, ◌^◌, length, IfOk, MatchOption, MatchResult, IsTrue};
ghost use Rattle.wasm_valid.specs.Rules.{have_few_results, IsTypedAt, IsUntypedFirst, IsValid, IsRefused};

use crate::body::is_typed;
use crate::fault::ValidFault;
use crate::rules::follows_rules;
use std::alloc::{AllocError, Global};
use std::marker::Model;
use wasm_bin::Module;

/// A module that is valid. A clause sees the module.
#[derive(Drop)]
pub struct Valid {
    module: Module,
}

impl Model for Valid {
    ghost use Rattle.wasm_bin.specs.declared.module.Module.{Module};
    ghost use Rattle.wasm_valid.specs.Rules.{IsValid};

    ghost Value = { Module };

    ghost view = { λ v. v.«module» };

    ghost invariant = { λ v. IsValid v.«module» };
}

impl Valid {
    /// The module.
    pub fn module(&self) -> &Module
        ensures module { result.now ≡ self.now }
        ensures valid { IsValid self.now }
    {
        &self.module
    }

    /// The module, by value.
    pub fn into_module(self) -> Module
        ensures module { result ≡ self }
        ensures valid { IsValid self }
    {
        self.module
    }
}

// The number of the first body that is not typed, if there is one.
fn first_untyped(alloc: Global, m: &Module) -> Result<Option<u32>, AllocError>
    requires few { length m.now.bodies < 2 ^ 32 }
    requires results { IsTrue (have_few_results m.now) }
    ensures { IfOk result (λ found. MatchOption found ((k : ℕ) → k < length m.now.bodies → IsTypedAt m.now k) (IsUntypedFirst m.now)) }
{
    for (k, body) in m.bodies.as_slice().iter().enumerate() {
        if !is_typed(alloc, m, k, body)? {
            return Ok(Some(k as u32));
        }
    }
    Ok(None)
}

/// Takes exactly the modules that are valid by the WebAssembly Core Specification 1.0. Where the rules apart
/// from the code are broken, the fault has the number of the bodies; else it has the number of the first body
/// that is not typed.
pub fn validate(alloc: Global, m: Module) -> Result<Valid, ValidFault>
    requires { length m.bodies < 2 ^ 32 }
    ensures { MatchResult result (λ v. (v ≡ m) × IsValid m) (IsRefused m) }
{
    if !follows_rules(alloc, &m)? {
        return Err(ValidFault::Invalid(m.bodies.len() as u32));
    }
    match first_untyped(alloc, &m)? {
        Some(k) => Err(ValidFault::Invalid(k)),
        None => Ok(Valid { module: m }),
    }
}
