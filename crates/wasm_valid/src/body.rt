// Whether the code of a function is typed.
ghost use Rattle.std.specs.Prelude.{◌≡◌, ◌+◌, ◌≤◌, IfOk, MatchBool, IsTrue};
ghost use Rattle.wasm_valid.specs.Context.{context_of, GivesFew};
ghost use Rattle.wasm_valid.specs.Typing.{IsTypedExpression, IsBodyOf};
ghost use Rattle.wasm_valid.specs.Checking.{accepts};
ghost use Rattle.wasm_valid.specs.Rules.{have_few_results, IsTypedBody, own_type};

use crate::state::State;
use std::alloc::{AllocError, Global};
use wasm_bin::{Body, FuncType, Instr, Module};

// Whether code is right up to its last `end`.
fn is_accepted(
    alloc: Global,
    m: &Module,
    locals: u64,
    results: u32,
    code: &[Instr],
) -> Result<bool, AllocError>
    requires { GivesFew (context_of m.now locals results) }
    ensures { IfOk result (λ yes. yes ≡ accepts (context_of m.now locals results) code.now) }
{
    let mut state = State::new(alloc);
    for instruction in code {
        if !state.step(m, locals, results, instruction)? {
            return Ok(false);
        }
    }
    Ok(state.is_last(results))
}

// Whether code is typed, its last `end` included.
fn is_typed_expression(
    alloc: Global,
    m: &Module,
    locals: u64,
    results: u32,
    code: &[Instr],
) -> Result<bool, AllocError>
    requires { GivesFew (context_of m.now locals results) }
    ensures { let c = context_of m.now locals results in IfOk result (λ yes. MatchBool yes (IsTypedExpression c code.now) (IsTypedExpression c code.now → ⊥)) }
{
    match code.split_last() {
        Some((Instr::End, front)) => is_accepted(alloc, m, locals, results, front),
        _ => Ok(false),
    }
}

// The type of a function that is not imported, by its number among these.
fn own_type(m: &Module, k: usize) -> Option<FuncType>
    ensures { result ≡ own_type m.now k }
{
    let index = *m.funcs.as_slice().get(k)?;
    m.types.as_slice().get(index as usize).copied()
}

/// Whether the body of this number is typed.
pub fn is_typed(alloc: Global, m: &Module, k: usize, body: &Body) -> Result<bool, AllocError>
    requires { IsTrue (have_few_results m.now) }
    ensures { let typed = IsTypedBody m.now (own_type m.now k) body.now in IfOk result (λ yes. MatchBool yes typed (typed → ⊥)) }
{
    let Some(kind) = own_type(m, k) else {
        return Ok(false);
    };
    let locals = kind.params as u64 + body.locals as u64;
    is_typed_expression(alloc, m, locals, kind.results, body.code.as_slice())
}
