// What each instruction does to the stack.
ghost use Rattle.std.specs.Prelude.{◌≡◌, ◌≤◌, ◌+◌, ◌&&◌, is_some, nat_le, nat_lt, slice_get};
ghost use Rattle.std.specs.Option.{option_map, option_and_then};
ghost use Rattle.wasm_valid.specs.Context.{context_of, function_type};
ghost use Rattle.wasm_valid.specs.Effects.{effect_of, numeric_effect, provided, is_arity, have_arity, Breaks, Turns};
ghost use Rattle.wasm_valid.specs.Checking.{labels_under};

use crate::effect::Effect;
use crate::frames::Frames;
use wasm_bin::{FuncType, Instr, Module};

/// Gives a value.
const GIVING: Effect = Effect::Turns(0, 1);

/// Takes a value.
const TAKING: Effect = Effect::Turns(1, 0);

/// Takes a value and gives one.
const UNARY: Effect = Effect::Turns(1, 1);

/// Takes two values and gives one.
const BINARY: Effect = Effect::Turns(2, 1);

/// Takes an address and a value.
const STORING: Effect = Effect::Turns(2, 0);

/// The type of a function, where it and its type are there. The imported functions come first.
pub fn function_type(m: &Module, index: u32) -> Option<FuncType>
    ensures { result ≡ function_type m.now index }
{
    let place = index as usize;
    let kind = if place < m.imports.len() {
        m.imports.as_slice()[place].kind
    } else {
        *m.funcs.as_slice().get(place - m.imports.len())?
    };
    m.types.as_slice().get(kind as usize).copied()
}

// An effect under a condition.
fn provided(condition: bool, effect: Effect) -> Option<Effect>
    ensures { result ≡ provided condition effect }
{
    if condition { Some(effect) } else { None }
}

// Whether the label takes so many values.
fn has_arity(frames: &Frames, results: u32, target: u32, count: u64) -> bool
    ensures { result ≡ is_arity count (slice_get (labels_under frames.now results) target) }
{
    match frames.label(target, results) {
        Some(label) => label == count,
        None => false,
    }
}

// Whether each of the labels takes so many values.
fn have_arity(frames: &Frames, results: u32, targets: &[u32], count: u64) -> bool
    ensures { result ≡ have_arity (labels_under frames.now results) count targets.now }
{
    targets
        .iter()
        .all(|target| has_arity(frames, results, *target, count))
}

// What a branch by a table does.
fn table_effect(frames: &Frames, results: u32, targets: &[u32], label: u32) -> Option<Effect>
    requires { results ≤ 1 }
    ensures { let labels = labels_under frames.now results in result ≡ option_and_then (λ n. provided (have_arity labels n targets.now) (Breaks (n + 1))) (slice_get labels label) }
{
    let count = frames.label(label, results)?;
    provided(
        have_arity(frames, results, targets, count),
        Effect::Breaks(count + 1),
    )
}

// What setting a global does.
fn global_effect(m: &Module, index: u32) -> Option<Effect>
    ensures { result ≡ option_and_then (λ g. provided g.mutable (Turns 1 0)) (slice_get m.now.globals index) }
{
    let global = m.globals.as_slice().get(index as usize)?;
    provided(global.mutable, TAKING)
}

// What a call does.
fn call_effect(m: &Module, index: u32) -> Option<Effect>
    ensures { result ≡ option_map (λ t. Turns t.params t.results) (function_type m.now index) }
{
    let called = function_type(m, index)?;
    Some(Effect::Turns(called.params as u64, called.results as u64))
}

// What an access to memory does, whose size is this power of 2.
fn access_effect(m: &Module, power: u32, align: u32, effect: Effect) -> Option<Effect>
    ensures { result ≡ provided (is_some m.now.memory && nat_le align power) effect }
{
    provided(m.memory.is_some() && align <= power, effect)
}

// What an instruction that only computes does to the stack.
#[tactic(auto, unfolding(crate::specs::Effects::numeric_effect))]
fn numeric_effect(instruction: &Instr) -> Option<Effect>
    ensures { result ≡ numeric_effect instruction.now }
{
    match instruction {
        Instr::Eqz | Instr::Clz | Instr::Ctz | Instr::Popcnt => Some(UNARY),
        Instr::Eq | Instr::Ne | Instr::LtS | Instr::LtU | Instr::GtS | Instr::GtU => Some(BINARY),
        Instr::LeS | Instr::LeU | Instr::GeS | Instr::GeU => Some(BINARY),
        Instr::Add | Instr::Sub | Instr::Mul | Instr::DivS | Instr::DivU => Some(BINARY),
        Instr::RemS | Instr::RemU | Instr::And | Instr::Or | Instr::Xor => Some(BINARY),
        Instr::Shl | Instr::ShrS | Instr::ShrU | Instr::Rotl | Instr::Rotr => Some(BINARY),
        _ => None,
    }
}

/// What an instruction does to the stack, where it may stand there.
#[tactic(auto, unfolding(crate::specs::Effects::effect_of))]
pub fn effect_at(
    m: &Module,
    frames: &Frames,
    locals: u64,
    results: u32,
    instruction: &Instr,
) -> Option<Effect>
    requires { results ≤ 1 }
    ensures { result ≡ effect_of (context_of m.now locals results) (labels_under frames.now results) instruction.now }
{
    match instruction {
        Instr::Unreachable => Some(Effect::Breaks(0)),
        Instr::Nop => Some(Effect::Turns(0, 0)),
        Instr::Br(label) => Some(Effect::Breaks(frames.label(*label, results)?)),
        Instr::BrIf(label) => {
            let count = frames.label(*label, results)?;
            Some(Effect::Turns(count + 1, count))
        }
        Instr::BrTable(targets, label) => table_effect(frames, results, targets.as_slice(), *label),
        Instr::Return => Some(Effect::Breaks(results as u64)),
        Instr::Call(index) => call_effect(m, *index),
        Instr::Drop => Some(TAKING),
        Instr::Select => Some(Effect::Turns(3, 1)),
        Instr::LocalGet(index) => provided((*index as u64) < locals, GIVING),
        Instr::LocalSet(index) => provided((*index as u64) < locals, TAKING),
        Instr::LocalTee(index) => provided((*index as u64) < locals, UNARY),
        Instr::GlobalGet(index) => provided((*index as usize) < m.globals.len(), GIVING),
        Instr::GlobalSet(index) => global_effect(m, *index),
        Instr::Load(a) => access_effect(m, 2, a.align, UNARY),
        Instr::Load8S(a) | Instr::Load8U(a) => access_effect(m, 0, a.align, UNARY),
        Instr::Load16S(a) | Instr::Load16U(a) => access_effect(m, 1, a.align, UNARY),
        Instr::Store(a) => access_effect(m, 2, a.align, STORING),
        Instr::Store8(a) => access_effect(m, 0, a.align, STORING),
        Instr::Store16(a) => access_effect(m, 1, a.align, STORING),
        Instr::MemorySize => provided(m.memory.is_some(), GIVING),
        Instr::MemoryGrow => provided(m.memory.is_some(), UNARY),
        Instr::Const(_) => Some(GIVING),
        _ => numeric_effect(instruction),
    }
}
