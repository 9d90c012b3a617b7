// What an instruction does, by the values that it meets.
ghost use Rattle.std.specs.Prelude.{◌≡◌, ◌≤◌, cond, pos, length, slice_get, int_lt};
ghost use Rattle.mach_core.specs.Integer.{is_zero, byte_of};
ghost use Rattle.ws_lang.specs.Step.{value_below};
ghost use Rattle.ws_lang.specs.Stack.{values_of};
ghost use Rattle.ws_lang.specs.Effect.{on_top, combined, sliding, effect_of};

use crate::arithmetic::{Arithmetic, compute};
use crate::effect::Effect;
use crate::heap::Heap;
use crate::resolved::Resolved;
use crate::slots::{two_values, value_at};

// One value in the place of the two at the top.
#[inline(always)]
fn combine(slots: &[i64], len: usize, operation: Arithmetic) -> Effect
    requires { len ≤ length slots.now }
    ensures { result ≡ combined (values_of slots.now len) operation }
{
    let Some((x, y)) = two_values(slots, len) else {
        return Effect::Fault(1);
    };
    match compute(operation, x, y) {
        Ok(value) => Effect::Put(2, value),
        Err(code) => Effect::Fault(code),
    }
}

// A value put on the top again.
fn copy(slots: &[i64], len: usize, depth: i64) -> Effect
    requires { len ≤ length slots.now }
    ensures { result ≡ on_top (value_below (values_of slots.now len) depth) (λ x. Effect.Put 0 x) }
{
    if depth < 0 {
        return Effect::Fault(1);
    }
    match value_at(slots, len, depth.unsigned_abs() as usize) {
        Some(x) => Effect::Put(0, x),
        None => Effect::Fault(1),
    }
}

// Some values dropped under the top.
fn slide(slots: &[i64], len: usize, count: i64) -> Effect
    requires { len ≤ length slots.now }
    ensures { result ≡ on_top (slice_get (values_of slots.now len) 0) (λ x. sliding (length (values_of slots.now len)) count x) }
{
    match value_at(slots, len, 0) {
        Some(top) => slide_under(len, count, top),
        None => Effect::Fault(1),
    }
}

// Of so many values the top in the place of itself and some under it.
fn slide_under(len: usize, count: i64, top: i64) -> Effect
    ensures { result ≡ sliding len count top }
{
    if count < 0 {
        return Effect::Fault(1);
    }
    let count = count.unsigned_abs() as usize;
    if count < len {
        Effect::Put(count + 1, top)
    } else {
        Effect::Fault(1)
    }
}

// To a place, if the test says so.
#[inline(always)]
fn jump_if(test: bool, place: u32) -> Effect
    ensures { result ≡ cond test (Effect.Jump 1 place) (Effect.Discard 1) }
{
    if test {
        Effect::Jump(1, place)
    } else {
        Effect::Discard(1)
    }
}

// Whether a value is 0.
fn is_null(x: i64) -> bool
    ensures { result ≡ is_zero x }
{
    x == 0
}

// Whether a value is below 0.
fn is_below_zero(x: i64) -> bool
    ensures { result ≡ int_lt x (pos 0) }
{
    x < 0
}

// A value modulo 256.
fn byte(x: i64) -> u8
    ensures { result ≡ byte_of x }
{
    x.rem_euclid(256).unsigned_abs() as u8
}

/// What an instruction does with the values in the first `len` slots, the top last, and this heap.
#[inline(always)]
pub fn effect_at(slots: &[i64], len: usize, heap: &Heap, step: Resolved) -> Effect
    requires { len ≤ length slots.now }
    ensures { result ≡ effect_of (values_of slots.now len) heap.now step }
{
    let top = value_at(slots, len, 0);
    let fault = Effect::Fault(1);
    match step {
        Resolved::Push(n) => Effect::Put(0, n),
        Resolved::Duplicate => top.map_or(fault, |x| Effect::Put(0, x)),
        Resolved::Swap => two_values(slots, len).map_or(fault, |_| Effect::Swap),
        Resolved::Discard => top.map_or(fault, |_| Effect::Discard(1)),
        Resolved::Copy(n) => copy(slots, len, n),
        Resolved::Slide(n) => slide(slots, len, n),
        Resolved::Add => combine(slots, len, Arithmetic::Add),
        Resolved::Subtract => combine(slots, len, Arithmetic::Subtract),
        Resolved::Multiply => combine(slots, len, Arithmetic::Multiply),
        Resolved::Divide => combine(slots, len, Arithmetic::Divide),
        Resolved::Modulo => combine(slots, len, Arithmetic::Modulo),
        Resolved::Store => two_values(slots, len).map_or(fault, |(a, x)| Effect::Store(a, x)),
        Resolved::Retrieve => top.map_or(fault, |address| Effect::Put(1, heap.get(address))),
        Resolved::Mark => Effect::Discard(0),
        Resolved::Call(place) => Effect::Call(place),
        Resolved::Jump(place) => Effect::Jump(0, place),
        Resolved::JumpIfZero(place) => top.map_or(fault, |x| jump_if(is_null(x), place)),
        Resolved::JumpIfNegative(place) => top.map_or(fault, |x| jump_if(is_below_zero(x), place)),
        Resolved::Return => Effect::Return,
        Resolved::End => Effect::End,
        Resolved::WriteCharacter => top.map_or(fault, |x| Effect::Write(byte(x))),
        Resolved::WriteNumber => top.map_or(fault, Effect::Spell),
        Resolved::ReadCharacter => top.map_or(fault, Effect::Take),
        Resolved::ReadNumber => top.map_or(fault, Effect::Await),
    }
}
