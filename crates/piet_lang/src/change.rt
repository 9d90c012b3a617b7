// What a command does with the values.
ghost use Rattle.std.specs.Prelude.{◌≡◌, ◌≤◌, ◌-◌, ℤ, pos, None, Some, length, slice_get, int_lt};
ghost use Rattle.mach_core.specs.Integer.{is_zero};
ghost use Rattle.piet_lang.specs.Act.{truth as truth_of};
ghost use Rattle.piet_lang.specs.Stack.{values_of};
ghost use Rattle.piet_lang.specs.Change.{ranged, rolling, combined, change_of, ChangeFits};

use crate::act::Act;
use crate::slots::{two_values, value_at};
use floor_division::{quotient, remainder};

/// What a command does with the values.
#[derive(Clone, Copy)]
pub enum Change {
    /// Nothing.
    Keep,
    /// One value comes in the place of so many at the top.
    Put(usize, i64),
    /// So many values at the top go.
    Discard(usize),
    /// The two values at the top go, and so many under them are turned by so many places towards the bottom.
    Roll(usize, usize),
    /// A value is outside signed 64 bits.
    Fail,
}

// The value 1 or 0.
#[inline(always)]
fn truth(test: bool) -> i64
    ensures { result ≡ truth_of test }
{
    if test { 1 } else { 0 }
}

// A value in the place of two, if there is one.
#[inline(always)]
fn put_two(value: Option<i64>) -> Change
    ensures none { value ≡ None → result ≡ Change.Fail }
    ensures some { (x : ℤ) → value ≡ Some x → result ≡ Change.Put 2 x }
{
    match value {
        Some(x) => Change::Put(2, x),
        None => Change::Fail,
    }
}

// Of so many values the ones under the top two, as deep as the second says, turned as often as the top says.
fn roll(len: usize, depth: i64, times: i64) -> Change
    ensures { result ≡ rolling len depth times }
{
    if depth < 0 {
        return Change::Keep;
    }
    let deep = depth.unsigned_abs();
    if len < 2 || deep > len as u64 - 2 {
        return Change::Keep;
    }
    if deep <= 1 {
        return Change::Discard(2);
    }
    Change::Roll(
        deep as usize,
        times.rem_euclid(depth).unsigned_abs() as usize,
    )
}

// What a command makes of the second value and the top, of so many values.
#[inline(always)]
fn combine(act: Act, len: usize, second: i64, top: i64) -> Change
    ensures { result ≡ combined act len second top }
{
    match act {
        Act::Add => put_two(second.checked_add(top)),
        Act::Subtract => put_two(second.checked_sub(top)),
        Act::Multiply => put_two(second.checked_mul(top)),
        Act::Divide => {
            if top == 0 {
                Change::Keep
            } else {
                put_two(quotient(second, top))
            }
        }
        Act::Modulo => {
            if top == 0 {
                Change::Keep
            } else {
                Change::Put(2, remainder(second, top))
            }
        }
        Act::Greater => Change::Put(2, truth(top < second)),
        Act::Roll => roll(len, second, top),
        _ => Change::Keep,
    }
}

/// What a command does with the values in the first `len` slots, the top last, by which the run leaves a block of this
/// size, fed this byte.
#[inline(always)]
pub fn change_at(slots: &[i64], len: usize, act: Act, size: u32, fed: u8) -> Change
    requires { len ≤ length slots.now }
    ensures change { result ≡ change_of (values_of slots.now len) act size fed }
    ensures fits { ChangeFits (values_of slots.now len) result }
{
    match act {
        Act::Push => Change::Put(0, size as i64),
        Act::InChar => Change::Put(0, fed as i64),
        Act::InNumber => Change::Keep,
        Act::Pop | Act::Point | Act::Switch | Act::OutNumber | Act::OutChar => Change::Discard(1),
        Act::Not => match value_at(slots, len, 0) {
            Some(top) => Change::Put(1, truth(top == 0)),
            None => Change::Keep,
        },
        Act::Duplicate => match value_at(slots, len, 0) {
            Some(top) => Change::Put(0, top),
            None => Change::Keep,
        },
        _ => match two_values(slots, len) {
            Some((second, top)) => combine(act, len, second, top),
            None => Change::Keep,
        },
    }
}
