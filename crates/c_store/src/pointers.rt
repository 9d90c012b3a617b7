// Pointers moved and compared, which no memory is asked for.

ghost use Rattle.std.specs.Prelude.{◌≡◌, ◌<◌, ◌+ℤ◌, pos, slice_get};
ghost use Rattle.c_store.specs.Words.{offset_of, length_of, letter_count, at_offset, offset_within, moved, member_at, same_object, same_literal, pointer_before, pointer_difference, serves_as_pointer, is_at_end, is_into, meets_end, same_pointer};
ghost use Rattle.c_store.specs.Shown.{value_of, shown};

use crate::act::Act;
use crate::kind::{Kind, is_of};
use crate::literal::Literal;
use crate::value::{Letter, Pointer, Value};

/// How many cells a pointer lies behind the start of its object; 0 of any other value.
#[inline(always)]
pub fn offset_of(v: Value) -> u32
    ensures { result ≡ offset_of (value_of v) }
{
    match v {
        Value::Point(p) => p.offset,
        Value::Letter(l) => l.offset,
        _ => 0,
    }
}

// How many cells a literal of a table has.
#[inline(always)]
fn letter_count(literals: &[Literal], literal: u32) -> Option<u32>
    ensures { result ≡ letter_count (slice_get literals.now literal) }
{
    match literals.get(literal as usize) {
        Some(l) => Some(l.count()),
        None => None,
    }
}

/// How many cells the object has into which a pointer points.
#[inline(always)]
pub fn length_of(literals: &[Literal], v: Value) -> Option<u32>
    ensures { result ≡ length_of literals.now (value_of v) }
{
    match v {
        Value::Point(p) => Some(p.length),
        Value::Letter(l) => letter_count(literals, l.literal),
        _ => None,
    }
}

/// The pointer into the same object at another offset; any other value stays.
#[inline(always)]
pub fn at_offset(v: Value, offset: u32) -> Value
    ensures { value_of result ≡ at_offset (value_of v) offset }
{
    match v {
        Value::Point(p) => Value::Point(Pointer { offset, ..p }),
        Value::Letter(l) => Value::Letter(Letter { offset, ..l }),
        other => other,
    }
}

// The offset so many cells farther, where it is one of so many cells or their end.
#[inline(always)]
fn offset_within(offset: u32, cells: i64, length: u32) -> Option<u32>
    ensures { result ≡ offset_within (pos offset +ℤ cells) length }
{
    let back = cells.unsigned_abs();
    let start = u64::from(offset);
    if cells < 0 && start < back {
        return None;
    }
    let to = if cells < 0 {
        start - back
    } else {
        start + back
    };
    if to <= u64::from(length) {
        Some(to as u32)
    } else {
        None
    }
}

/// A pointer moved by so many cells, which stays in its object or at its end.
#[inline(always)]
pub fn moved(literals: &[Literal], v: Value, cells: i64) -> Result<Value, Act>
    ensures { shown result ≡ moved literals.now (value_of v) cells }
{
    let Some(length) = length_of(literals, v) else {
        return Err(Act::PointerArithmetic);
    };
    match offset_within(offset_of(v), cells, length) {
        Some(offset) => Ok(at_offset(v, offset)),
        None => Err(Act::PointerArithmetic),
    }
}

/// The place of a member so many cells behind the start of a struct.
#[inline(always)]
pub fn member_at(literals: &[Literal], cells: u32, v: Value) -> Result<Value, Act>
    ensures { shown result ≡ member_at literals.now cells (value_of v) }
{
    let Some(length) = length_of(literals, v) else {
        return Err(Act::OutsideObject);
    };
    match offset_within(offset_of(v), i64::from(cells), length) {
        Some(offset) => Ok(at_offset(v, offset)),
        None => Err(Act::OutsideObject),
    }
}

// Whether two numbers of a table name one literal.
#[inline(always)]
fn same_literal(literals: &[Literal], l: u32, m: u32) -> bool
    ensures { result ≡ same_literal (slice_get literals.now l) (slice_get literals.now m) }
{
    let Some(first) = literals.get(l as usize) else {
        return false;
    };
    match literals.get(m as usize) {
        Some(second) => first.is_same(second),
        None => false,
    }
}

/// Whether two pointers point into one object.
#[inline(always)]
pub fn same_object(literals: &[Literal], v: Value, w: Value) -> bool
    ensures { result ≡ same_object literals.now (value_of v) (value_of w) }
{
    match (v, w) {
        (Value::Point(p), Value::Point(q)) => p.object == q.object,
        (Value::Letter(l), Value::Letter(m)) => same_literal(literals, l.literal, m.literal),
        _ => false,
    }
}

// Whether a value is ordered and subtracted as a pointer: one to an object, null, or the word 0, which is null there.
#[inline(always)]
fn serves_as_pointer(v: Value) -> bool
    ensures { result ≡ serves_as_pointer (value_of v) }
{
    match v {
        Value::Word(w) => w.get() == 0,
        other => is_of(Kind::ObjectPointer, other),
    }
}

/// Whether the first of two pointers into one object lies before the second.
pub fn pointer_before(literals: &[Literal], v: Value, w: Value) -> Result<bool, Act>
    ensures { result ≡ pointer_before literals.now (value_of v) (value_of w) }
{
    if !serves_as_pointer(v) || !serves_as_pointer(w) {
        return Err(Act::OtherKind);
    }
    if !same_object(literals, v, w) {
        return Err(Act::PointerOrder);
    }
    Ok(offset_of(v) < offset_of(w))
}

/// How many elements of so many cells lie between two pointers into one object, from the second to the first.
pub fn pointer_difference(literals: &[Literal], cells: u32, v: Value, w: Value) -> Result<i64, Act>
    requires { 0 < cells }
    ensures { result ≡ pointer_difference literals.now cells (value_of v) (value_of w) }
{
    if !serves_as_pointer(v) || !serves_as_pointer(w) {
        return Err(Act::OtherKind);
    }
    if !same_object(literals, v, w) {
        return Err(Act::PointerOrder);
    }
    let between = i64::from(offset_of(v)) - i64::from(offset_of(w));
    if between % i64::from(cells) != 0 {
        return Err(Act::PointerOrder);
    }
    Ok(between / i64::from(cells))
}

// Whether a pointer points to its object's end.
#[inline(always)]
fn is_at_end(literals: &[Literal], v: Value) -> bool
    ensures { result ≡ is_at_end literals.now (value_of v) }
{
    match length_of(literals, v) {
        Some(length) => offset_of(v) == length,
        None => false,
    }
}

// Whether it points to a cell of its object.
#[inline(always)]
fn is_into(literals: &[Literal], v: Value) -> bool
    ensures { result ≡ is_into literals.now (value_of v) }
{
    match length_of(literals, v) {
        Some(length) => offset_of(v) < length,
        None => false,
    }
}

/// Whether the first of two pointers points to its object's end, and the other into another object.
#[inline(always)]
pub fn meets_end(literals: &[Literal], v: Value, w: Value) -> bool
    ensures { result ≡ meets_end literals.now (value_of v) (value_of w) }
{
    !same_object(literals, v, w) && is_at_end(literals, v) && is_into(literals, w)
}

/// Whether both are null, or point to one function or to one place of an object.
#[inline(always)]
pub fn same_pointer(literals: &[Literal], v: Value, w: Value) -> bool
    ensures { result ≡ same_pointer literals.now (value_of v) (value_of w) }
{
    match (v, w) {
        (Value::Null, Value::Null) => true,
        (Value::Function(f), Value::Function(g)) => f == g,
        _ => same_object(literals, v, w) && offset_of(v) == offset_of(w),
    }
}
