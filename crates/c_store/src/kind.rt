// The kinds of values.

ghost use Rattle.std.specs.Prelude.{◌≡◌, Some};
ghost use Rattle.c_store.specs.Words.{is_of, holds_no_other, read_cell, is_true, as_pointer, used};
ghost use Rattle.c_store.specs.Shown.{value_of, cell_of, shown};

use crate::act::Act;
use crate::value::{Cell, Value};

/// What a cell can hold.
#[derive(Clone, Copy)]
pub enum Kind {
    Number,
    ObjectPointer,
    FunctionPointer,
}

/// Whether a value is of a kind; null is of both kinds of pointers.
#[inline(always)]
pub fn is_of(kind: Kind, v: Value) -> bool
    ensures { result ≡ is_of kind (value_of v) }
{
    match kind {
        Kind::Number => matches!(v, Value::Word(_)),
        Kind::ObjectPointer => matches!(v, Value::Null | Value::Point(_) | Value::Letter(_)),
        Kind::FunctionPointer => matches!(v, Value::Null | Value::Function(_)),
    }
}

/// Whether a cell may be written as one of a kind: an unset cell holds no other kind.
#[inline(always)]
pub fn holds_no_other(kind: Kind, cell: Cell) -> bool
    ensures { result ≡ holds_no_other kind (cell_of cell) }
{
    match cell {
        Cell::Unset => true,
        Cell::Holds(v) => is_of(kind, v),
    }
}

/// What a cell holds, read as one of a kind.
#[inline(always)]
pub fn read_cell(kind: Kind, cell: Cell) -> Result<Value, Act>
    ensures { shown result ≡ read_cell kind (Some (cell_of cell)) }
{
    match cell {
        Cell::Unset => Err(Act::UnsetCell),
        Cell::Holds(v) => {
            if is_of(kind, v) {
                Ok(v)
            } else {
                Err(Act::OtherKind)
            }
        }
    }
}

/// Whether a value is true: a word that isn't 0, a pointer that isn't null.
#[inline(always)]
pub fn is_true(v: Value) -> bool
    ensures { result ≡ is_true (value_of v) }
{
    match v {
        Value::Word(w) => w.get() != 0,
        Value::Null => false,
        _ => true,
    }
}

/// A value that is used as a pointer: the word 0 becomes null.
#[inline(always)]
pub fn as_pointer(v: Value) -> Value
    ensures { value_of result ≡ as_pointer (value_of v) }
{
    match v {
        Value::Word(w) if w.get() == 0 => Value::Null,
        other => other,
    }
}

/// The use of a value: a function that gave no result has none.
#[inline(always)]
pub fn used(v: Value) -> Result<Value, Act>
    ensures { shown result ≡ used (value_of v) }
{
    match v {
        Value::Missing => Err(Act::NoResult),
        other => Ok(other),
    }
}
