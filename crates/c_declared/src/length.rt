// Lengths that first values tell.

ghost use Rattle.std.specs.Prelude.{◌≡◌, ◌<◌, ℕ, length, IfOk, OnOk};
ghost use Rattle.c_syntax.specs.Plain as plain;
ghost use Rattle.c_syntax.specs.View.{expr_of, value_of, maybe_value};
ghost use Rattle.c_types.specs.Types as types;
ghost use Rattle.c_types.specs.Types.{CType};
ghost use Rattle.c_types.specs.Declarations.{elements_given, completed};
ghost use Rattle.c_types.specs.Table.{known, HasType, IsType};
ghost use Rattle.c_types.specs.Known.{Grows};
ghost use Rattle.c_layouts.specs.Layouts.{array_parts};
ghost use Rattle.c_declared.specs.Slots.{character, open_array};

use c_syntax::tree::{Expr, Form, Value};
use c_types::{Shape, Types};
use std::alloc::AllocError;

/// An array's elements and its length.
pub fn array_parts(shape: Shape) -> Option<(usize, usize)>
    ensures { result ≡ array_parts shape }
{
    match shape {
        Shape::Array(of, count) => Some((of, count)),
        _ => None,
    }
}

// What an array whose length is left open has as elements.
fn open_array(shape: Shape) -> Option<usize>
    ensures { result ≡ open_array shape }
{
    match shape {
        Shape::Array(of, count) => { if count == 0 { Some(of) } else { None } }
        _ => None,
    }
}

/// A character's shape.
pub fn is_character(shape: Shape) -> bool
    ensures { result ≡ character shape }
{
    matches!(shape, Shape::Char | Shape::UChar)
}

// How many elements a first value that is one expression gives an array of a type.
fn elements_of_one(types: &Types<'_>, of: usize, e: &Expr) -> usize
    requires { of < length (known types.now) }
    ensures { (t : CType) → HasType types.now of t → result ≡ elements_given t (plain.One (expr_of e.now)) }
{
    match &e.form {
        Form::Str(text) => {
            if is_character(types.shape(of)) {
                text.as_bytes().len() + 1
            } else {
                1
            }
        }
        _ => 1,
    }
}

// How many elements a first value gives an array of a type.
fn elements_given(types: &Types<'_>, of: usize, value: &Value) -> usize
    requires { of < length (known types.now) }
    ensures { (t : CType) → HasType types.now of t → result ≡ elements_given t (value_of value.now) }
{
    match value {
        Value::One(e) => elements_of_one(types, of, e),
        Value::Many(values) => values.items.len(),
    }
}

// A type whose length, if it is left open, a first value tells.
fn with_length(types: &mut Types<'_>, ty: usize, value: &Value) -> Result<usize, AllocError>
    requires { IsType types.old ty }
    ensures completed { (t : CType) → HasType types.old ty t → IfOk result (λ n. HasType types.new n (completed t (Some (value_of value.now)))) }
    ensures grows { OnOk result (Grows (known types.old) (known types.new)) }
    ensures tags { OnOk result (types.new.tags ≡ types.old.tags) }
{
    match open_array(types.shape(ty)) {
        Some(of) => {
            let count = elements_given(types, of, value);
            types.number(Shape::Array(of, count))
        }
        None => Ok(ty),
    }
}

/// The type of a declared object: a length that is left open is told by the first value.
pub fn completed(
    types: &mut Types<'_>,
    ty: usize,
    first: &Option<Value>,
) -> Result<usize, AllocError>
    requires { IsType types.old ty }
    ensures completed { (t : CType) → HasType types.old ty t → IfOk result (λ n. HasType types.new n (completed t (maybe_value first.now))) }
    ensures grows { OnOk result (Grows (known types.old) (known types.new)) }
    ensures tags { OnOk result (types.new.tags ≡ types.old.tags) }
{
    match first {
        Some(value) => with_length(types, ty, value),
        None => Ok(ty),
    }
}
