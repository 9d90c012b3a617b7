// Strings that are first values of arrays.

ghost use Rattle.std.specs.Prelude.{◌≡◌, ◌<◌, ◌≤◌, ◌-◌, ◌++◌, ◌∷◌, [], ℕ, List, length, replicate, IfOk, OnOk};
ghost use Rattle.std.specs.Option.{option_map};
ghost use Rattle.c_syntax.specs.View.{expr_of};
ghost use Rattle.c_types.specs.Types.{CType};
ghost use Rattle.c_types.specs.Table.{known, HasType};
ghost use Rattle.c_declared.specs.Slots.{character};
ghost use Rattle.c_emitted.specs.Emits.{Emits};
ghost use Rattle.c_static.specs.Spelled.{string_in, room_of, spelled};

use c_emitted::{Emitter, number_of};
use c_syntax::tree::{Expr, Form};
use c_types::{Shape, Types};
use std::alloc::{AllocError, Global};

// The string that an expression is, if it is one.
fn string_in(e: &Expr) -> Option<&[u8]>
    ensures { option_map (λ n. n.now) result ≡ string_in (expr_of e.now) }
{
    match &e.form {
        Form::Str(text) => Some(text.as_bytes()),
        _ => None,
    }
}

// Whether a shape is that of a character.
fn is_character(shape: Shape) -> bool
    ensures { result ≡ character shape }
{
    matches!(shape, Shape::Char | Shape::UChar)
}

// How many characters an array of a type holds, if it is one of characters.
fn room_of(types: &Types<'_>, ty: usize) -> Option<usize>
    requires { ty < length (known types.now) }
    ensures { (t : CType) → HasType types.now ty t → result ≡ room_of t }
{
    match types.shape(ty) {
        Shape::Array(of, count) => if is_character(types.shape(of)) {
            Some(count)
        } else {
            None
        },
        _ => None,
    }
}

// A string with zeros behind it, so many bytes in all.
fn padded(alloc: Global, text: &[u8], count: usize) -> Result<Vec<u8>, AllocError>
    requires { length text.now ≤ count }
    ensures { IfOk result (λ v. v.items ≡ text.now ++ replicate (count - length text.now) 0) }
{
    let mut bytes = Vec::from_slice(alloc, text)?;
    for _index in 0..count - text.len() {
        bytes.push(0)?;
    }
    Ok(bytes)
}

/// The bytes of the string that an object of a type takes as its first value, if it takes one, with zeros behind it.
pub fn spelled(
    types: &Types<'_>,
    alloc: Global,
    ty: usize,
    e: &Expr,
) -> Result<Option<Vec<u8>>, AllocError>
    requires { ty < length (known types.now) }
    ensures { (t : CType) → HasType types.now ty t → IfOk result (λ o. option_map (λ v. v.items) o ≡ spelled t (expr_of e.now)) }
{
    let Some(text) = string_in(e) else {
        return Ok(None);
    };
    let Some(count) = room_of(types, ty) else {
        return Ok(None);
    };
    if text.len() <= count {
        Ok(Some(padded(alloc, text, count)?))
    } else {
        Ok(None)
    }
}

/// A string literal is passed that is no object of its own.
pub fn pass_literal(out: &mut Emitter<'_>) -> Result<(), AllocError>
    ensures { (text : List ℕ) → OnOk result (Emits out.old out.new [] (text ∷ [])) }
{
    out.before = number_of(out.before as usize + 1)?;
    Ok(())
}
