// Calls.

ghost use Rattle.std.specs.Prelude.{◌≡◌, ◌∷◌, [], OnOk};
ghost use Rattle.c_types.specs.Types.{CTypes};
ghost use Rattle.c_code.specs.Code as code;
ghost use Rattle.c_code.specs.Code.{known_code, puts_code, first_converted};
ghost use Rattle.c_operands.specs.Arguments.{HasList, IsList};
ghost use Rattle.c_resolved.specs.Means.{known_by};
ghost use Rattle.c_emitted.specs.Emits.{Emits};

use crate::lists::{arguments, first_type};
use c_emitted::{Emitter, number_of};
use c_kinds::kind;
use c_plain::{BuiltIn, Instruction, Unary};
use c_types::Types;
use std::alloc::AllocError;
use word24::Word;

/// A call of a function of the text.
pub fn direct<'t>(
    types: &Types<'_>,
    out: &mut Emitter<'t>,
    name: &'t [u8],
    list: usize,
    count: usize,
) -> Result<(), AllocError>
    requires { IsList types.now list }
    ensures { (ts : CTypes) → HasList types.now list ts → OnOk result (Emits out.old out.new (code.Call name.now ts count ∷ []) []) }
{
    let number = out.name_number(name)?;
    let given = arguments(types, out, list, count)?;
    out.add(Instruction::Call(number, given))
}

/// A call of what a value points to.
pub fn through(
    types: &Types<'_>,
    out: &mut Emitter<'_>,
    list: usize,
    count: usize,
) -> Result<(), AllocError>
    requires { IsList types.now list }
    ensures { (ts : CTypes) → HasList types.now list ts → OnOk result (Emits out.old out.new (code.CallThrough ts count ∷ []) []) }
{
    let given = arguments(types, out, list, count)?;
    out.add(Instruction::CallThrough(given))
}

// The function that is always known by a name.
fn known_by(name: &[u8]) -> BuiltIn
    ensures { result ≡ known_by name.now }
{
    if name == b"getchar".as_slice() {
        BuiltIn::GetChar
    } else if name == b"__builtin_getc".as_slice() {
        BuiltIn::GetByte
    } else if name == b"putchar".as_slice() {
        BuiltIn::PutChar
    } else if name == b"exit".as_slice() {
        BuiltIn::Exit
    } else {
        BuiltIn::Other
    }
}

// The first argument converts to the first parameter's type.
fn first_converted(types: &Types<'_>, out: &mut Emitter<'_>, list: usize) -> Result<(), AllocError>
    requires { IsList types.now list }
    ensures { (ts : CTypes) → HasList types.now list ts → OnOk result (Emits out.old out.new (first_converted ts) []) }
{
    match first_type(types.shape(list)) {
        Some((ty, _behind)) => out.add(Instruction::Unary(Unary::Convert(kind(types, ty)))),
        None => Ok(()),
    }
}

// `puts` writes the string of its first argument and a line feed.
fn puts(
    types: &Types<'_>,
    out: &mut Emitter<'_>,
    list: usize,
    count: usize,
) -> Result<(), AllocError>
    requires { IsList types.now list }
    ensures { (ts : CTypes) → HasList types.now list ts → OnOk result (Emits out.old out.new (puts_code ts count) []) }
{
    if count == 0 {
        return out.add(Instruction::Stuck);
    }
    let number = number_of(count)?;
    out.add(Instruction::Turn(number))?;
    first_converted(types, out, list)?;
    out.add(Instruction::Text)?;
    out.add(Instruction::Put(10))?;
    out.add(Instruction::Printed(number - 1))?;
    out.add(Instruction::Pop)?;
    out.add(Instruction::PushWord(Word::wrap(0)))
}

/// A call of a function that is always known, behind the unit that it costs.
pub fn known(
    types: &Types<'_>,
    out: &mut Emitter<'_>,
    name: &[u8],
    list: usize,
    count: usize,
) -> Result<(), AllocError>
    requires { IsList types.now list }
    ensures { (ts : CTypes) → HasList types.now list ts → OnOk result (Emits out.old out.new (known_code name.now ts count) []) }
{
    if name == b"puts".as_slice() {
        return puts(types, out, list, count);
    }
    let given = arguments(types, out, list, count)?;
    out.add(Instruction::BuiltIn(known_by(name), given))
}
