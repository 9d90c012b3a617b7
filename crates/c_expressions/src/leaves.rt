// Expressions without parts.

ghost use Rattle.std.specs.Prelude.{◌≡◌, ◌+◌, Some, length, Ok, IfOk, OnOk, if◌then◌else◌, ◌==◌};
ghost use Rattle.c_types.specs.Types as ctype;
ghost use Rattle.c_types.specs.Types.{CType};
ghost use Rattle.c_types.specs.Operands as operands;
ghost use Rattle.c_types.specs.Operands.{value_at};
ghost use Rattle.c_types.specs.Expressions as plain;
ghost use Rattle.c_types.specs.Table.{Table, known, HasType};
ghost use Rattle.c_types.specs.Known.{OneType, Grows, says};
ghost use Rattle.c_operands.specs.Seen.{IsOperand, IsJudged, sort_of};
ghost use Rattle.c_operands.specs.Arguments.{HasList};

use c_operands::{Judged, Operand, Sort, value_at};
use c_types::{Constant, Shape, Types};
use std::alloc::AllocError;
use word24::Word;

// The type of a number.
fn number_shape(unsigned: bool) -> Shape
    ensures { (table : Table) → says table.tags (known table) result ≡ Some (OneType (if unsigned then ctype.Unsigned else ctype.Int)) }
{
    if unsigned {
        Shape::Unsigned
    } else {
        Shape::Int
    }
}

// Whether a number is a literal 0.
fn number_sort(value: u32) -> Sort
    ensures { sort_of result ≡ (if value == 0 then operands.Zero else operands.Other) }
{
    if value == 0 { Sort::Zero } else { Sort::Other }
}

/// A number.
pub fn literal(
    types: &mut Types<'_>,
    at: u32,
    value: u32,
    unsigned: bool,
) -> Result<Judged<Operand>, AllocError>
    ensures judged { IfOk result (λ j. IsJudged (IsOperand types.new) j (Ok (plain.literal at value unsigned))) }
    ensures grows { OnOk result (Grows (known types.old) (known types.new)) }
    ensures tags { OnOk result (types.new.tags ≡ types.old.tags) }
{
    let ty = types.number(number_shape(unsigned))?;
    let sort = number_sort(value);
    let word = Word::wrap(value as u64);
    Ok(Ok(Operand {
        at,
        ty,
        sort,
        constant: Constant::Value(word),
    }))
}

/// A string, which is an array of its bytes and a zero.
pub fn string(types: &mut Types<'_>, at: u32, text: &[u8]) -> Result<Judged<Operand>, AllocError>
    ensures judged { IfOk result (λ j. IsJudged (IsOperand types.new) j (Ok (value_at at (ctype.Array ctype.Char (length text.now + 1))))) }
    ensures grows { OnOk result (Grows (known types.old) (known types.new)) }
    ensures tags { OnOk result (types.new.tags ≡ types.old.tags) }
{
    let character = types.number(Shape::Char)?;
    let array = types.number(Shape::Array(character, text.len() + 1))?;
    Ok(Ok(value_at(at, array)))
}

/// `NULL`.
pub fn null(types: &mut Types<'_>, at: u32) -> Result<Judged<Operand>, AllocError>
    ensures judged { IfOk result (λ j. IsJudged (IsOperand types.new) j (Ok (value_at at ctype.Null))) }
    ensures grows { OnOk result (Grows (known types.old) (known types.new)) }
    ensures tags { OnOk result (types.new.tags ≡ types.old.tags) }
{
    let ty = types.number(Shape::Null)?;
    Ok(Ok(value_at(at, ty)))
}

/// A type without parts.
pub fn plain_type(types: &mut Types<'_>, shape: Shape) -> Result<Judged<usize>, AllocError>
    requires { (t : CType) × ((table : Table) → says table.tags (known table) shape ≡ Some (OneType t)) }
    ensures judged { (t : CType) → ((table : Table) → says table.tags (known table) shape ≡ Some (OneType t)) → IfOk result (λ j. IsJudged (HasType types.new) j (Ok t)) }
    ensures grows { OnOk result (Grows (known types.old) (known types.new)) }
    ensures tags { OnOk result (types.new.tags ≡ types.old.tags) }
{
    let ty = types.number(shape)?;
    Ok(Ok(ty))
}

/// No types.
pub fn no_types(types: &mut Types<'_>) -> Result<Judged<usize>, AllocError>
    ensures judged { IfOk result (λ j. IsJudged (HasList types.new) j (Ok ctype.NoType)) }
    ensures grows { OnOk result (Grows (known types.old) (known types.new)) }
    ensures tags { OnOk result (types.new.tags ≡ types.old.tags) }
{
    let list = types.number(Shape::NoType)?;
    Ok(Ok(list))
}
