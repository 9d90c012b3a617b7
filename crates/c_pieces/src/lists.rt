// Lists of parameters.

ghost use Rattle.std.specs.Prelude.{◌≡◌, [], IfOk, OnOk};
ghost use Rattle.c_types.specs.Types.{CType, CTypes};
ghost use Rattle.c_eval.specs.Environment.{function_parameters, parameters_of};
ghost use Rattle.c_types.specs.Table.{known, HasType, IsType};
ghost use Rattle.c_types.specs.Known.{Grows};
ghost use Rattle.c_operands.specs.Arguments.{first_type, function_parts, HasList, IsList};
ghost use Rattle.c_resolved.specs.Means.{argument_kinds};
ghost use Rattle.c_emitted.specs.Emits.{tables_of, Emits};
ghost use Rattle.c_pieces.specs.Called.{AreTold};

use c_emitted::{Emitter, number_of};
use c_kinds::kind;
use c_operands::{function_parts, pointee};
use c_plain::Arguments;
use c_store::Kind;
use c_types::{Shape, Types};
use std::alloc::{AllocError, Global};

// The first type of a list, and the list behind it.
pub fn first_type(shape: Shape) -> Option<(usize, usize)>
    ensures { result ≡ first_type shape }
{
    match shape {
        Shape::MoreType(ty, behind) => Some((ty, behind)),
        _ => None,
    }
}

/// The parameters of a function, none of any other type.
pub fn parameter_list(types: &mut Types<'_>, ty: usize) -> Result<usize, AllocError>
    requires { IsType types.old ty }
    ensures list { (t : CType) → HasType types.old ty t → IfOk result (λ n. HasList types.new n (function_parameters t)) }
    ensures grows { OnOk result (Grows (known types.old) (known types.new)) }
    ensures tags { OnOk result (types.new.tags ≡ types.old.tags) }
{
    match function_parts(types.shape(ty)) {
        Some((_result, list)) => Ok(list),
        None => types.number(Shape::NoType),
    }
}

/// The parameters of the function to which a pointer points, none of any other type.
pub fn pointed_list(types: &mut Types<'_>, ty: usize) -> Result<usize, AllocError>
    requires { IsType types.old ty }
    ensures list { (t : CType) → HasType types.old ty t → IfOk result (λ n. HasList types.new n (parameters_of t)) }
    ensures grows { OnOk result (Grows (known types.old) (known types.new)) }
    ensures tags { OnOk result (types.new.tags ≡ types.old.tags) }
{
    match pointee(types.shape(ty)) {
        Some(to) => parameter_list(types, to),
        None => types.number(Shape::NoType),
    }
}

// The kinds to which so many arguments convert.
fn argument_kinds(
    types: &Types<'_>,
    list: usize,
    count: usize,
    alloc: Global,
) -> Result<Vec<Kind>, AllocError>
    requires { IsList types.now list }
    ensures { (ts : CTypes) → HasList types.now list ts → IfOk result (λ kinds. kinds.items ≡ argument_kinds ts count) }
{
    let mut kinds = Vec::new(alloc);
    let mut rest = list;
    for _index in 0..count {
        match first_type(types.shape(rest)) {
            Some((ty, behind)) => {
                kinds.push(kind(types, ty))?;
                rest = behind;
            }
            None => kinds.push(Kind::Number)?,
        }
    }
    Ok(kinds)
}

/// So many arguments for the parameters of a list.
pub fn arguments(
    types: &Types<'_>,
    out: &mut Emitter<'_>,
    list: usize,
    count: usize,
) -> Result<Arguments, AllocError>
    requires { IsList types.now list }
    ensures emits { OnOk result (Emits out.old out.new [] []) }
    ensures told { (ts : CTypes) → HasList types.now list ts → IfOk result (λ a. AreTold (tables_of out.new) ts count a) }
{
    let number = number_of(count)?;
    let all = argument_kinds(types, list, count, out.alloc)?;
    let kinds = out.kinds(&all)?;
    Ok(Arguments {
        count: number,
        kinds,
    })
}
