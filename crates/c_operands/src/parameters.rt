// Lists of parameters, and the arguments for them.

ghost use Rattle.std.specs.Prelude.{◌≡◌, ◌==◌, is_none, List, [], ◌∷◌};
ghost use Rattle.c_types.specs.Types.{CType, CTypes};
ghost use Rattle.c_types.specs.Refusals.{Rule, broken, least_of};
ghost use Rattle.c_types.specs.Operands as plain;
ghost use Rattle.c_types.specs.Operands.{count_of, argument_rules};
ghost use Rattle.c_types.specs.declared.fault.TypeFault.TheVariants.{Mismatch};
ghost use Rattle.c_types.specs.Table.{HasType, IsType};
ghost use Rattle.c_operands.specs.Arguments.{first_type, HasList, IsList, IsArgument, AreArguments, merged};

use crate::arguments::Argument;
use crate::class::class_of;
use crate::conversion::converts;
use crate::refusal::least;
use c_types::{Shape, TypeFault, Types};

/// The first type of a list, and the list behind it.
pub fn first_type(shape: Shape) -> Option<(usize, usize)>
    ensures { result ≡ first_type shape }
{
    match shape {
        Shape::MoreType(ty, behind) => Some((ty, behind)),
        _ => None,
    }
}

// Whether a list has no types.
fn is_end(shape: Shape) -> bool
    ensures { result ≡ is_none (first_type shape) }
{
    first_type(shape).is_none()
}

// Whether a list has so many types.
pub fn has_length(types: &Types<'_>, list: usize, count: usize) -> bool
    requires { IsList types.now list }
    ensures { (ts : CTypes) → HasList types.now list ts → result ≡ (count_of ts == count) }
{
    let mut rest = list;
    for _index in 0..count {
        let shape = types.shape(rest);
        match first_type(shape) {
            Some((_first, behind)) => rest = behind,
            None => return false,
        }
    }
    let last = types.shape(rest);
    is_end(last)
}

// The refusal of an argument that doesn't convert to its parameter's type.
fn argument_fault(types: &Types<'_>, argument: Argument, ty: usize) -> Option<TypeFault>
    requires { IsType types.now ty }
    ensures { (x : plain.Operand) (t : CType) → IsArgument types.now argument x → HasType types.now ty t → result ≡ broken ((plain.converts x t, Mismatch x.pos) ∷ []) }
{
    let kept = converts(types, argument.value, ty, class_of(types, ty));
    if kept {
        None
    } else {
        Some(TypeFault::Mismatch(argument.at))
    }
}

/// The refusal of two that is told, of which the second one may be missing.
pub fn least_of(fault: TypeFault, other: Option<TypeFault>) -> TypeFault
    ensures { result ≡ least_of fault other }
{
    match other {
        Some(other) => least(fault, other),
        None => fault,
    }
}

/// The refusal of two that is told, if there is one.
pub fn merged(first: Option<TypeFault>, second: Option<TypeFault>) -> Option<TypeFault>
    ensures { result ≡ merged first second }
{
    match first {
        Some(fault) => Some(least_of(fault, second)),
        None => second,
    }
}

// The refusal of the arguments that don't convert to the types of a list, as far as both go.
pub fn broken_argument(types: &Types<'_>, list: usize, arguments: &[Argument]) -> Option<TypeFault>
    requires { IsList types.now list }
    ensures { (ts : CTypes) (xs : List plain.Operand) → HasList types.now list ts → AreArguments types.now arguments.now xs → result ≡ broken (argument_rules ts xs) }
{
    let mut told = None;
    let mut rest = list;
    for argument in arguments {
        let shape = types.shape(rest);
        match first_type(shape) {
            Some((ty, behind)) => {
                let fault = argument_fault(types, *argument, ty);
                told = merged(told, fault);
                rest = behind;
            }
            None => return told,
        }
    }
    told
}

// The refusal of several rules, that of the others being at hand.
pub fn told(kept: bool, fault: TypeFault, others: Option<TypeFault>) -> Option<TypeFault>
    ensures { (rules : List Rule) → others ≡ broken rules → result ≡ broken ((kept, fault) ∷ rules) }
{
    if kept {
        others
    } else {
        Some(least_of(fault, others))
    }
}
