// Functions, and the lists of their parameters' types.

ghost use Rattle.std.specs.Prelude.{◌≡◌, ◌||◌, Ok, [], ◌∷◌, IfOk, OnOk};
ghost use Rattle.c_types.specs.declared.fault.TypeFault.TheVariants.{Mismatch};
ghost use Rattle.c_types.specs.Types as plain;
ghost use Rattle.c_types.specs.Types.{CType, CTypes};
ghost use Rattle.c_types.specs.Refusals as refusals;
ghost use Rattle.c_types.specs.Refusals.{after, keeping};
ghost use Rattle.c_types.specs.Expressions.{parameter_type, is_result_type};
ghost use Rattle.c_types.specs.Table.{known, HasType, IsType};
ghost use Rattle.c_types.specs.Known.{Grows};
ghost use Rattle.c_operands.specs.Classes.{void, scalar};
ghost use Rattle.c_operands.specs.Seen.{IsJudged};
ghost use Rattle.c_operands.specs.Arguments.{HasList, IsList};
ghost use Rattle.c_forms.specs.Forms.{IsSomeType};
ghost use Rattle.c_forms.specs.Seen.{IsSomeList};

use crate::judged::type_rule;
use c_operands::{Class, Judged, class_of, least_of, used_type};
use c_types::{Shape, TypeFault, Types};
use std::alloc::AllocError;

// Whether a function may give a value of a class.
fn is_result(class: Class) -> bool
    ensures { result ≡ (void class || scalar class) }
{
    class == Class::Void || class.is_scalar()
}

/// A function, by its result's type and the list of its parameters' types, which are judged.
pub fn function_type(
    types: &mut Types<'_>,
    at: u32,
    gives: Judged<usize>,
    parameters: Judged<usize>,
) -> Result<Judged<usize>, AllocError>
    requires gives { IsSomeType types.old gives }
    requires parameters { IsSomeList types.old parameters }
    ensures judged { (p : refusals.Judged CType) (q : refusals.Judged CTypes) → IsJudged (HasType types.old) gives p → IsJudged (HasList types.old) parameters q → IfOk result (λ j. IsJudged (HasType types.new) j (refusals.both p q (λ t ts. keeping ((is_result_type t, Mismatch at) ∷ []) (plain.Function t ts)))) }
    ensures grows { OnOk result (Grows (known types.old) (known types.new)) }
    ensures tags { OnOk result (types.new.tags ≡ types.old.tags) }
{
    match gives {
        Ok(ty) => match parameters {
            Ok(list) => {
                let kept = is_result(class_of(types, ty));
                let function = types.number(Shape::Function(ty, list))?;
                Ok(type_rule(kept, TypeFault::Mismatch(at), function))
            }
            Err(fault) => Ok(Err(fault)),
        },
        Err(fault) => Ok(Err(least_of(fault, parameters.err()))),
    }
}

// A parameter's type as the first of a list. An array is a pointer as a parameter.
fn first_parameter(
    types: &mut Types<'_>,
    at: u32,
    ty: usize,
    list: usize,
) -> Result<Judged<usize>, AllocError>
    requires ty { IsType types.old ty }
    requires list { IsList types.old list }
    ensures judged { (t : CType) (ts : CTypes) → HasType types.old ty t → HasList types.old list ts → IfOk result (λ j. IsJudged (HasList types.new) j (after (parameter_type at t) (λ u. Ok (plain.MoreType u ts)))) }
    ensures grows { OnOk result (Grows (known types.old) (known types.new)) }
    ensures tags { OnOk result (types.new.tags ≡ types.old.tags) }
{
    let used = used_type(types, ty)?;
    let kept = class_of(types, used).is_scalar();
    let more = types.number(Shape::MoreType(used, list))?;
    if kept {
        Ok(Ok(more))
    } else {
        Ok(Err(TypeFault::Mismatch(at)))
    }
}

/// A list of parameters' types, by the first one's type and the list of the others, which are judged.
pub fn more_types(
    types: &mut Types<'_>,
    at: u32,
    first: Judged<usize>,
    others: Judged<usize>,
) -> Result<Judged<usize>, AllocError>
    requires first { IsSomeType types.old first }
    requires others { IsSomeList types.old others }
    ensures judged { (p : refusals.Judged CType) (q : refusals.Judged CTypes) → IsJudged (HasType types.old) first p → IsJudged (HasList types.old) others q → IfOk result (λ j. IsJudged (HasList types.new) j (refusals.both p q (λ t ts. after (parameter_type at t) (λ u. Ok (plain.MoreType u ts))))) }
    ensures grows { OnOk result (Grows (known types.old) (known types.new)) }
    ensures tags { OnOk result (types.new.tags ≡ types.old.tags) }
{
    match first {
        Ok(ty) => match others {
            Ok(list) => first_parameter(types, at, ty, list),
            Err(fault) => Ok(Err(fault)),
        },
        Err(fault) => Ok(Err(least_of(fault, others.err()))),
    }
}
