// Signatures of functions.

ghost use Rattle.std.specs.Prelude.{◌≡◌, ◌<◌, ◌||◌, [], ◌∷◌, length, IfOk, OnOk};
ghost use Rattle.std.specs.Result.{result_err};
ghost use Rattle.c_syntax.specs.View.{ty_of, decls_of};
ghost use Rattle.c_types.specs.declared.fault.TypeFault.TheVariants.{Mismatch};
ghost use Rattle.c_types.specs.Types.{CType, CTypes};
ghost use Rattle.c_types.specs.Expressions.{is_result_type};
ghost use Rattle.c_types.specs.Refusals as refusals;
ghost use Rattle.c_types.specs.Refusals.{keeping};
ghost use Rattle.c_types.specs.Scope.{Scope, entered};
ghost use Rattle.c_types.specs.Units as plain;
ghost use Rattle.c_types.specs.Table.{known, HasType, IsType};
ghost use Rattle.c_types.specs.Known.{Grows};
ghost use Rattle.c_operands.specs.Classes.{void, scalar};
ghost use Rattle.c_operands.specs.Seen.{IsJudged};
ghost use Rattle.c_operands.specs.Arguments.{HasList};
ghost use Rattle.c_declared.specs.Held.{Holds, HoldsSome};
ghost use Rattle.c_signatures.specs.Parameters.{AreTyped, AreParameters};
ghost use Rattle.c_forms.specs.Forms.{IsSomeType};
ghost use Rattle.c_operands.specs.declared.declarations.Declarations.{Declarations};
ghost use Rattle.c_signatures.specs.Signatures.{AreSomeTyped, HasParts, IsSignature, AreSomeParameters, with_parameters};

use crate::blocks::{begin_block, end_block};
use crate::parameters::{Parameter, judge_parameters};
use c_expressions::written;
use c_operands::{Class, Declarations, Judged, class_of, least_of};
use c_syntax::tree::{Decls, Ty};
use c_types::{Shape, TypeFault, Types};
use std::alloc::AllocError;

/// A function's result, its parameters, and the number of its type.
#[derive(Drop)]
pub struct Signature<'t> {
    pub result: usize,
    pub parameters: Vec<Parameter<'t>>,
    pub ty: usize,
}

// Whether a function may give a value of a class.
fn is_result(class: Class) -> bool
    ensures { result ≡ (void class || scalar class) }
{
    class == Class::Void || class.is_scalar()
}

// A type as that of a result: nothing, or of one word.
fn as_result(types: &Types<'_>, at: u32, ty: usize) -> Judged<usize>
    requires { ty < length (known types.now) }
    ensures { (t : CType) → HasType types.now ty t → IsJudged (HasType types.now) result (keeping ((is_result_type t, Mismatch at) ∷ []) t) }
{
    if is_result(class_of(types, ty)) {
        Ok(ty)
    } else {
        Err(TypeFault::Mismatch(at))
    }
}

/// The type of a function's result.
pub fn result_type(
    types: &mut Types<'_>,
    declared: &Declarations<'_>,
    at: u32,
    ty: &Ty,
) -> Result<Judged<usize>, AllocError>
    requires { HoldsSome types.old declared.now }
    ensures judged { (s : Scope) → Holds types.old declared.now s → IfOk result (λ j. IsJudged (HasType types.new) j (plain.result_type s at (ty_of ty.now))) }
    ensures grows { OnOk result (Grows (known types.old) (known types.new)) }
    ensures tags { OnOk result (types.new.tags ≡ types.old.tags) }
{
    let gives = written(types, declared, at, ty)?;
    match gives {
        Ok(number) => Ok(as_result(types, at, number)),
        Err(fault) => Ok(Err(fault)),
    }
}

// The list of the types of parameters, the last one first.
fn parameter_list(types: &mut Types<'_>, parameters: &[Parameter<'_>]) -> Result<usize, AllocError>
    requires { AreSomeTyped types.old parameters.now }
    ensures list { (ts : CTypes) → AreTyped (known types.old) parameters.now ts → IfOk result (λ n. HasList types.new n ts) }
    ensures grows { OnOk result (Grows (known types.old) (known types.new)) }
    ensures tags { OnOk result (types.new.tags ≡ types.old.tags) }
{
    let count = parameters.len();
    let mut list = types.number(Shape::NoType)?;
    for k in 0..count {
        let next = &parameters[count - 1 - k];
        list = types.number(Shape::MoreType(next.ty, list))?;
    }
    Ok(list)
}

// A function of this result and these parameters.
fn signature_of<'t>(
    types: &mut Types<'_>,
    gives: usize,
    parameters: Vec<Parameter<'t>>,
) -> Result<Signature<'t>, AllocError>
    requires gives { IsType types.old gives }
    requires parameters { AreSomeTyped types.old parameters.items }
    ensures signature { (t : CType) (ts : CTypes) → HasType types.old gives t → AreTyped (known types.old) parameters.entry.items ts → IfOk result (λ f. HasParts types.new f parameters.entry t ts) }
    ensures grows { OnOk result (Grows (known types.old) (known types.new)) }
    ensures tags { OnOk result (types.new.tags ≡ types.old.tags) }
{
    let list = parameter_list(types, parameters.as_slice())?;
    let ty = types.number(Shape::Function(gives, list))?;
    Ok(Signature {
        result: gives,
        parameters,
        ty,
    })
}

// The signature that a result and parameters make, if neither is refused.
fn joined<'t>(
    types: &mut Types<'_>,
    gives: Judged<usize>,
    parameters: Judged<Vec<Parameter<'t>>>,
) -> Result<Judged<Signature<'t>>, AllocError>
    requires gives { IsSomeType types.old gives }
    requires parameters { AreSomeParameters types.old parameters }
    ensures judged { (s : Scope) (d : Declarations) (p : refusals.Judged CType) (q : refusals.Judged plain.Parameters) → d.names.block ≡ [] → IsJudged (HasType types.old) gives p → IsJudged (AreParameters types.old d (entered s)) parameters.entry q → IfOk result (λ j. IsJudged (IsSignature types.new s) j (refusals.both p q with_parameters)) }
    ensures grows { OnOk result (Grows (known types.old) (known types.new)) }
    ensures tags { OnOk result (types.new.tags ≡ types.old.tags) }
{
    match gives {
        Ok(ty) => match parameters {
            Ok(all) => Ok(Ok(signature_of(types, ty, all)?)),
            Err(fault) => Ok(Err(fault)),
        },
        Err(fault) => Ok(Err(least_of(fault, refusal_of(&parameters)))),
    }
}

// The refusal of parameters, if they are refused.
fn refusal_of(parameters: &Judged<Vec<Parameter<'_>>>) -> Option<TypeFault>
    ensures { result ≡ result_err parameters.now }
{
    match parameters {
        Ok(_) => None,
        Err(fault) => Some(*fault),
    }
}

/// The signature of a function, or the refusal that is told. The parameters are in a block of their own, which ends.
pub fn judge_signature<'t>(
    types: &mut Types<'_>,
    declared: &mut Declarations<'t>,
    at: u32,
    gives: &Ty,
    parameters: &'t Decls,
) -> Result<Judged<Signature<'t>>, AllocError>
    requires { HoldsSome types.old declared.old }
    ensures judged { (s : Scope) → Holds types.old declared.old s → IfOk result (λ j. IsJudged (IsSignature types.new s) j (plain.signature s at (ty_of gives.now) (decls_of parameters.now.items.items))) }
    ensures holds { (s : Scope) → Holds types.old declared.old s → OnOk result (Holds types.new declared.new s) }
    ensures grows { OnOk result (Grows (known types.old) (known types.new)) }
    ensures tags { OnOk result (types.new.tags ≡ types.old.tags) }
{
    let given = result_type(types, declared, at, gives)?;
    let mark = begin_block(declared);
    let all = judge_parameters(types, declared, parameters)?;
    let signature = joined(types, given, all)?;
    end_block(declared, mark)?;
    Ok(signature)
}
