// Calls.

ghost use Rattle.std.specs.Prelude.{◌≡◌, ◌&&◌, List, IfOk, OnOk, option_map};
ghost use Rattle.c_types.specs.Types.{CType};
ghost use Rattle.c_types.specs.Refusals.{Rule, broken, keeping};
ghost use Rattle.c_types.specs.Operands as plain;
ghost use Rattle.c_types.specs.Table.{Table, known, HasType, IsType};
ghost use Rattle.c_types.specs.Known.{Grows};
ghost use Rattle.c_operands.specs.Seen.{IsOperand, IsJudged};
ghost use Rattle.c_operands.specs.Arguments.{function_parts, AreArguments, IsCallee};

use crate::arguments::{Argument, Callee};
use crate::class::pointee;
use crate::formats::is_print_form;
use crate::operand::Operand;
use crate::parameters::{broken_argument, has_length, told};
use crate::refusal::{Judged, one_rule};
use crate::value::value_at;
use c_types::{Shape, TypeFault, Types};
use std::alloc::AllocError;

/// A function's result and the list of its parameters.
pub fn function_parts(shape: Shape) -> Option<(usize, usize)>
    ensures { result ≡ function_parts shape }
{
    match shape {
        Shape::Function(result, parameters) => Some((result, parameters)),
        _ => None,
    }
}

// What an expression is, if there is no refusal.
fn judged(told: Option<TypeFault>, a: Operand) -> Judged<Operand>
    ensures { (table : Table) (x : plain.Operand) (rules : List Rule) → IsOperand table a x → told ≡ broken rules → IsJudged (IsOperand table) result (keeping rules x) }
{
    match told {
        Some(fault) => Err(fault),
        None => Ok(a),
    }
}

// Whether a function has a definition that takes so many arguments.
fn is_taken(defined: bool, fits: bool) -> bool
    ensures { result ≡ (defined && fits) }
{
    defined && fits
}

// A call of a function of a type, whether it has a definition.
fn function_call(
    types: &Types<'_>,
    at: u32,
    defined: bool,
    ty: usize,
    arguments: &[Argument],
) -> Judged<Operand>
    requires { IsType types.now ty }
    ensures { (t : CType) (xs : List plain.Operand) → HasType types.now ty t → AreArguments types.now arguments.now xs → IsJudged (IsOperand types.now) result (plain.function_call at defined t xs) }
{
    let shape = types.shape(ty);
    match function_parts(shape) {
        None => Err(TypeFault::BadCall(at)),
        Some((result, list)) => {
            let fits = has_length(types, list, arguments.len());
            let others = broken_argument(types, list, arguments);
            let taken = is_taken(defined, fits);
            let fault = told(taken, TypeFault::BadCall(at), others);
            judged(fault, value_at(at, result))
        }
    }
}

// A call through a pointer to a function.
fn pointer_call(types: &Types<'_>, at: u32, ty: usize, arguments: &[Argument]) -> Judged<Operand>
    requires { IsType types.now ty }
    ensures { (t : CType) (xs : List plain.Operand) → HasType types.now ty t → AreArguments types.now arguments.now xs → IsJudged (IsOperand types.now) result (plain.pointer_call at t xs) }
{
    let shape = types.shape(ty);
    match pointee(shape) {
        Some(to) => function_call(types, at, true, to, arguments),
        None => Err(TypeFault::BadCall(at)),
    }
}

// A call of `printf`.
fn print_call(
    types: &mut Types<'_>,
    at: u32,
    format: Option<&[u8]>,
    arguments: &[Argument],
) -> Result<Judged<Operand>, AllocError>
    ensures judged { (xs : List plain.Operand) → AreArguments types.old arguments.now xs → IfOk result (λ j. IsJudged (IsOperand types.new) j (plain.call_operand at plain.Format (option_map (λ f. f.now) format.entry) xs)) }
    ensures grows { OnOk result (Grows (known types.old) (known types.new)) }
    ensures tags { OnOk result (types.new.tags ≡ types.old.tags) }
{
    let character = types.number(Shape::Char)?;
    let text = types.number(Shape::Pointer(character))?;
    let void = types.number(Shape::Void)?;
    let kept = is_print_form(types, text, format, arguments);
    Ok(one_rule(kept, TypeFault::BadCall(at), value_at(at, void)))
}

/// A call, with the format where its first argument is a string.
pub fn call(
    types: &mut Types<'_>,
    at: u32,
    callee: Callee,
    format: Option<&[u8]>,
    arguments: &[Argument],
) -> Result<Judged<Operand>, AllocError>
    requires { (c : plain.Callee) × IsCallee types.old callee c }
    ensures judged { (c : plain.Callee) (xs : List plain.Operand) → IsCallee types.old callee c → AreArguments types.old arguments.now xs → IfOk result (λ j. IsJudged (IsOperand types.new) j (plain.call_operand at c (option_map (λ f. f.now) format.entry) xs)) }
    ensures grows { OnOk result (Grows (known types.old) (known types.new)) }
    ensures tags { OnOk result (types.new.tags ≡ types.old.tags) }
{
    match callee {
        Callee::Direct(ty, defined) => Ok(function_call(types, at, defined, ty, arguments)),
        Callee::Through(ty) => Ok(pointer_call(types, at, ty, arguments)),
        Callee::Format => print_call(types, at, format, arguments),
    }
}
