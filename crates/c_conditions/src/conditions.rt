// The expressions of statements, and the rules that their values keep.

ghost use Rattle.std.specs.Prelude.{◌≡◌, [], ◌∷◌, Some, IfOk, OnOk};
ghost use Rattle.std.specs.Result.{result_err};
ghost use Rattle.c_syntax.specs.View.{expr_of, maybe};
ghost use Rattle.c_types.specs.declared.fault.TypeFault.TheVariants.{Mismatch};
ghost use Rattle.c_types.specs.Types.{CType, is_arithmetic};
ghost use Rattle.c_types.specs.Refusals.{broken, after, keeping};
ghost use Rattle.c_types.specs.Scope.{Scope};
ghost use Rattle.c_types.specs.Operands as plain;
ghost use Rattle.c_types.specs.Operands.{value_type};
ghost use Rattle.c_types.specs.Expressions.{judged};
ghost use Rattle.c_types.specs.Statements.{condition_rules, test_rules, return_rules, maybe_judged};
ghost use Rattle.c_types.specs.Table.{known, HasType, IsType};
ghost use Rattle.c_types.specs.Known.{Grows};
ghost use Rattle.c_operands.specs.Seen.{IsOperand};
ghost use Rattle.c_operands.specs.Classes.{void};
ghost use Rattle.c_operands.specs.Scoped.{Fits, FitsSome};
ghost use Rattle.c_conditions.specs.Told.{IsTested};

use crate::verdicts::{Tested, broken};
use c_expressions::judge;
use c_operands::{Class, Declarations, Operand, class_of, converts, is_condition, value_of};
use c_syntax::tree::Expr;
use c_types::{TypeFault, Types};
use std::alloc::AllocError;

// Whether a class is that of no value.
fn is_void(class: Class) -> bool
    ensures { result ≡ void class }
{
    class == Class::Void
}

// The refusal of a value that is no condition.
fn condition_fault(types: &mut Types<'_>, a: Operand) -> Result<Option<TypeFault>, AllocError>
    requires { IsType types.old a.ty }
    ensures told { (x : plain.Operand) → IsOperand types.old a x → IfOk result (λ r. r ≡ broken (condition_rules x)) }
    ensures grows { OnOk result (Grows (known types.old) (known types.new)) }
    ensures tags { OnOk result (types.new.tags ≡ types.old.tags) }
{
    let value = value_of(types, a)?;
    let kept = is_condition(types, value);
    Ok(broken(kept, TypeFault::Mismatch(a.at)))
}

// The refusal of a value that is no number.
fn number_fault(types: &mut Types<'_>, a: Operand) -> Result<Option<TypeFault>, AllocError>
    requires { IsType types.old a.ty }
    ensures told { (x : plain.Operand) → IsOperand types.old a x → IfOk result (λ r. r ≡ broken ((is_arithmetic (value_type x), Mismatch x.pos) ∷ [])) }
    ensures grows { OnOk result (Grows (known types.old) (known types.new)) }
    ensures tags { OnOk result (types.new.tags ≡ types.old.tags) }
{
    let value = value_of(types, a)?;
    Ok(broken(value.class.is_number(), TypeFault::Mismatch(a.at)))
}

// The refusal, at a place, of a value that doesn't convert to a type.
fn result_fault(
    types: &mut Types<'_>,
    at: u32,
    a: Operand,
    ty: usize,
) -> Result<Option<TypeFault>, AllocError>
    requires value { IsType types.old a.ty }
    requires ty { IsType types.old ty }
    ensures told { (x : plain.Operand) (t : CType) → IsOperand types.old a x → HasType types.old ty t → IfOk result (λ r. r ≡ broken ((plain.converts x t, Mismatch at) ∷ [])) }
    ensures grows { OnOk result (Grows (known types.old) (known types.new)) }
    ensures tags { OnOk result (types.new.tags ≡ types.old.tags) }
{
    let value = value_of(types, a)?;
    let class = class_of(types, ty);
    let kept = converts(types, value, ty, class);
    Ok(broken(kept, TypeFault::Mismatch(at)))
}

/// A condition.
pub fn judge_condition(
    types: &mut Types<'_>,
    declared: &Declarations<'_>,
    e: &Expr,
) -> Result<Tested, AllocError>
    requires { FitsSome types.old declared.now }
    ensures judged { (s : Scope) → Fits types.old declared.now s → IfOk result (λ j. IsTested condition_rules j (judged s (expr_of e.now))) }
    ensures grows { OnOk result (Grows (known types.old) (known types.new)) }
    ensures tags { OnOk result (types.new.tags ≡ types.old.tags) }
{
    let value = judge(types, declared, e)?;
    match value {
        Ok(a) => {
            let own = condition_fault(types, a)?;
            Ok(Ok(own))
        }
        Err(fault) => Ok(Err(fault)),
    }
}

/// The value of a `switch`, which is a number.
pub fn judge_number(
    types: &mut Types<'_>,
    declared: &Declarations<'_>,
    e: &Expr,
) -> Result<Tested, AllocError>
    requires { FitsSome types.old declared.now }
    ensures judged { (s : Scope) → Fits types.old declared.now s → IfOk result (λ j. IsTested (λ a. (is_arithmetic (value_type a), Mismatch a.pos) ∷ []) j (judged s (expr_of e.now))) }
    ensures grows { OnOk result (Grows (known types.old) (known types.new)) }
    ensures tags { OnOk result (types.new.tags ≡ types.old.tags) }
{
    let value = judge(types, declared, e)?;
    match value {
        Ok(a) => {
            let own = number_fault(types, a)?;
            Ok(Ok(own))
        }
        Err(fault) => Ok(Err(fault)),
    }
}

/// The test of a `for`, which may be missing.
pub fn judge_test(
    types: &mut Types<'_>,
    declared: &Declarations<'_>,
    e: &Option<Expr>,
) -> Result<Tested, AllocError>
    requires { FitsSome types.old declared.now }
    ensures judged { (s : Scope) → Fits types.old declared.now s → IfOk result (λ j. IsTested test_rules j (maybe_judged s (maybe e.now))) }
    ensures grows { OnOk result (Grows (known types.old) (known types.new)) }
    ensures tags { OnOk result (types.new.tags ≡ types.old.tags) }
{
    match e {
        Some(e) => judge_condition(types, declared, e),
        None => Ok(Ok(None)),
    }
}

/// An expression whose value goes.
pub fn judge_effect(
    types: &mut Types<'_>,
    declared: &Declarations<'_>,
    e: &Expr,
) -> Result<Option<TypeFault>, AllocError>
    requires { FitsSome types.old declared.now }
    ensures judged { (s : Scope) → Fits types.old declared.now s → IfOk result (λ r. r ≡ result_err (judged s (expr_of e.now))) }
    ensures grows { OnOk result (Grows (known types.old) (known types.new)) }
    ensures tags { OnOk result (types.new.tags ≡ types.old.tags) }
{
    let value = judge(types, declared, e)?;
    Ok(value.err())
}

/// An expression whose value goes, which may be missing.
pub fn judge_step(
    types: &mut Types<'_>,
    declared: &Declarations<'_>,
    e: &Option<Expr>,
) -> Result<Option<TypeFault>, AllocError>
    requires { FitsSome types.old declared.now }
    ensures judged { (s : Scope) → Fits types.old declared.now s → IfOk result (λ r. r ≡ result_err (maybe_judged s (maybe e.now))) }
    ensures grows { OnOk result (Grows (known types.old) (known types.new)) }
    ensures tags { OnOk result (types.new.tags ≡ types.old.tags) }
{
    match e {
        Some(e) => judge_effect(types, declared, e),
        None => Ok(None),
    }
}

// A value that is given back.
fn judge_result(
    types: &mut Types<'_>,
    declared: &Declarations<'_>,
    at: u32,
    ty: usize,
    e: &Expr,
) -> Result<Option<TypeFault>, AllocError>
    requires fits { FitsSome types.old declared.now }
    requires ty { IsType types.old ty }
    ensures judged { (s : Scope) (t : CType) → Fits types.old declared.now s → HasType types.old ty t → IfOk result (λ r. r ≡ result_err (after (maybe_judged s (Some (expr_of e.now))) (λ a. keeping (return_rules at t a) s))) }
    ensures grows { OnOk result (Grows (known types.old) (known types.new)) }
    ensures tags { OnOk result (types.new.tags ≡ types.old.tags) }
{
    let value = judge(types, declared, e)?;
    match value {
        Ok(a) => result_fault(types, at, a, ty),
        Err(fault) => Ok(Some(fault)),
    }
}

/// A `return`, by the type of the function's result.
pub fn judge_return(
    types: &mut Types<'_>,
    declared: &Declarations<'_>,
    at: u32,
    ty: usize,
    e: &Option<Expr>,
) -> Result<Option<TypeFault>, AllocError>
    requires fits { FitsSome types.old declared.now }
    requires ty { IsType types.old ty }
    ensures judged { (s : Scope) (t : CType) → Fits types.old declared.now s → HasType types.old ty t → IfOk result (λ r. r ≡ result_err (after (maybe_judged s (maybe e.now)) (λ a. keeping (return_rules at t a) s))) }
    ensures grows { OnOk result (Grows (known types.old) (known types.new)) }
    ensures tags { OnOk result (types.new.tags ≡ types.old.tags) }
{
    match e {
        Some(e) => judge_result(types, declared, at, ty, e),
        None => {
            let kept = is_void(class_of(types, ty));
            Ok(broken(kept, TypeFault::Mismatch(at)))
        }
    }
}
