// What types of expressions decide.

ghost use Rattle.std.specs.Prelude.{◌≡◌, [], IfOk, OnOk};
ghost use Rattle.c_syntax.specs.View.{expr_of};
ghost use Rattle.c_types.specs.Types.{CType, Tags, decayed};
ghost use Rattle.c_types.specs.Refusals as refusals;
ghost use Rattle.c_types.specs.Operands as plain;
ghost use Rattle.c_types.specs.Scope.{Scope};
ghost use Rattle.c_types.specs.Expressions.{judged};
ghost use Rattle.c_eval.specs.Environment as environment;
ghost use Rattle.c_eval.specs.Environment.{operand_type, word_in, pointee, type_in, value_type_in, constant_in};
ghost use Rattle.c_types.specs.Table.{HasType, IsType};
ghost use Rattle.c_operands.specs.Classes as classes;
ghost use Rattle.c_operands.specs.Seen.{IsOperand, IsJudged};
ghost use Rattle.c_types.specs.Seen.{Counts};
ghost use Rattle.c_forms.specs.Forms.{IsSomeOperand};
ghost use Rattle.c_declared.specs.Held.{Holds, HoldsSome};
ghost use Rattle.c_counted.specs.Numbers.{IsNumber};
ghost use Rattle.c_addressing.specs.Classes.{target_of, aim, AimsAt};
ghost use Rattle.c_addressing.specs.Here.{Emits};

use crate::here::{Here, Output};
use c_expressions::judge;
use c_offsets::member_words;
use c_operands::{Class, Judged, Operand, class_of};
use c_syntax::tree::Expr;
use c_types::{Constant, Shape, Types, Words};
use std::alloc::AllocError;

/// What an expression is.
pub fn judged(
    out: &mut Output<'_>,
    here: &Here<'_>,
    e: &Expr,
) -> Result<Judged<Operand>, AllocError>
    requires { HoldsSome out.old.types here.now.declared }
    ensures judged { (s : Scope) → Holds out.old.types here.now.declared s → IfOk result (λ j. IsJudged (IsOperand out.new.types) j (judged s (expr_of e.now))) }
    ensures still { OnOk result (Emits out.old out.new [] 0) }
{
    let j = judge(&mut out.types, &here.declared, e)?;
    Ok(j)
}

// The class of what was judged.
fn class_of_judged(types: &Types<'_>, j: Judged<Operand>) -> Class
    requires { IsSomeOperand types.now j }
    ensures { (p : refusals.Judged plain.Operand) → IsJudged (IsOperand types.now) j p → result ≡ classes.class_of (operand_type p) }
{
    match j {
        Ok(x) => class_of(types, x.ty),
        Err(_) => Class::Void,
    }
}

/// The class of an expression's type.
pub fn class_in(out: &mut Output<'_>, here: &Here<'_>, e: &Expr) -> Result<Class, AllocError>
    requires { HoldsSome out.old.types here.now.declared }
    ensures class { (s : Scope) → Holds out.old.types here.now.declared s → IfOk result (λ c. c ≡ classes.class_of (type_in s (expr_of e.now))) }
    ensures still { OnOk result (Emits out.old out.new [] 0) }
{
    let j = judged(out, here, e)?;
    Ok(class_of_judged(&out.types, j))
}

// The word of what was judged.
fn word_of_judged(j: Judged<Operand>) -> u32
    ensures { (table : _) (p : refusals.Judged plain.Operand) → IsJudged (IsOperand table) j p → result ≡ word_in p }
{
    match j {
        Ok(x) => match x.constant {
            Constant::NotConstant => 0,
            Constant::Undefined(_) => 0,
            Constant::Value(word) => word.get(),
        },
        Err(_) => 0,
    }
}

/// The word of a constant expression.
pub fn constant_in(out: &mut Output<'_>, here: &Here<'_>, e: &Expr) -> Result<u32, AllocError>
    requires { HoldsSome out.old.types here.now.declared }
    ensures word { (s : Scope) → Holds out.old.types here.now.declared s → IfOk result (λ n. n ≡ constant_in s (expr_of e.now)) }
    ensures still { OnOk result (Emits out.old out.new [] 0) }
{
    let j = judged(out, here, e)?;
    Ok(word_of_judged(j))
}

/// How many words of a struct stand before a member.
pub fn offset_in(
    out: &mut Output<'_>,
    here: &Here<'_>,
    a: &Expr,
    m: &[u8],
) -> Result<Words, AllocError>
    requires { HoldsSome out.old.types here.now.declared }
    ensures words { (s : Scope) → Holds out.old.types here.now.declared s → IfOk result (λ n. Counts n (environment.member_offset s.tags (type_in s (expr_of a.now)) m.now)) }
    ensures still { OnOk result (Emits out.old out.new [] 0) }
{
    let j = judged(out, here, a)?;
    match j {
        Ok(x) => Ok(member_words(&out.types, here.declared.layouts.as_slice(), x.ty, m)),
        Err(_) => Ok(Words::of(0)),
    }
}

// What a pointer of a shape points to; an array is used as a pointer to its first element.
fn aim(shape: Shape) -> Option<usize>
    ensures { result ≡ aim shape }
{
    match shape {
        Shape::Pointer(to) => Some(to),
        Shape::Array(of, _) => Some(of),
        _ => None,
    }
}

// The number of the type to which a value of a type points.
fn target_type(types: &Types<'_>, ty: usize) -> Option<usize>
    requires { IsType types.now ty }
    ensures { (t : CType) → HasType types.now ty t → AimsAt types.now result (decayed t) }
{
    aim(types.shape(ty))
}

// That of what was judged.
fn judged_target(types: &Types<'_>, j: Judged<Operand>) -> Option<usize>
    requires { IsSomeOperand types.now j }
    ensures { (p : refusals.Judged plain.Operand) → IsJudged (IsOperand types.now) j p → AimsAt types.now result (decayed (operand_type p)) }
{
    match j {
        Ok(x) => target_type(types, x.ty),
        Err(_) => None,
    }
}

/// The class of what an expression's value points to, if it is a pointer.
pub fn target_class(
    out: &mut Output<'_>,
    here: &Here<'_>,
    e: &Expr,
) -> Result<Option<Class>, AllocError>
    requires { HoldsSome out.old.types here.now.declared }
    ensures class { (s : Scope) → Holds out.old.types here.now.declared s → IfOk result (λ c. c ≡ target_of (value_type_in s (expr_of e.now))) }
    ensures still { OnOk result (Emits out.old out.new [] 0) }
{
    let j = judged(out, here, e)?;
    match judged_target(&out.types, j) {
        Some(ty) => Ok(Some(class_of(&out.types, ty))),
        None => Ok(None),
    }
}

/// How many words of the struct to which a value points stand before a member.
pub fn offset_behind(
    out: &mut Output<'_>,
    here: &Here<'_>,
    a: &Expr,
    m: &[u8],
) -> Result<Words, AllocError>
    requires { HoldsSome out.old.types here.now.declared }
    ensures words { (s : Scope) → Holds out.old.types here.now.declared s → IfOk result (λ n. Counts n (environment.member_offset s.tags (pointee (value_type_in s (expr_of a.now))) m.now)) }
    ensures still { OnOk result (Emits out.old out.new [] 0) }
{
    let j = judged(out, here, a)?;
    match judged_target(&out.types, j) {
        Some(ty) => Ok(member_words(&out.types, here.declared.layouts.as_slice(), ty, m)),
        None => Ok(Words::of(0)),
    }
}
