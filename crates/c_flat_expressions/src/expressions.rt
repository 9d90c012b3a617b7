// Code of expressions.

ghost use Rattle.std.specs.Prelude.{◌≡◌, ◌++◌, ◌∷◌, [], List, IfOk, OnOk};
ghost use Rattle.c_syntax.specs.Plain as tree;
ghost use Rattle.c_syntax.specs.View.{expr_of, exprs_of, ty_of};
ghost use Rattle.c_syntax.specs.declared.tree.UnOp.TheVariants as unary;
ghost use Rattle.c_syntax.specs.declared.tree.BinOp.TheVariants as binary;
ghost use Rattle.c_types.specs.Refusals as refusals;
ghost use Rattle.c_types.specs.Scope.{Scope};
ghost use Rattle.c_types.specs.Expressions.{judged, all_judged, callee_of};
ghost use Rattle.c_eval.specs.Environment.{Environment, callee_in};
ghost use Rattle.c_eval.specs.LiteralsIn.{literals_in};
ghost use Rattle.c_code.specs.Code as code;
ghost use Rattle.c_code.specs.Code.{Site, value_code, place_code};
ghost use Rattle.c_types.specs.Table.{known};
ghost use Rattle.c_types.specs.Known.{Grows};
ghost use Rattle.c_operands.specs.Seen.{IsOperand, IsJudged};
ghost use Rattle.c_operands.specs.Arguments.{IsCallee};
ghost use Rattle.c_operands.specs.Scoped.{Fits};
ghost use Rattle.c_declared.specs.Held.{HoldsSome};
ghost use Rattle.c_forms.specs.Forms.{two_operand};
ghost use Rattle.c_expressions.specs.Told.{AreGiven};
ghost use Rattle.c_emitted.specs.Emits.{Emits};
ghost use Rattle.c_here.specs.Here.{IsHere};
ghost use Rattle.c_fitting.specs.Fit.{IsFit, AreFit, IsPlace, IsAddressed};
ghost use Rattle.c_flat_expressions.specs.Parts.{operand_code, operation_code, pointer_code, given_code, given_literals, argument_code, argument_literals};

use crate::calls::{ending, is_printf_name, named_pointer};
use crate::leaves::size;
use c_aside::{both_sides, other_side};
use c_emitted::Emitter;
use c_expressions::{Collected, after_call, format_of, is_function_name, judge, name_in, written};
use c_forms::{One, Two, after_cast, after_one, after_three, after_two};
use c_here::{Here, named_value, one_behind, sides_behind};
use c_offsets::member_offset;
use c_operands::{Argument, Callee, Judged, Operand, called};
use c_pieces::{
    cast, converted, fetched, named_place, nowhere, operated, pointed_type, stepped, type_of, word,
};
use c_plain::{Instruction, Unary};
use c_syntax::tree::{BinOp, Expr, Exprs, Form, StepOp, Ty, UnOp};
use c_types::Types;
use std::alloc::AllocError;
use word24::Word;

// Code that leaves the value of an expression.
#[cycle(code)]
pub fn value<'t>(
    types: &mut Types<'_>,
    out: &mut Emitter<'t>,
    here: &Here<'_>,
    e: &'t Expr,
) -> Result<Judged<Operand>, AllocError>
    requires { HoldsSome types.old here.now.declared }
    ensures judged { (s : Scope) → Fits types.old here.now.declared s → IfOk result (λ j. IsJudged (IsOperand types.new) j (judged s (expr_of e.now))) }
    ensures emits { (site : Site) (env : Environment) → IsHere types.old here.now out.old site env → IsFit env.scope (expr_of e.now) → OnOk result (Emits out.old out.new (value_code (expr_of e.now) site env) (literals_in env.scope (expr_of e.now))) }
    ensures grows { OnOk result (Grows (known types.old) (known types.new)) }
    ensures tags { OnOk result (types.new.tags ≡ types.old.tags) }
{
    match &e.form {
        Form::Number(n, _unsigned) => {
            word(out, Word::wrap(u64::from(*n)))?;
            judge(types, &here.declared, e)
        }
        Form::Str(text) => {
            out.letter(text.as_bytes())?;
            judge(types, &here.declared, e)
        }
        Form::Null => {
            out.null()?;
            judge(types, &here.declared, e)
        }
        Form::Name(name) => {
            named_value(types, out, here, name.as_bytes())?;
            judge(types, &here.declared, e)
        }
        Form::Unary(op, a) => unary(types, out, here, e.pos, *op, a),
        Form::Step(op, a) => step(types, out, here, e.pos, *op, a),
        Form::Binary(op, a, b) => binary(types, out, here, e.pos, *op, a, b),
        Form::Assign(op, a, b) => assignment(types, out, here, e.pos, *op, a, b),
        Form::Cond(a, b, c) => choice(types, out, here, e.pos, a, b, c),
        Form::Comma(a, b) => comma(types, out, here, e.pos, a, b),
        Form::Cast(t, a) => cast_value(types, out, here, e.pos, t, a),
        Form::SizeTy(_t) => size(types, out, &here.declared, e),
        Form::SizeOf(_a) => size(types, out, &here.declared, e),
        Form::Index(a, b) => {
            let j = operation(types, out, here, e.pos, Two::Index, BinOp::Add, a, b)?;
            fetched(types, out, j)?;
            Ok(j)
        }
        Form::Call(f, arguments) => call(types, out, here, e.pos, f, arguments),
        Form::Member(a, m) => {
            let j = member(types, out, here, e.pos, a, m.as_bytes())?;
            fetched(types, out, j)?;
            Ok(j)
        }
        Form::Arrow(a, m) => {
            let j = arrow(types, out, here, e.pos, a, m.as_bytes())?;
            fetched(types, out, j)?;
            Ok(j)
        }
    }
}

/// Code that leaves the value of an expression to be used.
#[cycle(code)]
pub fn used<'t>(
    types: &mut Types<'_>,
    out: &mut Emitter<'t>,
    here: &Here<'_>,
    e: &'t Expr,
) -> Result<Judged<Operand>, AllocError>
    requires { HoldsSome types.old here.now.declared }
    ensures judged { (s : Scope) → Fits types.old here.now.declared s → IfOk result (λ j. IsJudged (IsOperand types.new) j (judged s (expr_of e.now))) }
    ensures emits { (site : Site) (env : Environment) → IsHere types.old here.now out.old site env → IsFit env.scope (expr_of e.now) → OnOk result (Emits out.old out.new (value_code (expr_of e.now) site env ++ code.Use ∷ []) (literals_in env.scope (expr_of e.now))) }
    ensures grows { OnOk result (Grows (known types.old) (known types.new)) }
    ensures tags { OnOk result (types.new.tags ≡ types.old.tags) }
{
    let j = value(types, out, here, e)?;
    out.add(Instruction::Unary(Unary::Use))?;
    Ok(j)
}

/// Code that leaves the pointer to the place that an expression is.
#[cycle(code)]
pub fn place<'t>(
    types: &mut Types<'_>,
    out: &mut Emitter<'t>,
    here: &Here<'_>,
    e: &'t Expr,
) -> Result<Judged<Operand>, AllocError>
    requires { HoldsSome types.old here.now.declared }
    ensures judged { (s : Scope) → Fits types.old here.now.declared s → IfOk result (λ j. IsJudged (IsOperand types.new) j (judged s (expr_of e.now))) }
    ensures emits { (site : Site) (env : Environment) → IsHere types.old here.now out.old site env → IsFit env.scope (expr_of e.now) → IsPlace (expr_of e.now) → OnOk result (Emits out.old out.new (place_code (expr_of e.now) site env) (literals_in env.scope (expr_of e.now))) }
    ensures grows { OnOk result (Grows (known types.old) (known types.new)) }
    ensures tags { OnOk result (types.new.tags ≡ types.old.tags) }
{
    match &e.form {
        Form::Str(text) => {
            out.letter(text.as_bytes())?;
            judge(types, &here.declared, e)
        }
        Form::Name(name) => {
            named_place(out, &here.slots, name.as_bytes())?;
            judge(types, &here.declared, e)
        }
        Form::Unary(op, a) => pointed(types, out, here, e.pos, *op, a),
        Form::Index(a, b) => operation(types, out, here, e.pos, Two::Index, BinOp::Add, a, b),
        Form::Member(a, m) => member(types, out, here, e.pos, a, m.as_bytes()),
        Form::Arrow(a, m) => arrow(types, out, here, e.pos, a, m.as_bytes()),
        _ => {
            nowhere(out)?;
            judge(types, &here.declared, e)
        }
    }
}

// The place to which a pointer points.
#[cycle(code)]
fn pointed<'t>(
    types: &mut Types<'_>,
    out: &mut Emitter<'t>,
    here: &Here<'_>,
    at: u32,
    op: UnOp,
    a: &'t Expr,
) -> Result<Judged<Operand>, AllocError>
    requires { HoldsSome types.old here.now.declared }
    ensures judged { (s : Scope) → Fits types.old here.now.declared s → IfOk result (λ j. IsJudged (IsOperand types.new) j (judged s (tree.Unary at op (expr_of a.now)))) }
    ensures emits { (site : Site) (env : Environment) → IsHere types.old here.now out.old site env → IsFit env.scope (tree.Unary at op (expr_of a.now)) → IsPlace (tree.Unary at op (expr_of a.now)) → OnOk result (Emits out.old out.new (place_code (tree.Unary at op (expr_of a.now)) site env) (literals_in env.scope (tree.Unary at op (expr_of a.now)))) }
    ensures grows { OnOk result (Grows (known types.old) (known types.new)) }
    ensures tags { OnOk result (types.new.tags ≡ types.old.tags) }
{
    let part = used(types, out, here, a)?;
    after_one(
        types,
        here.declared.layouts.as_slice(),
        at,
        One::Unary(op),
        part,
    )
}

// An operator on one side.
#[cycle(code)]
fn unary<'t>(
    types: &mut Types<'_>,
    out: &mut Emitter<'t>,
    here: &Here<'_>,
    at: u32,
    op: UnOp,
    a: &'t Expr,
) -> Result<Judged<Operand>, AllocError>
    requires { HoldsSome types.old here.now.declared }
    ensures judged { (s : Scope) → Fits types.old here.now.declared s → IfOk result (λ j. IsJudged (IsOperand types.new) j (judged s (tree.Unary at op (expr_of a.now)))) }
    ensures emits { (site : Site) (env : Environment) → IsHere types.old here.now out.old site env → IsFit env.scope (tree.Unary at op (expr_of a.now)) → OnOk result (Emits out.old out.new (value_code (tree.Unary at op (expr_of a.now)) site env) (literals_in env.scope (tree.Unary at op (expr_of a.now)))) }
    ensures grows { OnOk result (Grows (known types.old) (known types.new)) }
    ensures tags { OnOk result (types.new.tags ≡ types.old.tags) }
{
    let part = operand(types, out, here, op, a)?;
    one_behind(types, out, op, part)?;
    after_one(
        types,
        here.declared.layouts.as_slice(),
        at,
        One::Unary(op),
        part,
    )
}

// A step of a place.
#[cycle(code)]
fn step<'t>(
    types: &mut Types<'_>,
    out: &mut Emitter<'t>,
    here: &Here<'_>,
    at: u32,
    op: StepOp,
    a: &'t Expr,
) -> Result<Judged<Operand>, AllocError>
    requires { HoldsSome types.old here.now.declared }
    ensures judged { (s : Scope) → Fits types.old here.now.declared s → IfOk result (λ j. IsJudged (IsOperand types.new) j (judged s (tree.Step at op (expr_of a.now)))) }
    ensures emits { (site : Site) (env : Environment) → IsHere types.old here.now out.old site env → IsFit env.scope (tree.Step at op (expr_of a.now)) → OnOk result (Emits out.old out.new (value_code (tree.Step at op (expr_of a.now)) site env) (literals_in env.scope (tree.Step at op (expr_of a.now)))) }
    ensures grows { OnOk result (Grows (known types.old) (known types.new)) }
    ensures tags { OnOk result (types.new.tags ≡ types.old.tags) }
{
    let part = place(types, out, here, a)?;
    stepped(types, here.declared.layouts.as_slice(), out, op, part)?;
    after_one(types, here.declared.layouts.as_slice(), at, One::Step, part)
}

// An operator on two sides.
#[cycle(code)]
fn binary<'t>(
    types: &mut Types<'_>,
    out: &mut Emitter<'t>,
    here: &Here<'_>,
    at: u32,
    op: BinOp,
    a: &'t Expr,
    b: &'t Expr,
) -> Result<Judged<Operand>, AllocError>
    requires { HoldsSome types.old here.now.declared }
    ensures judged { (s : Scope) → Fits types.old here.now.declared s → IfOk result (λ j. IsJudged (IsOperand types.new) j (judged s (tree.Binary at op (expr_of a.now) (expr_of b.now)))) }
    ensures emits { (site : Site) (env : Environment) → IsHere types.old here.now out.old site env → IsFit env.scope (tree.Binary at op (expr_of a.now) (expr_of b.now)) → OnOk result (Emits out.old out.new (value_code (tree.Binary at op (expr_of a.now) (expr_of b.now)) site env) (literals_in env.scope (tree.Binary at op (expr_of a.now) (expr_of b.now)))) }
    ensures grows { OnOk result (Grows (known types.old) (known types.new)) }
    ensures tags { OnOk result (types.new.tags ≡ types.old.tags) }
{
    match op {
        BinOp::And => conjunction(types, out, here, at, a, b),
        BinOp::Or => disjunction(types, out, here, at, a, b),
        _ => operation(types, out, here, at, Two::Binary(op), op, a, b),
    }
}

// What an operator gives of the values of both sides, for an expression of a form.
#[cycle(code)]
fn operation<'t>(
    types: &mut Types<'_>,
    out: &mut Emitter<'t>,
    here: &Here<'_>,
    at: u32,
    form: Two,
    op: BinOp,
    a: &'t Expr,
    b: &'t Expr,
) -> Result<Judged<Operand>, AllocError>
    requires { HoldsSome types.old here.now.declared }
    ensures judged { (s : Scope) → Fits types.old here.now.declared s → IfOk result (λ j. IsJudged (IsOperand types.new) j (refusals.both (judged s (expr_of a.now)) (judged s (expr_of b.now)) (λ x y. two_operand s.tags at form x y))) }
    ensures emits { (site : Site) (env : Environment) → IsHere types.old here.now out.old site env → IsFit env.scope (tree.Binary at op (expr_of a.now) (expr_of b.now)) → OnOk result (Emits out.old out.new (operation_code op (expr_of a.now) (expr_of b.now) site env) (literals_in env.scope (expr_of a.now) ++ literals_in env.scope (expr_of b.now))) }
    ensures grows { OnOk result (Grows (known types.old) (known types.new)) }
    ensures tags { OnOk result (types.new.tags ≡ types.old.tags) }
{
    let first = used(types, out, here, a)?;
    let second = used(types, out, here, b)?;
    operated(
        types,
        here.declared.layouts.as_slice(),
        out,
        op,
        first,
        second,
    )?;
    after_two(
        types,
        here.declared.layouts.as_slice(),
        at,
        form,
        first,
        second,
    )
}

// `&&`: its right side is a value only where the left one tells it.
#[cycle(code)]
fn conjunction<'t>(
    types: &mut Types<'_>,
    out: &mut Emitter<'t>,
    here: &Here<'_>,
    at: u32,
    a: &'t Expr,
    b: &'t Expr,
) -> Result<Judged<Operand>, AllocError>
    requires { HoldsSome types.old here.now.declared }
    ensures judged { (s : Scope) → Fits types.old here.now.declared s → IfOk result (λ j. IsJudged (IsOperand types.new) j (judged s (tree.Binary at binary.And (expr_of a.now) (expr_of b.now)))) }
    ensures emits { (site : Site) (env : Environment) → IsHere types.old here.now out.old site env → IsFit env.scope (tree.Binary at binary.And (expr_of a.now) (expr_of b.now)) → OnOk result (Emits out.old out.new (value_code (tree.Binary at binary.And (expr_of a.now) (expr_of b.now)) site env) (literals_in env.scope (tree.Binary at binary.And (expr_of a.now) (expr_of b.now)))) }
    ensures grows { OnOk result (Grows (known types.old) (known types.new)) }
    ensures tags { OnOk result (types.new.tags ≡ types.old.tags) }
{
    let first = used(types, out, here, a)?;
    let test = out.reserve()?;
    let second = used(types, out, here, b)?;
    out.add(Instruction::Unary(Unary::Truth))?;
    let jump = other_side(out, test)?;
    out.add(Instruction::PushWord(Word::wrap(0)))?;
    both_sides(out, jump)?;
    after_two(
        types,
        here.declared.layouts.as_slice(),
        at,
        Two::Binary(BinOp::And),
        first,
        second,
    )
}

// `||`: its right side is a value only where the left one tells it.
#[cycle(code)]
fn disjunction<'t>(
    types: &mut Types<'_>,
    out: &mut Emitter<'t>,
    here: &Here<'_>,
    at: u32,
    a: &'t Expr,
    b: &'t Expr,
) -> Result<Judged<Operand>, AllocError>
    requires { HoldsSome types.old here.now.declared }
    ensures judged { (s : Scope) → Fits types.old here.now.declared s → IfOk result (λ j. IsJudged (IsOperand types.new) j (judged s (tree.Binary at binary.Or (expr_of a.now) (expr_of b.now)))) }
    ensures emits { (site : Site) (env : Environment) → IsHere types.old here.now out.old site env → IsFit env.scope (tree.Binary at binary.Or (expr_of a.now) (expr_of b.now)) → OnOk result (Emits out.old out.new (value_code (tree.Binary at binary.Or (expr_of a.now) (expr_of b.now)) site env) (literals_in env.scope (tree.Binary at binary.Or (expr_of a.now) (expr_of b.now)))) }
    ensures grows { OnOk result (Grows (known types.old) (known types.new)) }
    ensures tags { OnOk result (types.new.tags ≡ types.old.tags) }
{
    let first = used(types, out, here, a)?;
    let test = out.reserve()?;
    out.add(Instruction::PushWord(Word::wrap(1)))?;
    let jump = other_side(out, test)?;
    let second = used(types, out, here, b)?;
    out.add(Instruction::Unary(Unary::Truth))?;
    both_sides(out, jump)?;
    after_two(
        types,
        here.declared.layouts.as_slice(),
        at,
        Two::Binary(BinOp::Or),
        first,
        second,
    )
}

// An assignment, perhaps by an operator.
#[cycle(code)]
fn assignment<'t>(
    types: &mut Types<'_>,
    out: &mut Emitter<'t>,
    here: &Here<'_>,
    at: u32,
    op: Option<BinOp>,
    a: &'t Expr,
    b: &'t Expr,
) -> Result<Judged<Operand>, AllocError>
    requires { HoldsSome types.old here.now.declared }
    ensures judged { (s : Scope) → Fits types.old here.now.declared s → IfOk result (λ j. IsJudged (IsOperand types.new) j (judged s (tree.Assign at op (expr_of a.now) (expr_of b.now)))) }
    ensures emits { (site : Site) (env : Environment) → IsHere types.old here.now out.old site env → IsFit env.scope (tree.Assign at op (expr_of a.now) (expr_of b.now)) → OnOk result (Emits out.old out.new (value_code (tree.Assign at op (expr_of a.now) (expr_of b.now)) site env) (literals_in env.scope (tree.Assign at op (expr_of a.now) (expr_of b.now)))) }
    ensures grows { OnOk result (Grows (known types.old) (known types.new)) }
    ensures tags { OnOk result (types.new.tags ≡ types.old.tags) }
{
    let first = place(types, out, here, a)?;
    let second = used(types, out, here, b)?;
    sides_behind(
        types,
        here.declared.layouts.as_slice(),
        out,
        op,
        first,
        second,
    )?;
    after_two(
        types,
        here.declared.layouts.as_slice(),
        at,
        Two::Assign(op),
        first,
        second,
    )
}

// A choice of two.
#[cycle(code)]
fn choice<'t>(
    types: &mut Types<'_>,
    out: &mut Emitter<'t>,
    here: &Here<'_>,
    at: u32,
    a: &'t Expr,
    b: &'t Expr,
    c: &'t Expr,
) -> Result<Judged<Operand>, AllocError>
    requires { HoldsSome types.old here.now.declared }
    ensures judged { (s : Scope) → Fits types.old here.now.declared s → IfOk result (λ j. IsJudged (IsOperand types.new) j (judged s (tree.Cond at (expr_of a.now) (expr_of b.now) (expr_of c.now)))) }
    ensures emits { (site : Site) (env : Environment) → IsHere types.old here.now out.old site env → IsFit env.scope (tree.Cond at (expr_of a.now) (expr_of b.now) (expr_of c.now)) → OnOk result (Emits out.old out.new (value_code (tree.Cond at (expr_of a.now) (expr_of b.now) (expr_of c.now)) site env) (literals_in env.scope (tree.Cond at (expr_of a.now) (expr_of b.now) (expr_of c.now)))) }
    ensures grows { OnOk result (Grows (known types.old) (known types.new)) }
    ensures tags { OnOk result (types.new.tags ≡ types.old.tags) }
{
    let first = used(types, out, here, a)?;
    let test = out.reserve()?;
    let second = value(types, out, here, b)?;
    let jump = other_side(out, test)?;
    let third = value(types, out, here, c)?;
    both_sides(out, jump)?;
    let j = after_three(types, at, first, second, third)?;
    converted(types, out, j)?;
    Ok(j)
}

// An expression whose value is dropped, and another one.
#[cycle(code)]
fn comma<'t>(
    types: &mut Types<'_>,
    out: &mut Emitter<'t>,
    here: &Here<'_>,
    at: u32,
    a: &'t Expr,
    b: &'t Expr,
) -> Result<Judged<Operand>, AllocError>
    requires { HoldsSome types.old here.now.declared }
    ensures judged { (s : Scope) → Fits types.old here.now.declared s → IfOk result (λ j. IsJudged (IsOperand types.new) j (judged s (tree.Comma at (expr_of a.now) (expr_of b.now)))) }
    ensures emits { (site : Site) (env : Environment) → IsHere types.old here.now out.old site env → IsFit env.scope (tree.Comma at (expr_of a.now) (expr_of b.now)) → OnOk result (Emits out.old out.new (value_code (tree.Comma at (expr_of a.now) (expr_of b.now)) site env) (literals_in env.scope (tree.Comma at (expr_of a.now) (expr_of b.now)))) }
    ensures grows { OnOk result (Grows (known types.old) (known types.new)) }
    ensures tags { OnOk result (types.new.tags ≡ types.old.tags) }
{
    let first = value(types, out, here, a)?;
    out.add(Instruction::Pop)?;
    let second = value(types, out, here, b)?;
    after_two(
        types,
        here.declared.layouts.as_slice(),
        at,
        Two::Comma,
        first,
        second,
    )
}

// A cast.
#[cycle(code)]
fn cast_value<'t>(
    types: &mut Types<'_>,
    out: &mut Emitter<'t>,
    here: &Here<'_>,
    at: u32,
    t: &Ty,
    a: &'t Expr,
) -> Result<Judged<Operand>, AllocError>
    requires { HoldsSome types.old here.now.declared }
    ensures judged { (s : Scope) → Fits types.old here.now.declared s → IfOk result (λ j. IsJudged (IsOperand types.new) j (judged s (tree.Cast at (ty_of t.now) (expr_of a.now)))) }
    ensures emits { (site : Site) (env : Environment) → IsHere types.old here.now out.old site env → IsFit env.scope (tree.Cast at (ty_of t.now) (expr_of a.now)) → OnOk result (Emits out.old out.new (value_code (tree.Cast at (ty_of t.now) (expr_of a.now)) site env) (literals_in env.scope (tree.Cast at (ty_of t.now) (expr_of a.now)))) }
    ensures grows { OnOk result (Grows (known types.old) (known types.new)) }
    ensures tags { OnOk result (types.new.tags ≡ types.old.tags) }
{
    let ty = written(types, &here.declared, at, t)?;
    let part = value(types, out, here, a)?;
    let j = after_cast(types, at, ty, part)?;
    cast(types, out, j)?;
    Ok(j)
}

// The place of a member of a struct.
#[cycle(code)]
fn member<'t>(
    types: &mut Types<'_>,
    out: &mut Emitter<'t>,
    here: &Here<'_>,
    at: u32,
    a: &'t Expr,
    m: &'t [u8],
) -> Result<Judged<Operand>, AllocError>
    requires { HoldsSome types.old here.now.declared }
    ensures judged { (s : Scope) → Fits types.old here.now.declared s → IfOk result (λ j. IsJudged (IsOperand types.new) j (judged s (tree.Member at (expr_of a.now) m.now))) }
    ensures emits { (site : Site) (env : Environment) → IsHere types.old here.now out.old site env → IsFit env.scope (tree.Member at (expr_of a.now) m.now) → OnOk result (Emits out.old out.new (place_code (tree.Member at (expr_of a.now) m.now) site env) (literals_in env.scope (tree.Member at (expr_of a.now) m.now))) }
    ensures grows { OnOk result (Grows (known types.old) (known types.new)) }
    ensures tags { OnOk result (types.new.tags ≡ types.old.tags) }
{
    let part = place(types, out, here, a)?;
    let ty = type_of(types, part)?;
    let words = member_offset(types, here.declared.layouts.as_slice(), ty, m);
    out.add(Instruction::Unary(Unary::Member(words)))?;
    after_one(
        types,
        here.declared.layouts.as_slice(),
        at,
        One::Member(m),
        part,
    )
}

// The place of a member of the struct to which a pointer points.
#[cycle(code)]
fn arrow<'t>(
    types: &mut Types<'_>,
    out: &mut Emitter<'t>,
    here: &Here<'_>,
    at: u32,
    a: &'t Expr,
    m: &'t [u8],
) -> Result<Judged<Operand>, AllocError>
    requires { HoldsSome types.old here.now.declared }
    ensures judged { (s : Scope) → Fits types.old here.now.declared s → IfOk result (λ j. IsJudged (IsOperand types.new) j (judged s (tree.Arrow at (expr_of a.now) m.now))) }
    ensures emits { (site : Site) (env : Environment) → IsHere types.old here.now out.old site env → IsFit env.scope (tree.Arrow at (expr_of a.now) m.now) → OnOk result (Emits out.old out.new (place_code (tree.Arrow at (expr_of a.now) m.now) site env) (literals_in env.scope (tree.Arrow at (expr_of a.now) m.now))) }
    ensures grows { OnOk result (Grows (known types.old) (known types.new)) }
    ensures tags { OnOk result (types.new.tags ≡ types.old.tags) }
{
    let part = used(types, out, here, a)?;
    let to = pointed_type(types, part)?;
    let offset = member_offset(types, here.declared.layouts.as_slice(), to, m);
    out.add(Instruction::Unary(Unary::Member(offset)))?;
    after_one(
        types,
        here.declared.layouts.as_slice(),
        at,
        One::Arrow(m),
        part,
    )
}

// The operand of an operator on one side: the place of what is addressed, unless it is a function's name, or else a value.
#[cycle(code)]
fn operand<'t>(
    types: &mut Types<'_>,
    out: &mut Emitter<'t>,
    here: &Here<'_>,
    op: UnOp,
    a: &'t Expr,
) -> Result<Judged<Operand>, AllocError>
    requires { HoldsSome types.old here.now.declared }
    ensures judged { (s : Scope) → Fits types.old here.now.declared s → IfOk result (λ j. IsJudged (IsOperand types.new) j (judged s (expr_of a.now))) }
    ensures emits { (site : Site) (env : Environment) → IsHere types.old here.now out.old site env → IsFit env.scope (expr_of a.now) → IsAddressed env.scope op (expr_of a.now) → OnOk result (Emits out.old out.new (operand_code op (expr_of a.now) site env) (literals_in env.scope (expr_of a.now))) }
    ensures grows { OnOk result (Grows (known types.old) (known types.new)) }
    ensures tags { OnOk result (types.new.tags ≡ types.old.tags) }
{
    match op {
        UnOp::Address => addressed(types, out, here, a),
        _ => used(types, out, here, a),
    }
}

// What is addressed: a place, or the value of a function's name.
#[cycle(code)]
fn addressed<'t>(
    types: &mut Types<'_>,
    out: &mut Emitter<'t>,
    here: &Here<'_>,
    a: &'t Expr,
) -> Result<Judged<Operand>, AllocError>
    requires { HoldsSome types.old here.now.declared }
    ensures judged { (s : Scope) → Fits types.old here.now.declared s → IfOk result (λ j. IsJudged (IsOperand types.new) j (judged s (expr_of a.now))) }
    ensures emits { (site : Site) (env : Environment) → IsHere types.old here.now out.old site env → IsFit env.scope (expr_of a.now) → IsAddressed env.scope unary.Address (expr_of a.now) → OnOk result (Emits out.old out.new (operand_code unary.Address (expr_of a.now) site env) (literals_in env.scope (expr_of a.now))) }
    ensures grows { OnOk result (Grows (known types.old) (known types.new)) }
    ensures tags { OnOk result (types.new.tags ≡ types.old.tags) }
{
    if is_function_name(types, &here.declared, a) {
        used(types, out, here, a)
    } else {
        place(types, out, here, a)
    }
}

// What is called: a pointer's value, unless it is a function's name.
#[cycle(code)]
fn callee<'t>(
    types: &mut Types<'_>,
    out: &mut Emitter<'t>,
    here: &Here<'_>,
    at: u32,
    f: &'t Expr,
) -> Result<Judged<Callee>, AllocError>
    requires { HoldsSome types.old here.now.declared }
    ensures judged { (s : Scope) → Fits types.old here.now.declared s → IfOk result (λ j. IsJudged (IsCallee types.new) j (callee_of s at (expr_of f.now) (judged s (expr_of f.now)))) }
    ensures emits { (site : Site) (env : Environment) → IsHere types.old here.now out.old site env → IsFit env.scope (expr_of f.now) → OnOk result (Emits out.old out.new (pointer_code (callee_in env.scope (expr_of f.now)) (value_code (expr_of f.now) site env ++ code.Use ∷ [])) (literals_in env.scope (expr_of f.now))) }
    ensures grows { OnOk result (Grows (known types.old) (known types.new)) }
    ensures tags { OnOk result (types.new.tags ≡ types.old.tags) }
{
    match name_in(f) {
        Some(name) => {
            named_pointer(types, out, here, name)?;
            called(types, &here.declared, at, name)
        }
        None => {
            let value = used(types, out, here, f)?;
            c_expressions::through(types, value)
        }
    }
}

// An argument, whose code is left out where it is a format.
#[cycle(code)]
fn argument<'t>(
    types: &mut Types<'_>,
    out: &mut Emitter<'t>,
    here: &Here<'_>,
    e: &'t Expr,
    skips: bool,
) -> Result<Judged<Operand>, AllocError>
    requires { HoldsSome types.old here.now.declared }
    ensures judged { (s : Scope) → Fits types.old here.now.declared s → IfOk result (λ j. IsJudged (IsOperand types.new) j (judged s (expr_of e.now))) }
    ensures emits { (site : Site) (env : Environment) → IsHere types.old here.now out.old site env → IsFit env.scope (expr_of e.now) → OnOk result (Emits out.old out.new (argument_code skips (expr_of e.now) site env) (argument_literals skips env.scope (expr_of e.now))) }
    ensures grows { OnOk result (Grows (known types.old) (known types.new)) }
    ensures tags { OnOk result (types.new.tags ≡ types.old.tags) }
{
    if skips {
        judge(types, &here.declared, e)
    } else {
        used(types, out, here, e)
    }
}

// The values of a call's arguments, from left to right; where `printf` is called, not that of the first.
#[cycle(code)]
fn given<'t>(
    types: &mut Types<'_>,
    out: &mut Emitter<'t>,
    here: &Here<'_>,
    arguments: &'t Exprs,
    printed: bool,
) -> Result<Judged<Vec<Argument>>, AllocError>
    requires { HoldsSome types.old here.now.declared }
    ensures judged { (s : Scope) → Fits types.old here.now.declared s → IfOk result (λ j. IsJudged (AreGiven types.new) j (all_judged s (exprs_of arguments.now))) }
    ensures emits { (site : Site) (env : Environment) → IsHere types.old here.now out.old site env → AreFit env.scope (exprs_of arguments.now) → OnOk result (Emits out.old out.new (given_code printed (exprs_of arguments.now) site env) (given_literals printed env.scope (exprs_of arguments.now))) }
    ensures grows { OnOk result (Grows (known types.old) (known types.new)) }
    ensures tags { OnOk result (types.new.tags ≡ types.old.tags) }
{
    let mut collected = Collected::new(here.declared.alloc);
    let mut skips = printed;
    for e in &arguments.items {
        let j = argument(types, out, here, e, skips)?;
        collected.add(types, j)?;
        skips = false;
    }
    Ok(collected.judged())
}

// A call.
#[cycle(code)]
fn call<'t>(
    types: &mut Types<'_>,
    out: &mut Emitter<'t>,
    here: &Here<'_>,
    at: u32,
    f: &'t Expr,
    arguments: &'t Exprs,
) -> Result<Judged<Operand>, AllocError>
    requires { HoldsSome types.old here.now.declared }
    ensures judged { (s : Scope) → Fits types.old here.now.declared s → IfOk result (λ j. IsJudged (IsOperand types.new) j (judged s (tree.Call at (expr_of f.now) (exprs_of arguments.now)))) }
    ensures emits { (site : Site) (env : Environment) → IsHere types.old here.now out.old site env → IsFit env.scope (tree.Call at (expr_of f.now) (exprs_of arguments.now)) → OnOk result (Emits out.old out.new (value_code (tree.Call at (expr_of f.now) (exprs_of arguments.now)) site env) (literals_in env.scope (tree.Call at (expr_of f.now) (exprs_of arguments.now)))) }
    ensures grows { OnOk result (Grows (known types.old) (known types.new)) }
    ensures tags { OnOk result (types.new.tags ≡ types.old.tags) }
{
    let what = callee(types, out, here, at, f)?;
    let printed = is_printf_name(types, &here.declared, f);
    let all = given(types, out, here, arguments, printed)?;
    let j = after_call(types, at, what, format_of(arguments), all)?;
    ending(types, out, &here.declared, f, arguments, what)?;
    Ok(j)
}
