// Code of expressions: it begins in the block `k`, may use the frame from the word `d` on, and the block in which it
// ends is the answer.

ghost use Rattle.std.specs.Prelude.{◌≡◌, ℕ, suc, ◌+◌, ◌++◌, [], ◌∷◌, ◌||◌, length, false, true, Some, None, OnOk};
ghost use Rattle.eir_core.specs.declared.ops.Reg.TheVariants.{A};
ghost use Rattle.c_syntax.specs.Plain as tree;
ghost use Rattle.c_syntax.specs.View.{expr_of, exprs_of};
ghost use Rattle.c_types.specs.Scope.{Scope};
ghost use Rattle.c_eval.specs.Environment.{Environment, past, type_in, value_type_in, pointee, member_offset};
ghost use Rattle.c_eval.specs.Eval.{step_op};
ghost use Rattle.c_eval.specs.LiteralsIn.{literals_in, literals_in_all};
ghost use Rattle.c_declared.specs.Held.{HoldsSome};
ghost use Rattle.c_lowered.specs.Locations as plain;
ghost use Rattle.c_lowered.specs.Locations.{Linking};
ghost use Rattle.c_lowered.specs.Operations;
ghost use Rattle.c_lowered.specs.Operations.{truth_word};
ghost use Rattle.c_lowered.specs.Counts.{expr_jumps, truth_jumps, exprs_jumps, binary_jumps};
ghost use Rattle.c_lowered.specs.Expressions.{value_code, tested, unary_code, pointed_by, step_back, binary_code, assignment_code, assigned_code, updated_code, choice_code, argument_code};
ghost use Rattle.c_counted.specs.Numbers.{IsNumber};
ghost use Rattle.c_addressing.specs.Here.{IsHere};
ghost use Rattle.c_addressing.specs.Places.{IsLocation, IsDirect};
ghost use Rattle.c_applied.specs.Calls.{given_literals};
ghost use Rattle.c_applied.specs.Leads.{Keeps, literal_count};
ghost use Rattle.c_lower_expressions.specs.Adds.{Adds, AddsSides};
ghost use Rattle.c_lower_expressions.specs.Parts.{address_code, test_code, right_code, sides, second_side, stored_code, changed_code, given_code};

use c_addressing::{
    Here, Output, address_of, call as call_at, call_through, direct, is_quiet, is_steady, jump,
    jump_if_zero, known_place, load, located, moved_on, offset_behind, offset_in, operand_of,
    operation, point, ready, restore, save, store, sum, update_by, update_by_value,
};
use c_applied::{
    Called, after_value, aim, are_several, arguments_passed, callee_of, comparison_jump, fetch,
    is_format_name, junction_of, known_value, leaf, operator, pass, put_built_in, put_helper,
    put_known, put_truth, signed, stepped, takes_place, wait,
};
use c_counted::{jumps_of, next, plus, truth_jumps_of};
use c_emission::{Direct, Location, comparison_of};
use c_syntax::tree::{BinOp, Expr, Exprs, Form, StepOp, UnOp};
use eir_core::{Cond, Op, Operand, Reg};
use std::alloc::AllocError;

/// Two operands that stand ready, and the block behind their code.
#[derive(Clone, Copy)]
pub struct Sides {
    pub first: Reg,
    pub second: Operand,
    pub behind: u32,
}

// The address of the object of a name.
fn named_place(
    out: &mut Output<'_>,
    here: &Here<'_>,
    name: &[u8],
    k: u32,
) -> Result<u32, AllocError>
    ensures code { (at : ℕ) (d : ℕ) → Adds here.now out.old out.new k d result (address_code (tree.Var at name.now)) (λ s. 0) 0 }
    ensures keeps { OnOk result (Keeps out.old out.new) }
{
    load(out, Reg::A, address_of(located(here, name)))?;
    Ok(k)
}

// Whether a value that needs no evaluation may be read behind an expression.
fn may_turn(first: Direct, b: &Expr) -> bool
    ensures { (x : plain.Direct) → IsDirect first x → result ≡ (plain.is_quiet (expr_of b.now) || plain.is_steady x) }
{
    is_quiet(b) || is_steady(first)
}

/// Code that leaves the value of an expression in A.
#[cycle(code)]
pub fn value(
    out: &mut Output<'_>,
    here: &Here<'_>,
    e: &Expr,
    k: u32,
    d: u32,
) -> Result<u32, AllocError>
    requires { HoldsSome out.old.types here.now.declared }
    ensures code { Adds here.now out.old out.new k d result (value_code (expr_of e.now)) (λ s. literal_count s (expr_of e.now)) (expr_jumps (expr_of e.now)) }
    ensures keeps { OnOk result (Keeps out.old out.new) }
{
    match &e.form {
        Form::Number(_value, _unsigned) => leaf(out, here, e, k),
        Form::Str(_text) => leaf(out, here, e, k),
        Form::Null => leaf(out, here, e, k),
        Form::Name(_name) => leaf(out, here, e, k),
        Form::SizeTy(_t) => leaf(out, here, e, k),
        Form::SizeOf(_a) => leaf(out, here, e, k),
        Form::Unary(op, a) => unary(out, here, e, *op, a, k, d),
        Form::Step(op, a) => step(out, here, *op, a, k, d),
        Form::Binary(op, a, b) => binary(out, here, *op, a, b, k, d),
        Form::Assign(op, a, b) => assignment(out, here, *op, a, b, k, d),
        Form::Cond(a, b, c) => choice(out, here, a, b, c, k, d),
        Form::Comma(a, b) => comma(out, here, a, b, k, d),
        Form::Cast(_t, a) => value(out, here, a, k, d),
        Form::Index(a, b) => indexed(out, here, e, a, b, k, d),
        Form::Call(f, es) => call(out, here, f, es, k, d),
        Form::Member(a, m) => member(out, here, e, a, m.as_bytes(), k, d),
        Form::Arrow(a, m) => pointed_member(out, here, e, a, m.as_bytes(), k, d),
    }
}

/// Code that leaves the address of the place that an expression is in A.
#[cycle(code)]
pub fn place(
    out: &mut Output<'_>,
    here: &Here<'_>,
    e: &Expr,
    k: u32,
    d: u32,
) -> Result<u32, AllocError>
    requires { HoldsSome out.old.types here.now.declared }
    ensures code { Adds here.now out.old out.new k d result (address_code (expr_of e.now)) (λ s. literal_count s (expr_of e.now)) (expr_jumps (expr_of e.now)) }
    ensures keeps { OnOk result (Keeps out.old out.new) }
{
    match &e.form {
        Form::Name(name) => named_place(out, here, name.as_bytes(), k),
        Form::Unary(_op, a) => value(out, here, a, k, d),
        Form::Index(a, b) => element(out, here, a, b, k, d),
        Form::Member(a, m) => member_place(out, here, a, m.as_bytes(), k, d),
        Form::Arrow(a, m) => member_behind(out, here, a, m.as_bytes(), k, d),
        Form::Number(_value, _unsigned) => value(out, here, e, k, d),
        Form::Str(_text) => value(out, here, e, k, d),
        Form::Null => value(out, here, e, k, d),
        Form::Step(_op, _a) => value(out, here, e, k, d),
        Form::Binary(_op, _a, _b) => value(out, here, e, k, d),
        Form::Assign(_op, _a, _b) => value(out, here, e, k, d),
        Form::Cond(_a, _b, _c) => value(out, here, e, k, d),
        Form::Comma(_a, _b) => value(out, here, e, k, d),
        Form::Cast(_t, _a) => value(out, here, e, k, d),
        Form::SizeTy(_t) => value(out, here, e, k, d),
        Form::SizeOf(_a) => value(out, here, e, k, d),
        Form::Call(_f, _es) => value(out, here, e, k, d),
    }
}

/// Code that jumps to a block where the truth of an expression is `holds`, and ends at a block.
#[cycle(code)]
pub fn truth(
    out: &mut Output<'_>,
    here: &Here<'_>,
    e: &Expr,
    holds: bool,
    target: u32,
    k: u32,
    d: u32,
) -> Result<u32, AllocError>
    requires { HoldsSome out.old.types here.now.declared }
    ensures code { (t : ℕ) → IsNumber target t → Adds here.now out.old out.new k d result (λ w env m n. test_code (expr_of e.now) w env m n holds t) (λ s. literal_count s (expr_of e.now)) (truth_jumps (expr_of e.now)) }
    ensures keeps { OnOk result (Keeps out.old out.new) }
{
    match &e.form {
        Form::Unary(op, a) => unary_truth(out, here, e, *op, a, holds, target, k, d),
        Form::Binary(op, a, b) => binary_truth(out, here, e, *op, a, b, holds, target, k, d),
        Form::Number(_value, _unsigned) => tested(out, here, e, holds, target, k, d),
        Form::Str(_text) => tested(out, here, e, holds, target, k, d),
        Form::Null => tested(out, here, e, holds, target, k, d),
        Form::Name(_name) => tested(out, here, e, holds, target, k, d),
        Form::Step(_op, _a) => tested(out, here, e, holds, target, k, d),
        Form::Assign(_op, _a, _b) => tested(out, here, e, holds, target, k, d),
        Form::Cond(_a, _b, _c) => tested(out, here, e, holds, target, k, d),
        Form::Comma(_a, _b) => tested(out, here, e, holds, target, k, d),
        Form::Cast(_t, _a) => tested(out, here, e, holds, target, k, d),
        Form::SizeTy(_t) => tested(out, here, e, holds, target, k, d),
        Form::SizeOf(_a) => tested(out, here, e, holds, target, k, d),
        Form::Index(_a, _b) => tested(out, here, e, holds, target, k, d),
        Form::Call(_f, _es) => tested(out, here, e, holds, target, k, d),
        Form::Member(_a, _m) => tested(out, here, e, holds, target, k, d),
        Form::Arrow(_a, _m) => tested(out, here, e, holds, target, k, d),
    }
}

// A value is compared with 0.
#[cycle(code)]
fn tested(
    out: &mut Output<'_>,
    here: &Here<'_>,
    e: &Expr,
    holds: bool,
    target: u32,
    k: u32,
    d: u32,
) -> Result<u32, AllocError>
    requires { HoldsSome out.old.types here.now.declared }
    ensures code { (t : ℕ) → IsNumber target t → Adds here.now out.old out.new k d result (λ w env m n. tested holds t (value_code (expr_of e.now) w env m n)) (λ s. literal_count s (expr_of e.now)) (expr_jumps (expr_of e.now) + 1) }
    ensures keeps { OnOk result (Keeps out.old out.new) }
{
    let behind = value(out, here, e, k, d)?;
    jump_if_zero(out, !holds, target)?;
    Ok(next(behind))
}

// An operator on one side.
#[cycle(code)]
fn unary(
    out: &mut Output<'_>,
    here: &Here<'_>,
    e: &Expr,
    op: UnOp,
    a: &Expr,
    k: u32,
    d: u32,
) -> Result<u32, AllocError>
    requires { HoldsSome out.old.types here.now.declared }
    ensures code { (at : ℕ) → (expr_of e.now) ≡ tree.Unary at op (expr_of a.now) → Adds here.now out.old out.new k d result (value_code (expr_of e.now)) (λ s. literal_count s (expr_of e.now)) (expr_jumps (expr_of e.now)) }
    ensures keeps { OnOk result (Keeps out.old out.new) }
{
    let known = known_value(out, here, e, k)?;
    match known {
        Some(behind) => Ok(behind),
        None => operated(out, here, op, a, k, d),
    }
}

// An operator on one side, whose value needs evaluation.
#[cycle(code)]
fn operated(
    out: &mut Output<'_>,
    here: &Here<'_>,
    op: UnOp,
    a: &Expr,
    k: u32,
    d: u32,
) -> Result<u32, AllocError>
    requires { HoldsSome out.old.types here.now.declared }
    ensures code { Adds here.now out.old out.new k d result (λ w env m n. unary_code op (value_type_in env.scope (expr_of a.now)) (value_code (expr_of a.now) w env m n) (address_code (expr_of a.now) w env m n)) (λ s. literal_count s (expr_of a.now)) (expr_jumps (expr_of a.now)) }
    ensures keeps { OnOk result (Keeps out.old out.new) }
{
    if takes_place(op) {
        return place(out, here, a, k, d);
    }
    let behind = value(out, here, a, k, d)?;
    after_value(out, here, op, a)?;
    Ok(behind)
}

// A condition with an operator on one side.
#[cycle(code)]
fn unary_truth(
    out: &mut Output<'_>,
    here: &Here<'_>,
    e: &Expr,
    op: UnOp,
    a: &Expr,
    holds: bool,
    target: u32,
    k: u32,
    d: u32,
) -> Result<u32, AllocError>
    requires { HoldsSome out.old.types here.now.declared }
    ensures code { (at : ℕ) → (expr_of e.now) ≡ tree.Unary at op (expr_of a.now) → (t : ℕ) → IsNumber target t → Adds here.now out.old out.new k d result (λ w env m n. test_code (expr_of e.now) w env m n holds t) (λ s. literal_count s (expr_of e.now)) (truth_jumps (expr_of e.now)) }
    ensures keeps { OnOk result (Keeps out.old out.new) }
{
    match op {
        UnOp::Not => truth(out, here, a, !holds, target, k, d),
        UnOp::Minus => tested(out, here, e, holds, target, k, d),
        UnOp::Plus => tested(out, here, e, holds, target, k, d),
        UnOp::Invert => tested(out, here, e, holds, target, k, d),
        UnOp::Deref => tested(out, here, e, holds, target, k, d),
        UnOp::Address => tested(out, here, e, holds, target, k, d),
    }
}

/// A step of a place.
#[cycle(code)]
pub fn step(
    out: &mut Output<'_>,
    here: &Here<'_>,
    op: StepOp,
    a: &Expr,
    k: u32,
    d: u32,
) -> Result<u32, AllocError>
    requires { HoldsSome out.old.types here.now.declared }
    ensures code { Adds here.now out.old out.new k d result (λ w env m n. pointed_by (plain.known_place (expr_of a.now) w env) (address_code (expr_of a.now) w env m n) ++ (Operations.update_by (step_op op) (plain.Exactly 1) ++ step_back op)) (λ s. literal_count s (expr_of a.now)) (expr_jumps (expr_of a.now)) }
    ensures keeps { OnOk result (Keeps out.old out.new) }
{
    let behind = pointed(out, here, a, k, d)?;
    stepped(out, op)?;
    Ok(behind)
}

// The address of a place comes into C.
#[cycle(code)]
fn pointed(
    out: &mut Output<'_>,
    here: &Here<'_>,
    a: &Expr,
    k: u32,
    d: u32,
) -> Result<u32, AllocError>
    requires { HoldsSome out.old.types here.now.declared }
    ensures code { Adds here.now out.old out.new k d result (λ w env m n. pointed_by (plain.known_place (expr_of a.now) w env) (address_code (expr_of a.now) w env m n)) (λ s. literal_count s (expr_of a.now)) (expr_jumps (expr_of a.now)) }
    ensures keeps { OnOk result (Keeps out.old out.new) }
{
    let known = known_place(out, here, a)?;
    match known {
        Some(spot) => {
            pass(out, spot.literals);
            point(out, spot.place)?;
            Ok(plus(k, jumps_of(a)))
        }
        None => {
            let behind = place(out, here, a, k, d)?;
            operation(out, Op::Mov(Reg::C, Operand::Reg(Reg::A)))?;
            Ok(behind)
        }
    }
}

// An operator on two sides.
#[cycle(code)]
fn binary(
    out: &mut Output<'_>,
    here: &Here<'_>,
    op: BinOp,
    a: &Expr,
    b: &Expr,
    k: u32,
    d: u32,
) -> Result<u32, AllocError>
    requires { HoldsSome out.old.types here.now.declared }
    ensures code { Adds here.now out.old out.new k d result (λ w env m n. binary_code op (Operations.is_signed op (value_type_in env.scope (expr_of a.now)) (value_type_in env.scope (expr_of b.now))) m (truth_jumps (expr_of a.now)) (truth_jumps (expr_of b.now)) (λ holds target. test_code (expr_of a.now) w env m n holds target) (λ holds target. test_code (expr_of b.now) w (past (expr_of a.now) env) (m + truth_jumps (expr_of a.now)) n holds target) (sides (expr_of a.now) (expr_of b.now) w env m n)) (λ s. length (literals_in s (expr_of a.now) ++ literals_in s (expr_of b.now))) (binary_jumps op (truth_jumps (expr_of a.now)) (truth_jumps (expr_of b.now)) (expr_jumps (expr_of a.now)) (expr_jumps (expr_of b.now))) }
    ensures keeps { OnOk result (Keeps out.old out.new) }
{
    match junction_of(op) {
        Some(decides) => truth_value(out, here, decides, a, b, k, d),
        None => operation_value(out, here, op, a, b, k, d),
    }
}

// The value of `&&` or `||`.
#[cycle(code)]
fn truth_value(
    out: &mut Output<'_>,
    here: &Here<'_>,
    decides: bool,
    a: &Expr,
    b: &Expr,
    k: u32,
    d: u32,
) -> Result<u32, AllocError>
    requires { HoldsSome out.old.types here.now.declared }
    ensures code { Adds here.now out.old out.new k d result (λ w env m n. truth_word m (truth_jumps (expr_of a.now) + truth_jumps (expr_of b.now)) (λ target. Operations.junction decides false target (m + truth_jumps (expr_of a.now) + truth_jumps (expr_of b.now)) (λ holds target. test_code (expr_of a.now) w env m n holds target) (λ holds target. test_code (expr_of b.now) w (past (expr_of a.now) env) (m + truth_jumps (expr_of a.now)) n holds target))) (λ s. length (literals_in s (expr_of a.now) ++ literals_in s (expr_of b.now))) (truth_jumps (expr_of a.now) + truth_jumps (expr_of b.now) + 2) }
    ensures keeps { OnOk result (Keeps out.old out.new) }
{
    let end = plus(k, plus(truth_jumps_of(a), truth_jumps_of(b)));
    let over = next(next(end));
    junction(out, here, decides, a, b, false, next(end), k, d)?;
    put_truth(out, over)?;
    Ok(over)
}

// `&&` or `||` as a condition: the left side decides where its truth is this.
#[cycle(code)]
fn junction(
    out: &mut Output<'_>,
    here: &Here<'_>,
    decides: bool,
    a: &Expr,
    b: &Expr,
    holds: bool,
    target: u32,
    k: u32,
    d: u32,
) -> Result<u32, AllocError>
    requires { HoldsSome out.old.types here.now.declared }
    ensures code { (t : ℕ) → IsNumber target t → Adds here.now out.old out.new k d result (λ w env m n. Operations.junction decides holds t (m + truth_jumps (expr_of a.now) + truth_jumps (expr_of b.now)) (λ holds target. test_code (expr_of a.now) w env m n holds target) (λ holds target. test_code (expr_of b.now) w (past (expr_of a.now) env) (m + truth_jumps (expr_of a.now)) n holds target)) (λ s. length (literals_in s (expr_of a.now) ++ literals_in s (expr_of b.now))) (truth_jumps (expr_of a.now) + truth_jumps (expr_of b.now)) }
    ensures keeps { OnOk result (Keeps out.old out.new) }
{
    let end = plus(k, plus(truth_jumps_of(a), truth_jumps_of(b)));
    let between = truth(
        out,
        here,
        a,
        decides,
        aim(decides, holds, target, end),
        k,
        d,
    )?;
    let behind = truth(out, here, b, holds, target, between, d)?;
    Ok(behind)
}

// An operator on two values.
#[cycle(code)]
fn operation_value(
    out: &mut Output<'_>,
    here: &Here<'_>,
    op: BinOp,
    a: &Expr,
    b: &Expr,
    k: u32,
    d: u32,
) -> Result<u32, AllocError>
    requires { HoldsSome out.old.types here.now.declared }
    ensures code { Adds here.now out.old out.new k d result (λ w env m n. Operations.operator_code op (Operations.is_signed op (value_type_in env.scope (expr_of a.now)) (value_type_in env.scope (expr_of b.now))) (sides (expr_of a.now) (expr_of b.now) w env m n)) (λ s. length (literals_in s (expr_of a.now) ++ literals_in s (expr_of b.now))) (expr_jumps (expr_of a.now) + expr_jumps (expr_of b.now)) }
    ensures keeps { OnOk result (Keeps out.old out.new) }
{
    let orders = signed(out, here, op, a, b)?;
    let both = operands(out, here, a, b, k, d)?;
    operator(out, op, orders, both.first, both.second)?;
    Ok(both.behind)
}

// A condition with an operator on two sides.
#[cycle(code)]
fn binary_truth(
    out: &mut Output<'_>,
    here: &Here<'_>,
    e: &Expr,
    op: BinOp,
    a: &Expr,
    b: &Expr,
    holds: bool,
    target: u32,
    k: u32,
    d: u32,
) -> Result<u32, AllocError>
    requires { HoldsSome out.old.types here.now.declared }
    ensures code { (at : ℕ) → (expr_of e.now) ≡ tree.Binary at op (expr_of a.now) (expr_of b.now) → (t : ℕ) → IsNumber target t → Adds here.now out.old out.new k d result (λ w env m n. test_code (expr_of e.now) w env m n holds t) (λ s. literal_count s (expr_of e.now)) (truth_jumps (expr_of e.now)) }
    ensures keeps { OnOk result (Keeps out.old out.new) }
{
    match junction_of(op) {
        Some(decides) => junction(out, here, decides, a, b, holds, target, k, d),
        None => match comparison_of(op) {
            Some(test) => comparison(out, here, op, test, a, b, holds, target, k, d),
            None => tested(out, here, e, holds, target, k, d),
        },
    }
}

// A comparison as a condition.
#[cycle(code)]
fn comparison(
    out: &mut Output<'_>,
    here: &Here<'_>,
    op: BinOp,
    test: Cond,
    a: &Expr,
    b: &Expr,
    holds: bool,
    target: u32,
    k: u32,
    d: u32,
) -> Result<u32, AllocError>
    requires { HoldsSome out.old.types here.now.declared }
    ensures code { (t : ℕ) → IsNumber target t → Adds here.now out.old out.new k d result (λ w env m n. Operations.jump_where holds t test (Operations.comparable (Operations.is_signed op (value_type_in env.scope (expr_of a.now)) (value_type_in env.scope (expr_of b.now))) (sides (expr_of a.now) (expr_of b.now) w env m n))) (λ s. length (literals_in s (expr_of a.now) ++ literals_in s (expr_of b.now))) (expr_jumps (expr_of a.now) + expr_jumps (expr_of b.now) + 1) }
    ensures keeps { OnOk result (Keeps out.old out.new) }
{
    let orders = signed(out, here, op, a, b)?;
    let both = operands(out, here, a, b, k, d)?;
    comparison_jump(out, orders, holds, target, test, both.first, both.second)?;
    Ok(next(both.behind))
}

// Both sides of an operator as operands. What needs no evaluation is read behind the other side, where that changes nothing.
#[cycle(code)]
fn operands(
    out: &mut Output<'_>,
    here: &Here<'_>,
    a: &Expr,
    b: &Expr,
    k: u32,
    d: u32,
) -> Result<Sides, AllocError>
    requires { HoldsSome out.old.types here.now.declared }
    ensures code { AddsSides here.now out.old out.new k d result (sides (expr_of a.now) (expr_of b.now)) (λ s. length (literals_in s (expr_of a.now) ++ literals_in s (expr_of b.now))) (expr_jumps (expr_of a.now) + expr_jumps (expr_of b.now)) }
    ensures keeps { OnOk result (Keeps out.old out.new) }
{
    let known = direct(out, here, a)?;
    match known {
        Some(first) => {
            pass(out, first.literals);
            known_first(out, here, first.value, b, plus(k, jumps_of(a)), d)
        }
        None => {
            let between = value(out, here, a, k, d)?;
            let both = second(out, here, b, between, d)?;
            Ok(both)
        }
    }
}

// The second operand behind the first, which is in A.
#[cycle(code)]
fn second(
    out: &mut Output<'_>,
    here: &Here<'_>,
    b: &Expr,
    k: u32,
    d: u32,
) -> Result<Sides, AllocError>
    requires { HoldsSome out.old.types here.now.declared }
    ensures code { AddsSides here.now out.old out.new k d result (λ w env m n. second_side n (plain.direct (expr_of b.now) w env) [] (λ d. value_code (expr_of b.now) w env m d)) (λ s. literal_count s (expr_of b.now)) (expr_jumps (expr_of b.now)) }
    ensures keeps { OnOk result (Keeps out.old out.new) }
{
    let known = direct(out, here, b)?;
    match known {
        Some(right) => {
            pass(out, right.literals);
            ready(out, right.value)?;
            Ok(Sides {
                first: Reg::A,
                second: operand_of(right.value),
                behind: plus(k, jumps_of(b)),
            })
        }
        None => waiting(out, here, b, k, d),
    }
}

// The second operand, while the first, which is in A, waits in the frame.
#[cycle(code)]
fn waiting(
    out: &mut Output<'_>,
    here: &Here<'_>,
    b: &Expr,
    k: u32,
    d: u32,
) -> Result<Sides, AllocError>
    requires { HoldsSome out.old.types here.now.declared }
    ensures code { AddsSides here.now out.old out.new k d result (λ w env m n. Operations.waiting n [] (value_code (expr_of b.now) w env m (suc n))) (λ s. literal_count s (expr_of b.now)) (expr_jumps (expr_of b.now)) }
    ensures keeps { OnOk result (Keeps out.old out.new) }
{
    save(out, d)?;
    let behind = value(out, here, b, k, next(d))?;
    restore(out, Reg::B, d)?;
    Ok(Sides {
        first: Reg::B,
        second: Operand::Reg(Reg::A),
        behind,
    })
}

// Both operands, of which the first needs no evaluation.
#[cycle(code)]
fn known_first(
    out: &mut Output<'_>,
    here: &Here<'_>,
    first: Direct,
    b: &Expr,
    k: u32,
    d: u32,
) -> Result<Sides, AllocError>
    requires { HoldsSome out.old.types here.now.declared }
    ensures code { (x : plain.Direct) → IsDirect first x → AddsSides here.now out.old out.new k d result (λ w env m n. Operations.operands n (plain.is_quiet (expr_of b.now)) (Some x) (plain.direct (expr_of b.now) w env) (Operations.load_to A x) (λ d. value_code (expr_of b.now) w env m d)) (λ s. literal_count s (expr_of b.now)) (expr_jumps (expr_of b.now)) }
    ensures keeps { OnOk result (Keeps out.old out.new) }
{
    let known = direct(out, here, b)?;
    match known {
        Some(right) => {
            load(out, Reg::A, first)?;
            pass(out, right.literals);
            ready(out, right.value)?;
            Ok(Sides {
                first: Reg::A,
                second: operand_of(right.value),
                behind: plus(k, jumps_of(b)),
            })
        }
        None => evaluated_second(out, here, first, b, k, d),
    }
}

// Both operands, of which the first alone needs no evaluation.
#[cycle(code)]
fn evaluated_second(
    out: &mut Output<'_>,
    here: &Here<'_>,
    first: Direct,
    b: &Expr,
    k: u32,
    d: u32,
) -> Result<Sides, AllocError>
    requires { HoldsSome out.old.types here.now.declared }
    ensures code { (x : plain.Direct) → IsDirect first x → AddsSides here.now out.old out.new k d result (λ w env m n. Operations.operands n (plain.is_quiet (expr_of b.now)) (Some x) None (Operations.load_to A x) (λ d. value_code (expr_of b.now) w env m d)) (λ s. literal_count s (expr_of b.now)) (expr_jumps (expr_of b.now)) }
    ensures keeps { OnOk result (Keeps out.old out.new) }
{
    if may_turn(first, b) {
        let behind = value(out, here, b, k, d)?;
        load(out, Reg::B, first)?;
        return Ok(Sides {
            first: Reg::B,
            second: Operand::Reg(Reg::A),
            behind,
        });
    }
    load(out, Reg::A, first)?;
    let both = waiting(out, here, b, k, d)?;
    Ok(both)
}

// An assignment, perhaps by an operator.
#[cycle(code)]
fn assignment(
    out: &mut Output<'_>,
    here: &Here<'_>,
    op: Option<BinOp>,
    a: &Expr,
    b: &Expr,
    k: u32,
    d: u32,
) -> Result<u32, AllocError>
    requires { HoldsSome out.old.types here.now.declared }
    ensures code { Adds here.now out.old out.new k d result (λ w env m n. assignment_code op n (plain.known_place (expr_of a.now) w env) (plain.direct (expr_of b.now) w (past (expr_of a.now) env)) (address_code (expr_of a.now) w env m n) (right_code (expr_of a.now) (expr_of b.now) w env m)) (λ s. length (literals_in s (expr_of a.now) ++ literals_in s (expr_of b.now))) (expr_jumps (expr_of a.now) + expr_jumps (expr_of b.now)) }
    ensures keeps { OnOk result (Keeps out.old out.new) }
{
    match op {
        None => assigned(out, here, a, b, k, d),
        Some(by) => updated(out, here, by, a, b, k, d),
    }
}

// An assignment.
#[cycle(code)]
fn assigned(
    out: &mut Output<'_>,
    here: &Here<'_>,
    a: &Expr,
    b: &Expr,
    k: u32,
    d: u32,
) -> Result<u32, AllocError>
    requires { HoldsSome out.old.types here.now.declared }
    ensures code { Adds here.now out.old out.new k d result (λ w env m n. assigned_code n (plain.known_place (expr_of a.now) w env) (plain.direct (expr_of b.now) w (past (expr_of a.now) env)) (address_code (expr_of a.now) w env m n) (right_code (expr_of a.now) (expr_of b.now) w env m)) (λ s. length (literals_in s (expr_of a.now) ++ literals_in s (expr_of b.now))) (expr_jumps (expr_of a.now) + expr_jumps (expr_of b.now)) }
    ensures keeps { OnOk result (Keeps out.old out.new) }
{
    let known = known_place(out, here, a)?;
    match known {
        Some(spot) => {
            pass(out, spot.literals);
            let behind = value(out, here, b, plus(k, jumps_of(a)), d)?;
            store(out, spot.place)?;
            Ok(behind)
        }
        None => {
            let between = place(out, here, a, k, d)?;
            let behind = stored(out, here, b, between, d)?;
            Ok(behind)
        }
    }
}

// A value goes to the address in A.
#[cycle(code)]
fn stored(
    out: &mut Output<'_>,
    here: &Here<'_>,
    b: &Expr,
    k: u32,
    d: u32,
) -> Result<u32, AllocError>
    requires { HoldsSome out.old.types here.now.declared }
    ensures code { Adds here.now out.old out.new k d result (λ w env m n. stored_code n (plain.direct (expr_of b.now) w env) (λ d. value_code (expr_of b.now) w env m d)) (λ s. literal_count s (expr_of b.now)) (expr_jumps (expr_of b.now)) }
    ensures keeps { OnOk result (Keeps out.old out.new) }
{
    let known = direct(out, here, b)?;
    match known {
        Some(right) => {
            operation(out, Op::Mov(Reg::B, Operand::Reg(Reg::A)))?;
            put_known(out, Reg::A, right)?;
            operation(out, Op::Store(Reg::A, Operand::Reg(Reg::B)))?;
            Ok(plus(k, jumps_of(b)))
        }
        None => {
            save(out, d)?;
            let behind = value(out, here, b, k, next(d))?;
            restore(out, Reg::B, d)?;
            operation(out, Op::Store(Reg::A, Operand::Reg(Reg::B)))?;
            Ok(behind)
        }
    }
}

// An assignment by an operator.
#[cycle(code)]
fn updated(
    out: &mut Output<'_>,
    here: &Here<'_>,
    op: BinOp,
    a: &Expr,
    b: &Expr,
    k: u32,
    d: u32,
) -> Result<u32, AllocError>
    requires { HoldsSome out.old.types here.now.declared }
    ensures code { Adds here.now out.old out.new k d result (λ w env m n. updated_code op n (plain.known_place (expr_of a.now) w env) (plain.direct (expr_of b.now) w (past (expr_of a.now) env)) (address_code (expr_of a.now) w env m n) (right_code (expr_of a.now) (expr_of b.now) w env m)) (λ s. length (literals_in s (expr_of a.now) ++ literals_in s (expr_of b.now))) (expr_jumps (expr_of a.now) + expr_jumps (expr_of b.now)) }
    ensures keeps { OnOk result (Keeps out.old out.new) }
{
    let known = known_place(out, here, a)?;
    match known {
        Some(spot) => {
            pass(out, spot.literals);
            updated_spot(out, here, op, spot.place, b, plus(k, jumps_of(a)), d)
        }
        None => {
            let between = place(out, here, a, k, d)?;
            let behind = changed(out, here, op, b, between, d)?;
            Ok(behind)
        }
    }
}

// The word at a known place is updated.
#[cycle(code)]
fn updated_spot(
    out: &mut Output<'_>,
    here: &Here<'_>,
    op: BinOp,
    spot: Location,
    b: &Expr,
    k: u32,
    d: u32,
) -> Result<u32, AllocError>
    requires { HoldsSome out.old.types here.now.declared }
    ensures code { (l : plain.Location) → IsLocation spot l → Adds here.now out.old out.new k d result (λ w env m n. updated_code op n (Some l) (plain.direct (expr_of b.now) w env) [] (λ d. value_code (expr_of b.now) w env m d)) (λ s. literal_count s (expr_of b.now)) (expr_jumps (expr_of b.now)) }
    ensures keeps { OnOk result (Keeps out.old out.new) }
{
    let known = direct(out, here, b)?;
    match known {
        Some(right) => {
            point(out, spot)?;
            pass(out, right.literals);
            update_by(out, op, right.value)?;
            Ok(plus(k, jumps_of(b)))
        }
        None => {
            let behind = value(out, here, b, k, d)?;
            point(out, spot)?;
            update_by_value(out, op)?;
            Ok(behind)
        }
    }
}

// The word at the address in A is updated.
#[cycle(code)]
fn changed(
    out: &mut Output<'_>,
    here: &Here<'_>,
    op: BinOp,
    b: &Expr,
    k: u32,
    d: u32,
) -> Result<u32, AllocError>
    requires { HoldsSome out.old.types here.now.declared }
    ensures code { Adds here.now out.old out.new k d result (λ w env m n. changed_code op n (plain.direct (expr_of b.now) w env) (λ d. value_code (expr_of b.now) w env m d)) (λ s. literal_count s (expr_of b.now)) (expr_jumps (expr_of b.now)) }
    ensures keeps { OnOk result (Keeps out.old out.new) }
{
    let known = direct(out, here, b)?;
    match known {
        Some(right) => {
            operation(out, Op::Mov(Reg::C, Operand::Reg(Reg::A)))?;
            pass(out, right.literals);
            update_by(out, op, right.value)?;
            Ok(plus(k, jumps_of(b)))
        }
        None => {
            save(out, d)?;
            let behind = value(out, here, b, k, next(d))?;
            restore(out, Reg::C, d)?;
            update_by_value(out, op)?;
            Ok(behind)
        }
    }
}

// A choice of two values.
#[cycle(code)]
fn choice(
    out: &mut Output<'_>,
    here: &Here<'_>,
    a: &Expr,
    b: &Expr,
    c: &Expr,
    k: u32,
    d: u32,
) -> Result<u32, AllocError>
    requires { HoldsSome out.old.types here.now.declared }
    ensures code { Adds here.now out.old out.new k d result (λ w env m n. choice_code m (truth_jumps (expr_of a.now)) (expr_jumps (expr_of b.now)) (expr_jumps (expr_of c.now)) (λ target. test_code (expr_of a.now) w env m n false target) (value_code (expr_of b.now) w (past (expr_of a.now) env) (m + truth_jumps (expr_of a.now)) n) (value_code (expr_of c.now) w (past (expr_of b.now) (past (expr_of a.now) env)) (m + truth_jumps (expr_of a.now) + expr_jumps (expr_of b.now) + 1) n)) (λ s. length (literals_in s (expr_of a.now) ++ (literals_in s (expr_of b.now) ++ literals_in s (expr_of c.now)))) (truth_jumps (expr_of a.now) + expr_jumps (expr_of b.now) + expr_jumps (expr_of c.now) + 2) }
    ensures keeps { OnOk result (Keeps out.old out.new) }
{
    let other = next(plus(plus(k, truth_jumps_of(a)), jumps_of(b)));
    let end = next(plus(other, jumps_of(c)));
    let first = truth(out, here, a, false, other, k, d)?;
    value(out, here, b, first, d)?;
    jump(out, end)?;
    value(out, here, c, other, d)?;
    jump(out, end)?;
    Ok(end)
}

// Two values, of which the first isn't used.
#[cycle(code)]
fn comma(
    out: &mut Output<'_>,
    here: &Here<'_>,
    a: &Expr,
    b: &Expr,
    k: u32,
    d: u32,
) -> Result<u32, AllocError>
    requires { HoldsSome out.old.types here.now.declared }
    ensures code { Adds here.now out.old out.new k d result (λ w env m n. value_code (expr_of a.now) w env m n ++ right_code (expr_of a.now) (expr_of b.now) w env m n) (λ s. length (literals_in s (expr_of a.now) ++ literals_in s (expr_of b.now))) (expr_jumps (expr_of a.now) + expr_jumps (expr_of b.now)) }
    ensures keeps { OnOk result (Keeps out.old out.new) }
{
    let between = value(out, here, a, k, d)?;
    let behind = value(out, here, b, between, d)?;
    Ok(behind)
}

// The place of an element.
#[cycle(code)]
fn element(
    out: &mut Output<'_>,
    here: &Here<'_>,
    a: &Expr,
    b: &Expr,
    k: u32,
    d: u32,
) -> Result<u32, AllocError>
    requires { HoldsSome out.old.types here.now.declared }
    ensures code { Adds here.now out.old out.new k d result (λ w env m n. Operations.sum_code (sides (expr_of a.now) (expr_of b.now) w env m n)) (λ s. length (literals_in s (expr_of a.now) ++ literals_in s (expr_of b.now))) (expr_jumps (expr_of a.now) + expr_jumps (expr_of b.now)) }
    ensures keeps { OnOk result (Keeps out.old out.new) }
{
    let both = operands(out, here, a, b, k, d)?;
    sum(out, both.first, both.second)?;
    Ok(both.behind)
}

// The value of an element.
#[cycle(code)]
fn indexed(
    out: &mut Output<'_>,
    here: &Here<'_>,
    e: &Expr,
    a: &Expr,
    b: &Expr,
    k: u32,
    d: u32,
) -> Result<u32, AllocError>
    requires { HoldsSome out.old.types here.now.declared }
    ensures code { Adds here.now out.old out.new k d result (λ w env m n. Operations.sum_code (sides (expr_of a.now) (expr_of b.now) w env m n) ++ Operations.fetched (type_in env.scope (expr_of e.now))) (λ s. length (literals_in s (expr_of a.now) ++ literals_in s (expr_of b.now))) (expr_jumps (expr_of a.now) + expr_jumps (expr_of b.now)) }
    ensures keeps { OnOk result (Keeps out.old out.new) }
{
    let behind = element(out, here, a, b, k, d)?;
    fetch(out, here, e)?;
    Ok(behind)
}

// The place of a member of a place.
#[cycle(code)]
fn member_place(
    out: &mut Output<'_>,
    here: &Here<'_>,
    a: &Expr,
    name: &[u8],
    k: u32,
    d: u32,
) -> Result<u32, AllocError>
    requires { HoldsSome out.old.types here.now.declared }
    ensures code { Adds here.now out.old out.new k d result (λ w env m n. address_code (expr_of a.now) w env m n ++ Operations.moved_on (member_offset env.scope.tags (type_in env.scope (expr_of a.now)) name.now)) (λ s. literal_count s (expr_of a.now)) (expr_jumps (expr_of a.now)) }
    ensures keeps { OnOk result (Keeps out.old out.new) }
{
    let behind = place(out, here, a, k, d)?;
    let words = offset_in(out, here, a, name)?;
    moved_on(out, words)?;
    Ok(behind)
}

// The place of a member of the struct to which a value points.
#[cycle(code)]
fn member_behind(
    out: &mut Output<'_>,
    here: &Here<'_>,
    a: &Expr,
    name: &[u8],
    k: u32,
    d: u32,
) -> Result<u32, AllocError>
    requires { HoldsSome out.old.types here.now.declared }
    ensures code { Adds here.now out.old out.new k d result (λ w env m n. value_code (expr_of a.now) w env m n ++ Operations.moved_on (member_offset env.scope.tags (pointee (value_type_in env.scope (expr_of a.now))) name.now)) (λ s. literal_count s (expr_of a.now)) (expr_jumps (expr_of a.now)) }
    ensures keeps { OnOk result (Keeps out.old out.new) }
{
    let behind = value(out, here, a, k, d)?;
    let words = offset_behind(out, here, a, name)?;
    moved_on(out, words)?;
    Ok(behind)
}

// A member of a struct.
#[cycle(code)]
fn member(
    out: &mut Output<'_>,
    here: &Here<'_>,
    e: &Expr,
    a: &Expr,
    name: &[u8],
    k: u32,
    d: u32,
) -> Result<u32, AllocError>
    requires { HoldsSome out.old.types here.now.declared }
    ensures code { (at : ℕ) → (expr_of e.now) ≡ tree.Member at (expr_of a.now) name.now → Adds here.now out.old out.new k d result (λ w env m n. Operations.direct_or (plain.direct (expr_of e.now) w env) (address_code (expr_of a.now) w env m n ++ (Operations.moved_on (member_offset env.scope.tags (type_in env.scope (expr_of a.now)) name.now) ++ Operations.fetched (type_in env.scope (expr_of e.now))))) (λ s. literal_count s (expr_of e.now)) (expr_jumps (expr_of e.now)) }
    ensures keeps { OnOk result (Keeps out.old out.new) }
{
    let known = known_value(out, here, e, k)?;
    match known {
        Some(behind) => Ok(behind),
        None => {
            let behind = member_place(out, here, a, name, k, d)?;
            fetch(out, here, e)?;
            Ok(behind)
        }
    }
}

// A member of the struct to which a value points.
#[cycle(code)]
fn pointed_member(
    out: &mut Output<'_>,
    here: &Here<'_>,
    e: &Expr,
    a: &Expr,
    name: &[u8],
    k: u32,
    d: u32,
) -> Result<u32, AllocError>
    requires { HoldsSome out.old.types here.now.declared }
    ensures code { Adds here.now out.old out.new k d result (λ w env m n. value_code (expr_of a.now) w env m n ++ (Operations.moved_on (member_offset env.scope.tags (pointee (value_type_in env.scope (expr_of a.now))) name.now) ++ Operations.fetched (type_in env.scope (expr_of e.now)))) (λ s. literal_count s (expr_of a.now)) (expr_jumps (expr_of a.now)) }
    ensures keeps { OnOk result (Keeps out.old out.new) }
{
    let behind = member_behind(out, here, a, name, k, d)?;
    fetch(out, here, e)?;
    Ok(behind)
}

// Arguments in the frame's words from one on, each of which waits there if it is to.
#[cycle(code)]
fn arguments(
    out: &mut Output<'_>,
    here: &Here<'_>,
    es: &Exprs,
    waits: bool,
    k: u32,
    d: u32,
) -> Result<u32, AllocError>
    requires { HoldsSome out.old.types here.now.declared }
    ensures code { Adds here.now out.old out.new k d result (given_code waits (exprs_of es.now)) (λ s. length (literals_in_all s (exprs_of es.now))) (exprs_jumps (exprs_of es.now)) }
    ensures keeps { OnOk result (Keeps out.old out.new) }
{
    let mut block = k;
    let mut word = d;
    for e in &es.items {
        block = value(out, here, e, block, word)?;
        wait(out, waits, word)?;
        word = next(word);
    }
    Ok(block)
}

// The one argument of a function, in A; more of them wait in the frame.
#[cycle(code)]
fn argument(
    out: &mut Output<'_>,
    here: &Here<'_>,
    es: &Exprs,
    k: u32,
    d: u32,
) -> Result<u32, AllocError>
    requires { HoldsSome out.old.types here.now.declared }
    ensures code { Adds here.now out.old out.new k d result (argument_code (exprs_of es.now)) (λ s. length (literals_in_all s (exprs_of es.now))) (exprs_jumps (exprs_of es.now)) }
    ensures keeps { OnOk result (Keeps out.old out.new) }
{
    let waits = are_several(es);
    let behind = arguments(out, here, es, waits, k, d)?;
    if waits {
        restore(out, Reg::A, d)?;
        return Ok(behind);
    }
    Ok(behind)
}

// The same, where the first argument may be a format, whose literals are no objects.
#[cycle(code)]
fn given(
    out: &mut Output<'_>,
    here: &Here<'_>,
    es: &Exprs,
    printed: bool,
    k: u32,
    d: u32,
) -> Result<u32, AllocError>
    requires { HoldsSome out.old.types here.now.declared }
    ensures code { Adds here.now out.old out.new k d result (argument_code (exprs_of es.now)) (λ s. length (given_literals printed s (exprs_of es.now))) (exprs_jumps (exprs_of es.now)) }
    ensures keeps { OnOk result (Keeps out.old out.new) }
{
    let passed = arguments_passed(here, es, printed, out.literals);
    let behind = argument(out, here, es, k, d)?;
    pass(out, passed);
    Ok(behind)
}

// A call.
#[cycle(code)]
fn call(
    out: &mut Output<'_>,
    here: &Here<'_>,
    f: &Expr,
    es: &Exprs,
    k: u32,
    d: u32,
) -> Result<u32, AllocError>
    requires { HoldsSome out.old.types here.now.declared }
    ensures code { Adds here.now out.old out.new k d result (value_code (tree.Call 0 (expr_of f.now) (exprs_of es.now))) (λ s. literal_count s (tree.Call 0 (expr_of f.now) (exprs_of es.now))) (expr_jumps (tree.Call 0 (expr_of f.now) (exprs_of es.now))) }
    ensures keeps { OnOk result (Keeps out.old out.new) }
{
    let printed = is_format_name(here, f);
    match callee_of(here, f) {
        Called::Helper(name) => {
            let behind = given(out, here, es, printed, k, d)?;
            put_helper(out, name)?;
            Ok(behind)
        }
        Called::Routine(entry) => {
            let behind = arguments(out, here, es, true, k, next(d))?;
            call_at(out, d, next(behind), entry)?;
            Ok(next(behind))
        }
        Called::BuiltIn(name) => {
            let behind = given(out, here, es, printed, k, d)?;
            put_built_in(out, name)?;
            jump(out, next(behind))?;
            Ok(next(behind))
        }
        Called::Format => {
            let behind = given(out, here, es, printed, k, d)?;
            jump(out, next(behind))?;
            Ok(next(behind))
        }
        Called::Through => through(out, here, f, es, k, d),
    }
}

// A call through the value of an expression.
#[cycle(code)]
fn through(
    out: &mut Output<'_>,
    here: &Here<'_>,
    f: &Expr,
    es: &Exprs,
    k: u32,
    d: u32,
) -> Result<u32, AllocError>
    requires { HoldsSome out.old.types here.now.declared }
    ensures code { Adds here.now out.old out.new k d result (λ w env m n. value_code (expr_of f.now) w env m n ++ (Operations.save n ++ (given_code true (exprs_of es.now) w (past (expr_of f.now) env) (m + expr_jumps (expr_of f.now)) (suc n) ++ Operations.call_through_at n (m + expr_jumps (expr_of f.now) + exprs_jumps (exprs_of es.now) + 1)))) (λ s. length (literals_in s (expr_of f.now) ++ literals_in_all s (exprs_of es.now))) (expr_jumps (expr_of f.now) + exprs_jumps (exprs_of es.now) + 1) }
    ensures keeps { OnOk result (Keeps out.old out.new) }
{
    let between = value(out, here, f, k, d)?;
    save(out, d)?;
    let behind = arguments(out, here, es, true, between, next(d))?;
    call_through(out, d, next(behind))?;
    Ok(next(behind))
}
