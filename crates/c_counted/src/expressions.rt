// How many jumps the code of an expression has.

ghost use Rattle.std.specs.Prelude.{◌+◌, if◌then◌else◌};
ghost use Rattle.c_syntax.specs.View.{expr_of, exprs_of, maybe};
ghost use Rattle.c_lowered.specs.Counts.{binary_jumps, binary_truth_jumps, unary_truth_jumps, expr_jumps, exprs_jumps, truth_jumps, maybe_jumps, maybe_truth_jumps, names_known};
ghost use Rattle.c_counted.specs.Numbers.{IsNumber};

use crate::names::names_known;
use crate::numbers::{next, plus};
use c_syntax::tree::{BinOp, Expr, Exprs, Form, UnOp};

/// Those of a value or a place.
#[cycle(jumps)]
pub fn jumps_of(e: &Expr) -> u32
    ensures { IsNumber result (expr_jumps (expr_of e.now)) }
{
    match &e.form {
        Form::Number(_value, _unsigned) => 0,
        Form::Str(_text) => 0,
        Form::Null => 0,
        Form::Name(_name) => 0,
        Form::Unary(_op, a) => jumps_of(a),
        Form::Step(_op, a) => jumps_of(a),
        Form::Binary(op, a, b) => binary_jumps_of(*op, a, b),
        Form::Assign(_op, a, b) => two(a, b),
        Form::Cond(a, b, c) => choice_jumps_of(a, b, c),
        Form::Comma(a, b) => two(a, b),
        Form::Cast(_t, a) => jumps_of(a),
        Form::SizeTy(_t) => 0,
        Form::SizeOf(_a) => 0,
        Form::Index(a, b) => two(a, b),
        Form::Call(f, es) => call_jumps_of(f, es),
        Form::Member(a, _m) => jumps_of(a),
        Form::Arrow(a, _m) => jumps_of(a),
    }
}

// Those of two values.
#[cycle(jumps)]
fn two(a: &Expr, b: &Expr) -> u32
    ensures { IsNumber result (expr_jumps (expr_of a.now) + expr_jumps (expr_of b.now)) }
{
    plus(jumps_of(a), jumps_of(b))
}

// Those of two conditions.
#[cycle(jumps)]
fn two_truths(a: &Expr, b: &Expr) -> u32
    ensures { IsNumber result (truth_jumps (expr_of a.now) + truth_jumps (expr_of b.now)) }
{
    plus(truth_jumps_of(a), truth_jumps_of(b))
}

// Those of a choice of two values.
#[cycle(jumps)]
fn choice_jumps_of(a: &Expr, b: &Expr, c: &Expr) -> u32
    ensures { IsNumber result (truth_jumps (expr_of a.now) + expr_jumps (expr_of b.now) + expr_jumps (expr_of c.now) + 2) }
{
    plus(plus(plus(truth_jumps_of(a), jumps_of(b)), jumps_of(c)), 2)
}

// Those of an operator on two sides.
#[cycle(jumps)]
fn binary_jumps_of(op: BinOp, a: &Expr, b: &Expr) -> u32
    ensures { IsNumber result (binary_jumps op (truth_jumps (expr_of a.now)) (truth_jumps (expr_of b.now)) (expr_jumps (expr_of a.now)) (expr_jumps (expr_of b.now))) }
{
    match op {
        BinOp::And => plus(two_truths(a, b), 2),
        BinOp::Or => plus(two_truths(a, b), 2),
        _ => two(a, b),
    }
}

// The own jump of a call, but for names that helper functions alone call.
fn own_jumps_of(f: &Expr) -> u32
    ensures { IsNumber result (if names_known (expr_of f.now) then 0 else 1) }
{
    if names_known(f) { 0 } else { 1 }
}

// Those of a call.
#[cycle(jumps)]
fn call_jumps_of(f: &Expr, es: &Exprs) -> u32
    ensures { IsNumber result (expr_jumps (expr_of f.now) + exprs_jumps (exprs_of es.now) + (if names_known (expr_of f.now) then 0 else 1)) }
{
    plus(plus(jumps_of(f), arguments_jumps_of(es)), own_jumps_of(f))
}

/// Those of a condition.
#[cycle(jumps)]
pub fn truth_jumps_of(e: &Expr) -> u32
    ensures { IsNumber result (truth_jumps (expr_of e.now)) }
{
    match &e.form {
        Form::Number(_value, _unsigned) => 1,
        Form::Str(_text) => 1,
        Form::Null => 1,
        Form::Name(_name) => 1,
        Form::Unary(op, a) => unary_truth_jumps_of(*op, a),
        Form::Step(_op, a) => next(jumps_of(a)),
        Form::Binary(op, a, b) => binary_truth_jumps_of(*op, a, b),
        Form::Assign(_op, a, b) => next(two(a, b)),
        Form::Cond(a, b, c) => next(choice_jumps_of(a, b, c)),
        Form::Comma(a, b) => next(two(a, b)),
        Form::Cast(_t, a) => next(jumps_of(a)),
        Form::SizeTy(_t) => 1,
        Form::SizeOf(_a) => 1,
        Form::Index(a, b) => next(two(a, b)),
        Form::Call(f, es) => next(call_jumps_of(f, es)),
        Form::Member(a, _m) => next(jumps_of(a)),
        Form::Arrow(a, _m) => next(jumps_of(a)),
    }
}

// Those of a condition with an operator on one side.
#[cycle(jumps)]
fn unary_truth_jumps_of(op: UnOp, a: &Expr) -> u32
    ensures { IsNumber result (unary_truth_jumps op (truth_jumps (expr_of a.now)) (expr_jumps (expr_of a.now))) }
{
    match op {
        UnOp::Not => truth_jumps_of(a),
        _ => next(jumps_of(a)),
    }
}

// Those of a condition with an operator on two sides.
#[cycle(jumps)]
fn binary_truth_jumps_of(op: BinOp, a: &Expr, b: &Expr) -> u32
    ensures { IsNumber result (binary_truth_jumps op (truth_jumps (expr_of a.now)) (truth_jumps (expr_of b.now)) (expr_jumps (expr_of a.now)) (expr_jumps (expr_of b.now))) }
{
    match op {
        BinOp::And => two_truths(a, b),
        BinOp::Or => two_truths(a, b),
        _ => next(two(a, b)),
    }
}

/// Those of arguments, one after the other.
#[cycle(jumps)]
pub fn arguments_jumps_of(es: &Exprs) -> u32
    ensures { IsNumber result (exprs_jumps (exprs_of es.now)) }
{
    let mut sum = 0;
    for e in &es.items {
        sum = plus(sum, jumps_of(e));
    }
    sum
}

/// Those of a value that may be missing.
pub fn maybe_jumps_of(e: &Option<Expr>) -> u32
    ensures { IsNumber result (maybe_jumps (maybe e.now)) }
{
    match e {
        Some(value) => jumps_of(value),
        None => 0,
    }
}

/// Those of a condition that may be missing.
pub fn maybe_truth_jumps_of(e: &Option<Expr>) -> u32
    ensures { IsNumber result (maybe_truth_jumps (maybe e.now)) }
{
    match e {
        Some(test) => truth_jumps_of(test),
        None => 0,
    }
}
