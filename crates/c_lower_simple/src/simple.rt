// Parts of statements that are expressions. Code begins in the block `k`, may use the frame from the word `d` on, and the
// block in which it ends is the answer.

ghost use Rattle.std.specs.Prelude.{◌≡◌, ℕ, ◌+◌, length, OnOk};
ghost use Rattle.c_syntax.specs.View.{expr_of, maybe};
ghost use Rattle.c_eval.specs.LiteralsIn.{maybe_literals};
ghost use Rattle.c_declared.specs.Held.{HoldsSome};
ghost use Rattle.c_lowered.specs.Counts.{expr_jumps, truth_jumps, maybe_jumps, maybe_truth_jumps};
ghost use Rattle.c_lowered.specs.Expressions.{effect_code, unless_code, where_code};
ghost use Rattle.c_lowered.specs.Statements.{maybe_effect_code, maybe_unless_code, returned_code, jump_to};
ghost use Rattle.c_counted.specs.Numbers.{IsNumber};
ghost use Rattle.c_applied.specs.Leads.{Keeps, literal_count};
ghost use Rattle.c_lower_expressions.specs.Adds.{Adds};
ghost use Rattle.c_lower_simple.specs.Unused.{updating};

use c_addressing::{Here, Output, jump, returned};
use c_counted::next;
use c_lower_expressions::{step, truth, value};
use c_syntax::tree::{Expr, Form, StepOp};
use std::alloc::AllocError;

/// Code that jumps to a block where a condition is false, and ends at a block.
pub fn unless(
    out: &mut Output<'_>,
    here: &Here<'_>,
    e: &Expr,
    target: u32,
    k: u32,
    d: u32,
) -> Result<u32, AllocError>
    requires { HoldsSome out.old.types here.now.declared }
    ensures code { (t : ℕ) → IsNumber target t → Adds here.now out.old out.new k d result (λ w env m n. unless_code (expr_of e.now) w env m n t) (λ s. literal_count s (expr_of e.now)) (truth_jumps (expr_of e.now)) }
    ensures keeps { OnOk result (Keeps out.old out.new) }
{
    truth(out, here, e, false, target, k, d)
}

/// Code that jumps to a block where a condition is true, and ends at a block.
pub fn where_true(
    out: &mut Output<'_>,
    here: &Here<'_>,
    e: &Expr,
    target: u32,
    k: u32,
    d: u32,
) -> Result<u32, AllocError>
    requires { HoldsSome out.old.types here.now.declared }
    ensures code { (t : ℕ) → IsNumber target t → Adds here.now out.old out.new k d result (λ w env m n. where_code (expr_of e.now) w env m n t) (λ s. literal_count s (expr_of e.now)) (truth_jumps (expr_of e.now)) }
    ensures keeps { OnOk result (Keeps out.old out.new) }
{
    truth(out, here, e, true, target, k, d)
}

/// Code of a condition that may be missing, which is true then.
pub fn maybe_unless(
    out: &mut Output<'_>,
    here: &Here<'_>,
    e: &Option<Expr>,
    target: u32,
    k: u32,
    d: u32,
) -> Result<u32, AllocError>
    requires { HoldsSome out.old.types here.now.declared }
    ensures code { (t : ℕ) → IsNumber target t → Adds here.now out.old out.new k d result (λ w env m n. maybe_unless_code (maybe e.now) w env m n t) (λ s. length (maybe_literals s (maybe e.now))) (maybe_truth_jumps (maybe e.now)) }
    ensures keeps { OnOk result (Keeps out.old out.new) }
{
    match e {
        Some(there) => unless(out, here, there, target, k, d),
        None => Ok(k),
    }
}

// The step that updates alike and gives the new value.
fn updating(op: StepOp) -> StepOp
    ensures { result ≡ updating op }
{
    match op {
        StepOp::PostInc => StepOp::PreInc,
        StepOp::PostDec => StepOp::PreDec,
        StepOp::PreInc => StepOp::PreInc,
        StepOp::PreDec => StepOp::PreDec,
    }
}

/// Code of an expression whose value isn't used.
pub fn effect(
    out: &mut Output<'_>,
    here: &Here<'_>,
    e: &Expr,
    k: u32,
    d: u32,
) -> Result<u32, AllocError>
    requires { HoldsSome out.old.types here.now.declared }
    ensures code { Adds here.now out.old out.new k d result (effect_code (expr_of e.now)) (λ s. literal_count s (expr_of e.now)) (expr_jumps (expr_of e.now)) }
    ensures keeps { OnOk result (Keeps out.old out.new) }
{
    match &e.form {
        Form::Number(_value, _unsigned) => value(out, here, e, k, d),
        Form::Str(_text) => value(out, here, e, k, d),
        Form::Null => value(out, here, e, k, d),
        Form::Name(_name) => value(out, here, e, k, d),
        Form::Unary(_op, _a) => value(out, here, e, k, d),
        Form::Step(op, a) => step(out, here, updating(*op), a, k, d),
        Form::Binary(_op, _a, _b) => value(out, here, e, k, d),
        Form::Assign(_op, _a, _b) => value(out, here, e, k, d),
        Form::Cond(_a, _b, _c) => value(out, here, e, k, d),
        Form::Comma(_a, _b) => value(out, here, e, k, d),
        Form::Cast(_t, _a) => value(out, here, e, k, d),
        Form::SizeTy(_t) => value(out, here, e, k, d),
        Form::SizeOf(_a) => value(out, here, e, k, d),
        Form::Index(_a, _b) => value(out, here, e, k, d),
        Form::Call(_f, _es) => value(out, here, e, k, d),
        Form::Member(_a, _m) => value(out, here, e, k, d),
        Form::Arrow(_a, _m) => value(out, here, e, k, d),
    }
}

/// Code of an expression that may be missing, whose value isn't used.
pub fn maybe_effect(
    out: &mut Output<'_>,
    here: &Here<'_>,
    e: &Option<Expr>,
    k: u32,
    d: u32,
) -> Result<u32, AllocError>
    requires { HoldsSome out.old.types here.now.declared }
    ensures code { Adds here.now out.old out.new k d result (maybe_effect_code (maybe e.now)) (λ s. length (maybe_literals s (maybe e.now))) (maybe_jumps (maybe e.now)) }
    ensures keeps { OnOk result (Keeps out.old out.new) }
{
    match e {
        Some(there) => effect(out, here, there, k, d),
        None => Ok(k),
    }
}

/// Code of a `return`, perhaps of a value.
pub fn returns(
    out: &mut Output<'_>,
    here: &Here<'_>,
    e: &Option<Expr>,
    k: u32,
    d: u32,
) -> Result<u32, AllocError>
    requires { HoldsSome out.old.types here.now.declared }
    ensures code { Adds here.now out.old out.new k d result (returned_code (maybe e.now)) (λ s. length (maybe_literals s (maybe e.now))) (maybe_jumps (maybe e.now) + 1) }
    ensures keeps { OnOk result (Keeps out.old out.new) }
{
    match e {
        Some(there) => {
            let behind = value(out, here, there, k, d)?;
            returned(out)?;
            Ok(next(behind))
        }
        None => {
            returned(out)?;
            Ok(next(k))
        }
    }
}

/// A jump out of a statement, to a block.
pub fn jump_out(
    out: &mut Output<'_>,
    here: &Here<'_>,
    target: u32,
    k: u32,
    d: u32,
) -> Result<u32, AllocError>
    requires { HoldsSome out.old.types here.now.declared }
    ensures code { (t : ℕ) → IsNumber target t → Adds here.now out.old out.new k d result (λ w env m n. jump_to t) (λ s. 0) (1) }
    ensures keeps { OnOk result (Keeps out.old out.new) }
{
    jump(out, target)?;
    Ok(next(k))
}
