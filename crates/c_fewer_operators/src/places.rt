// Operators on places.

ghost use Rattle.std.specs.Prelude.{◌≡◌, ◌<◌, length, IfOk};
ghost use Rattle.c_syntax.specs.View.{expr_of};
ghost use Rattle.c_types.specs.Types.{CType};
ghost use Rattle.c_types.specs.Scope.{Scope};
ghost use Rattle.c_types.specs.Table.{known, HasType};
ghost use Rattle.c_helpers.specs.Fewer as fewer;
ghost use Rattle.c_fewer_operators.specs.Here.{Stands};
ghost use Rattle.c_fewer_operators.specs.Parts as parts;

use crate::calls::{address_at, as_type, call_three, call_two};
use crate::here::Here;
use crate::signs::{compound_of, counts_unsigned, name_by};
use crate::types::{is_unsigned, is_wide, words_back, words_in};
use c_syntax::tree::{BinOp, Expr, StepOp};
use c_terms::{assign, number, step};
use c_types::Types;
use std::alloc::AllocError;

// The pointer at a place is moved.
fn moved_place(
    types: &Types<'_>,
    here: &Here<'_>,
    at: u32,
    ty: usize,
    unsigned: bool,
    a: Expr,
    b: Expr,
    words: Expr,
) -> Result<Expr, AllocError>
    requires { ty < length (known types.now) }
    ensures { (s : Scope) (t : CType) → Stands types.now here.now s → HasType types.now ty t → IfOk result (λ r. expr_of r ≡ fewer.moved_place at t unsigned (expr_of a) (expr_of b) (expr_of words)) }
{
    let name = name_by(unsigned, b"pointer += unsigned", b"pointer += int");
    let place = address_at(here.declared.alloc, at, a)?;
    let moved = call_three(here.declared.alloc, at, name, place, b, words)?;
    as_type(types, here, at, ty, moved)
}

// The pointer at a place is moved, and given as it was.
fn stepped_place(
    types: &Types<'_>,
    here: &Here<'_>,
    at: u32,
    ty: usize,
    a: Expr,
    words: Expr,
) -> Result<Expr, AllocError>
    requires { ty < length (known types.now) }
    ensures { (s : Scope) (t : CType) → Stands types.now here.now s → HasType types.now ty t → IfOk result (λ r. expr_of r ≡ parts.stepped_place at t (expr_of a) (expr_of words)) }
{
    let place = address_at(here.declared.alloc, at, a)?;
    let moved = call_two(here.declared.alloc, at, b"pointer++", place, words)?;
    as_type(types, here, at, ty, moved)
}

// There and back.
fn words_by(types: &Types<'_>, here: &Here<'_>, op: BinOp, ty: usize) -> Result<Expr, AllocError>
    requires { ty < length (known types.now) }
    ensures { (s : Scope) (t : CType) → Stands types.now here.now s → HasType types.now ty t → IfOk result (λ r. expr_of r ≡ fewer.words_by op s.tags t) }
{
    match op {
        BinOp::Sub => words_back(types, here, ty),
        _ => words_in(types, here, ty),
    }
}

// A compound assignment of which no helper function stands on words.
fn plain_assignment(
    types: &Types<'_>,
    here: &Here<'_>,
    at: u32,
    op: BinOp,
    t: usize,
    u: usize,
    a: Expr,
    b: Expr,
) -> Result<Expr, AllocError>
    requires left { t < length (known types.now) }
    requires right { u < length (known types.now) }
    ensures { (s : Scope) (x y : CType) → Stands types.now here.now s → HasType types.now t x → HasType types.now u y → IfOk result (λ r. expr_of r ≡ fewer.plain_assignment s.tags at op x y (expr_of a) (expr_of b)) }
{
    if is_wide(types, here, t) {
        let words = words_by(types, here, op, t)?;
        moved_place(types, here, at, t, is_unsigned(types, u), a, b, words)
    } else {
        assign(here.declared.alloc, at, Some(op), a, b)
    }
}

/// A compound assignment to a place of one type of a value of another.
pub fn assignment_tree(
    types: &Types<'_>,
    here: &Here<'_>,
    at: u32,
    op: BinOp,
    t: usize,
    u: usize,
    a: Expr,
    b: Expr,
) -> Result<Expr, AllocError>
    requires left { t < length (known types.now) }
    requires right { u < length (known types.now) }
    ensures { (s : Scope) (x y : CType) → Stands types.now here.now s → HasType types.now t x → HasType types.now u y → IfOk result (λ r. expr_of r ≡ fewer.assignment_tree s.tags at (fewer.sign_of op (fewer.counts_unsigned op x y)) op x y (expr_of a) (expr_of b)) }
{
    let unsigned = counts_unsigned(op, is_unsigned(types, t), is_unsigned(types, u));
    match compound_of(op, unsigned) {
        Some(sign) => {
            let place = address_at(here.declared.alloc, at, a)?;
            let value = call_two(here.declared.alloc, at, sign, place, b)?;
            as_type(types, here, at, t, value)
        }
        None => plain_assignment(types, here, at, op, t, u, a, b),
    }
}

// A step of a pointer to wide elements.
fn wide_step(
    types: &Types<'_>,
    here: &Here<'_>,
    at: u32,
    op: StepOp,
    ty: usize,
    a: Expr,
) -> Result<Expr, AllocError>
    requires { ty < length (known types.now) }
    ensures { (s : Scope) (t : CType) → Stands types.now here.now s → HasType types.now ty t → IfOk result (λ r. expr_of r ≡ fewer.wide_step s.tags at op t (expr_of a)) }
{
    match op {
        StepOp::PreInc => {
            let words = words_in(types, here, ty)?;
            moved_place(types, here, at, ty, false, a, number(0, 1, false), words)
        }
        StepOp::PreDec => {
            let words = words_back(types, here, ty)?;
            moved_place(types, here, at, ty, false, a, number(0, 1, false), words)
        }
        StepOp::PostInc => {
            let words = words_in(types, here, ty)?;
            stepped_place(types, here, at, ty, a, words)
        }
        StepOp::PostDec => {
            let words = words_back(types, here, ty)?;
            stepped_place(types, here, at, ty, a, words)
        }
    }
}

/// A step of a place of a type.
pub fn step_tree(
    types: &Types<'_>,
    here: &Here<'_>,
    at: u32,
    op: StepOp,
    ty: usize,
    a: Expr,
) -> Result<Expr, AllocError>
    requires { ty < length (known types.now) }
    ensures { (s : Scope) (t : CType) → Stands types.now here.now s → HasType types.now ty t → IfOk result (λ r. expr_of r ≡ fewer.step_tree s.tags at op t (expr_of a)) }
{
    if is_wide(types, here, ty) {
        wide_step(types, here, at, op, ty, a)
    } else {
        step(here.declared.alloc, at, op, a)
    }
}
