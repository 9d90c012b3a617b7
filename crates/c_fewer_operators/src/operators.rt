// Operators on values.

ghost use Rattle.std.specs.Prelude.{◌≡◌, ◌<◌, length, IfOk};
ghost use Rattle.c_syntax.specs.View.{expr_of};
ghost use Rattle.c_types.specs.Types.{CType};
ghost use Rattle.c_types.specs.Scope.{Scope};
ghost use Rattle.c_types.specs.Table.{known, HasType};
ghost use Rattle.c_helpers.specs.Fewer as fewer;
ghost use Rattle.c_fewer_operators.specs.Here.{Stands};
ghost use Rattle.c_fewer_operators.specs.Parts as parts;

use crate::calls::{as_type, call_one, call_three, call_two};
use crate::here::Here;
use crate::signs::{counts_unsigned, either, name_by, sign_of};
use crate::types::{is_pointer, is_unsigned, is_wide, words_back, words_in};
use c_syntax::tree::{BinOp, Expr, UnOp};
use c_terms::{binary, index, unary};
use c_types::Types;
use std::alloc::AllocError;

/// An operator of a type on one side.
pub fn unary_tree(
    types: &Types<'_>,
    here: &Here<'_>,
    at: u32,
    op: UnOp,
    ty: usize,
    a: Expr,
) -> Result<Expr, AllocError>
    requires { ty < length (known types.now) }
    ensures { (s : Scope) (t : CType) → Stands types.now here.now s → HasType types.now ty t → IfOk result (λ r. expr_of r ≡ parts.unary_tree at op t (expr_of a)) }
{
    match op {
        UnOp::Invert => {
            let turned = call_one(here.declared.alloc, at, b"~", a)?;
            as_type(types, here, at, ty, turned)
        }
        _ => unary(here.declared.alloc, at, op, a),
    }
}

// A pointer to wide elements, moved by a number of them.
fn moved_pointer(
    types: &Types<'_>,
    here: &Here<'_>,
    at: u32,
    ty: usize,
    unsigned: bool,
    a: Expr,
    b: Expr,
    words: Expr,
) -> Result<Expr, AllocError>
    requires { ty < length (known types.now) }
    ensures { (s : Scope) (t : CType) → Stands types.now here.now s → HasType types.now ty t → IfOk result (λ r. expr_of r ≡ fewer.moved_pointer at t unsigned (expr_of a) (expr_of b) (expr_of words)) }
{
    let name = name_by(unsigned, b"pointer + unsigned", b"pointer + int");
    let moved = call_three(here.declared.alloc, at, name, a, b, words)?;
    as_type(types, here, at, ty, moved)
}

// A number of wide elements behind a pointer to them.
fn moved_behind(
    types: &Types<'_>,
    here: &Here<'_>,
    at: u32,
    t: usize,
    u: usize,
    a: Expr,
    b: Expr,
) -> Result<Expr, AllocError>
    requires left { t < length (known types.now) }
    requires right { u < length (known types.now) }
    ensures { (s : Scope) (x y : CType) → Stands types.now here.now s → HasType types.now t x → HasType types.now u y → IfOk result (λ r. expr_of r ≡ parts.moved_behind s.tags at x y (expr_of a) (expr_of b)) }
{
    let words = words_in(types, here, u)?;
    let name = name_by(
        is_unsigned(types, t),
        b"unsigned + pointer",
        b"int + pointer",
    );
    let moved = call_three(here.declared.alloc, at, name, a, b, words)?;
    as_type(types, here, at, u, moved)
}

// A sum whose left side is no pointer to wide elements.
fn sum_behind(
    types: &Types<'_>,
    here: &Here<'_>,
    at: u32,
    t: usize,
    u: usize,
    a: Expr,
    b: Expr,
) -> Result<Expr, AllocError>
    requires left { t < length (known types.now) }
    requires right { u < length (known types.now) }
    ensures { (s : Scope) (x y : CType) → Stands types.now here.now s → HasType types.now t x → HasType types.now u y → IfOk result (λ r. expr_of r ≡ parts.sum_behind s.tags at x y (expr_of a) (expr_of b)) }
{
    if is_wide(types, here, u) {
        moved_behind(types, here, at, t, u, a, b)
    } else {
        binary(here.declared.alloc, at, BinOp::Add, a, b)
    }
}

// A sum, with pointers to wide elements on either side.
fn sum_tree(
    types: &Types<'_>,
    here: &Here<'_>,
    at: u32,
    t: usize,
    u: usize,
    a: Expr,
    b: Expr,
) -> Result<Expr, AllocError>
    requires left { t < length (known types.now) }
    requires right { u < length (known types.now) }
    ensures { (s : Scope) (x y : CType) → Stands types.now here.now s → HasType types.now t x → HasType types.now u y → IfOk result (λ r. expr_of r ≡ fewer.sum_tree s.tags at x y (expr_of a) (expr_of b)) }
{
    if is_wide(types, here, t) {
        let words = words_in(types, here, t)?;
        moved_pointer(types, here, at, t, is_unsigned(types, u), a, b, words)
    } else {
        sum_behind(types, here, at, t, u, a, b)
    }
}

// A difference whose left side is a pointer to wide elements.
fn wide_difference(
    types: &Types<'_>,
    here: &Here<'_>,
    at: u32,
    t: usize,
    u: usize,
    a: Expr,
    b: Expr,
) -> Result<Expr, AllocError>
    requires left { t < length (known types.now) }
    requires right { u < length (known types.now) }
    ensures { (s : Scope) (x y : CType) → Stands types.now here.now s → HasType types.now t x → HasType types.now u y → IfOk result (λ r. expr_of r ≡ parts.wide_difference s.tags at x y (expr_of a) (expr_of b)) }
{
    if is_pointer(types, u) {
        let forth = words_in(types, here, t)?;
        call_three(here.declared.alloc, at, b"pointer - pointer", a, b, forth)
    } else {
        let back = words_back(types, here, t)?;
        moved_pointer(types, here, at, t, is_unsigned(types, u), a, b, back)
    }
}

// A difference.
fn difference_tree(
    types: &Types<'_>,
    here: &Here<'_>,
    at: u32,
    t: usize,
    u: usize,
    a: Expr,
    b: Expr,
) -> Result<Expr, AllocError>
    requires left { t < length (known types.now) }
    requires right { u < length (known types.now) }
    ensures { (s : Scope) (x y : CType) → Stands types.now here.now s → HasType types.now t x → HasType types.now u y → IfOk result (λ r. expr_of r ≡ fewer.difference_tree s.tags at x y (expr_of a) (expr_of b)) }
{
    if is_wide(types, here, t) {
        wide_difference(types, here, at, t, u, a, b)
    } else {
        binary(here.declared.alloc, at, BinOp::Sub, a, b)
    }
}

// An operator of which no helper function stands on words.
fn plain_operator(
    types: &Types<'_>,
    here: &Here<'_>,
    at: u32,
    op: BinOp,
    t: usize,
    u: usize,
    a: Expr,
    b: Expr,
) -> Result<Expr, AllocError>
    requires left { t < length (known types.now) }
    requires right { u < length (known types.now) }
    ensures { (s : Scope) (x y : CType) → Stands types.now here.now s → HasType types.now t x → HasType types.now u y → IfOk result (λ r. expr_of r ≡ fewer.plain_operator s.tags at op x y (expr_of a) (expr_of b)) }
{
    match op {
        BinOp::Add => sum_tree(types, here, at, t, u, a, b),
        BinOp::Sub => difference_tree(types, here, at, t, u, a, b),
        _ => binary(here.declared.alloc, at, op, a, b),
    }
}

/// An operator of a type on sides of two types.
pub fn operator_tree(
    types: &Types<'_>,
    here: &Here<'_>,
    at: u32,
    op: BinOp,
    ty: usize,
    t: usize,
    u: usize,
    a: Expr,
    b: Expr,
) -> Result<Expr, AllocError>
    requires whole { ty < length (known types.now) }
    requires left { t < length (known types.now) }
    requires right { u < length (known types.now) }
    ensures { (s : Scope) (w x y : CType) → Stands types.now here.now s → HasType types.now ty w → HasType types.now t x → HasType types.now u y → IfOk result (λ r. expr_of r ≡ fewer.operator_tree s.tags at (fewer.sign_of op (fewer.counts_unsigned op x y)) op w x y (expr_of a) (expr_of b)) }
{
    let unsigned = counts_unsigned(op, is_unsigned(types, t), is_unsigned(types, u));
    match sign_of(op, unsigned) {
        Some(sign) => {
            let value = call_two(here.declared.alloc, at, sign, a, b)?;
            as_type(types, here, at, ty, value)
        }
        None => plain_operator(types, here, at, op, t, u, a, b),
    }
}

/// An element of an array.
pub fn element_tree(
    types: &Types<'_>,
    here: &Here<'_>,
    at: u32,
    t: usize,
    u: usize,
    a: Expr,
    b: Expr,
) -> Result<Expr, AllocError>
    requires left { t < length (known types.now) }
    requires right { u < length (known types.now) }
    ensures { (s : Scope) (x y : CType) → Stands types.now here.now s → HasType types.now t x → HasType types.now u y → IfOk result (λ r. expr_of r ≡ fewer.element_tree s.tags at x y (expr_of a) (expr_of b)) }
{
    if either(is_wide(types, here, t), is_wide(types, here, u)) {
        let sum = sum_tree(types, here, at, t, u, a, b)?;
        unary(here.declared.alloc, at, UnOp::Deref, sum)
    } else {
        index(here.declared.alloc, at, a, b)
    }
}
