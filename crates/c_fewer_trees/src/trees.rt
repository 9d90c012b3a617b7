// Trees by the judgements of their parts.

ghost use Rattle.std.specs.Prelude.{◌≡◌, Some, IfOk, OnOk};
ghost use Rattle.c_syntax.specs.Plain as plain;
ghost use Rattle.c_syntax.specs.Plain.{CExpr};
ghost use Rattle.c_syntax.specs.View.{expr_of};
ghost use Rattle.c_types.specs.Refusals as refusals;
ghost use Rattle.c_types.specs.Operands as operands;
ghost use Rattle.c_types.specs.Scope.{Scope};
ghost use Rattle.c_types.specs.Expressions.{judged};
ghost use Rattle.c_eval.specs.Environment.{operand_type};
ghost use Rattle.c_types.specs.Table.{known};
ghost use Rattle.c_types.specs.Known.{Grows};
ghost use Rattle.c_operands.specs.Seen.{IsOperand, IsJudged};
ghost use Rattle.c_forms.specs.Forms.{IsSomeOperand};
ghost use Rattle.c_helpers.specs.Fewer.{fewer, constant_tree};
ghost use Rattle.c_fewer_operators.specs.Here.{Stands, StandsSome};
ghost use Rattle.c_fewer_operators.specs.Parts as parts;
ghost use Rattle.c_fewer_trees.specs.Remade.{Comes, ComesFrom, OnePart, TwoParts};

use crate::remade::Remade;
use crate::types::{type_of, value_tree, value_type};
use c_expressions::judge;
use c_fewer_operators::Here;
use c_operands::{Judged, Operand};
use c_syntax::text::Text;
use c_syntax::tree::{BinOp, Expr, Form, StepOp, UnOp};
use c_terms::assign;
use c_types::Types;
use std::alloc::{AllocError, Global};

/// A text of bytes.
pub fn text_of(alloc: Global, bytes: &[u8]) -> Result<Text, AllocError>
    ensures { IfOk result (λ t. t ≡ bytes.now) }
{
    let items = Vec::from_slice(alloc, bytes)?;
    Ok(Text::from_bytes(items))
}

/// A string.
pub fn string(alloc: Global, pos: u32, bytes: &[u8]) -> Result<Expr, AllocError>
    ensures { IfOk result (λ e. expr_of e ≡ plain.Str pos bytes.now) }
{
    let text = text_of(alloc, bytes)?;
    Ok(Expr {
        pos,
        form: Form::Str(text),
    })
}

/// `NULL`.
pub fn null(pos: u32) -> Expr
    ensures { expr_of result ≡ plain.Null pos }
{
    Expr {
        pos,
        form: Form::Null,
    }
}

/// The value of a constant expression, in place of it.
pub fn constant_tree(types: &mut Types<'_>, here: &Here<'_>, e: &Expr) -> Result<Remade, AllocError>
    requires { StandsSome types.old here.now }
    ensures made { (s : Scope) → Stands types.old here.now s → IfOk result (λ r. Comes types.new r (constant_tree s (expr_of e.now)) (judged s (expr_of e.now))) }
    ensures grows { OnOk result (Grows (known types.old) (known types.new)) }
    ensures tags { OnOk result (types.new.tags ≡ types.old.tags) }
{
    let judged = judge(types, &here.declared, e)?;
    let tree = value_tree(types, judged);
    Ok(Remade { tree, judged })
}

/// An operator on one side, of an expression that is judged so.
pub fn unary_tree(
    types: &mut Types<'_>,
    here: &Here<'_>,
    at: u32,
    op: UnOp,
    whole: Judged<Operand>,
    a: Expr,
) -> Result<Expr, AllocError>
    requires { IsSomeOperand types.old whole }
    ensures tree { (s : Scope) (p : refusals.Judged operands.Operand) → Stands types.old here.now s → IsJudged (IsOperand types.old) whole p → IfOk result (λ e. expr_of e ≡ parts.unary_tree at op (operand_type p) (expr_of a)) }
    ensures grows { OnOk result (Grows (known types.old) (known types.new)) }
    ensures tags { OnOk result (types.new.tags ≡ types.old.tags) }
{
    let ty = type_of(types, whole)?;
    c_fewer_operators::unary_tree(types, here, at, op, ty, a)
}

/// A step of a place.
pub fn step_tree(
    types: &mut Types<'_>,
    here: &Here<'_>,
    at: u32,
    op: StepOp,
    a: Remade,
) -> Result<Expr, AllocError>
    requires { OnePart types.old here.now a }
    ensures tree { (s : Scope) (x : CExpr) → Stands types.old here.now s → ComesFrom types.old a s x → IfOk result (λ e. expr_of e ≡ fewer s (plain.Step at op x)) }
    ensures grows { OnOk result (Grows (known types.old) (known types.new)) }
    ensures tags { OnOk result (types.new.tags ≡ types.old.tags) }
{
    let ty = type_of(types, a.judged)?;
    c_fewer_operators::step_tree(types, here, at, op, ty, a.tree)
}

/// An operator on two sides, of an expression that is judged so.
pub fn binary_tree(
    types: &mut Types<'_>,
    here: &Here<'_>,
    at: u32,
    op: BinOp,
    whole: Judged<Operand>,
    a: Remade,
    b: Remade,
) -> Result<Expr, AllocError>
    requires parts { TwoParts types.old here.now a b }
    requires whole { IsSomeOperand types.old whole }
    ensures tree { (s : Scope) (x y : CExpr) → Stands types.old here.now s → ComesFrom types.old a s x → ComesFrom types.old b s y → IsJudged (IsOperand types.old) whole (judged s (plain.Binary at op x y)) → IfOk result (λ e. expr_of e ≡ fewer s (plain.Binary at op x y)) }
    ensures grows { OnOk result (Grows (known types.old) (known types.new)) }
    ensures tags { OnOk result (types.new.tags ≡ types.old.tags) }
{
    let ty = type_of(types, whole)?;
    let t = value_type(types, a.judged)?;
    let u = value_type(types, b.judged)?;
    c_fewer_operators::operator_tree(types, here, at, op, ty, t, u, a.tree, b.tree)
}

// A compound assignment.
fn compound_tree(
    types: &mut Types<'_>,
    here: &Here<'_>,
    at: u32,
    op: BinOp,
    a: Remade,
    b: Remade,
) -> Result<Expr, AllocError>
    requires { TwoParts types.old here.now a b }
    ensures tree { (s : Scope) (x y : CExpr) → Stands types.old here.now s → ComesFrom types.old a s x → ComesFrom types.old b s y → IfOk result (λ e. expr_of e ≡ fewer s (plain.Assign at (Some op) x y)) }
    ensures grows { OnOk result (Grows (known types.old) (known types.new)) }
    ensures tags { OnOk result (types.new.tags ≡ types.old.tags) }
{
    let t = type_of(types, a.judged)?;
    let u = value_type(types, b.judged)?;
    c_fewer_operators::assignment_tree(types, here, at, op, t, u, a.tree, b.tree)
}

/// An assignment, perhaps with an operator.
pub fn assign_tree(
    types: &mut Types<'_>,
    here: &Here<'_>,
    at: u32,
    op: Option<BinOp>,
    a: Remade,
    b: Remade,
) -> Result<Expr, AllocError>
    requires { TwoParts types.old here.now a b }
    ensures tree { (s : Scope) (x y : CExpr) → Stands types.old here.now s → ComesFrom types.old a s x → ComesFrom types.old b s y → IfOk result (λ e. expr_of e ≡ fewer s (plain.Assign at op x y)) }
    ensures grows { OnOk result (Grows (known types.old) (known types.new)) }
    ensures tags { OnOk result (types.new.tags ≡ types.old.tags) }
{
    match op {
        Some(sign) => compound_tree(types, here, at, sign, a, b),
        None => assign(here.declared.alloc, at, None, a.tree, b.tree),
    }
}

/// An element of an array.
pub fn element_tree(
    types: &mut Types<'_>,
    here: &Here<'_>,
    at: u32,
    a: Remade,
    b: Remade,
) -> Result<Expr, AllocError>
    requires { TwoParts types.old here.now a b }
    ensures tree { (s : Scope) (x y : CExpr) → Stands types.old here.now s → ComesFrom types.old a s x → ComesFrom types.old b s y → IfOk result (λ e. expr_of e ≡ fewer s (plain.Index at x y)) }
    ensures grows { OnOk result (Grows (known types.old) (known types.new)) }
    ensures tags { OnOk result (types.new.tags ≡ types.old.tags) }
{
    let t = value_type(types, a.judged)?;
    let u = value_type(types, b.judged)?;
    c_fewer_operators::element_tree(types, here, at, t, u, a.tree, b.tree)
}
