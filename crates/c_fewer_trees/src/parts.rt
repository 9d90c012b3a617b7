// Expressions by their parts.

ghost use Rattle.std.specs.Prelude.{◌≡◌, IfOk, OnOk};
ghost use Rattle.c_syntax.specs.Plain as plain;
ghost use Rattle.c_syntax.specs.Plain.{CExpr, CTy};
ghost use Rattle.c_syntax.specs.View.{expr_of, ty_of};
ghost use Rattle.c_types.specs.Scope.{Scope};
ghost use Rattle.c_types.specs.Expressions.{written};
ghost use Rattle.c_types.specs.Table.{known, HasType};
ghost use Rattle.c_types.specs.Known.{Grows};
ghost use Rattle.c_operands.specs.Seen.{IsJudged};
ghost use Rattle.c_forms.specs.Forms.{IsSomeType};
ghost use Rattle.c_helpers.specs.Fewer.{fewer, fewer_in_type};
ghost use Rattle.c_fewer_operators.specs.Here.{Stands, StandsSome};
ghost use Rattle.c_fewer_trees.specs.Remade.{ComesFrom, OnePart, TwoParts, ThreeParts};

use crate::remade::Remade;
use crate::trees::{assign_tree, binary_tree, element_tree, step_tree, text_of, unary_tree};
use c_expressions::judge;
use c_fewer_operators::Here;
use c_forms::{One, Two, after_cast, after_one, after_three, after_two};
use c_operands::Judged;
use c_syntax::tree::{BinOp, Expr, StepOp, Ty, UnOp};
use c_terms::{arrow, cast, comma, conditional, member};
use c_types::Types;
use std::alloc::AllocError;

/// An expression without parts, with its tree.
pub fn remade_leaf(
    types: &mut Types<'_>,
    here: &Here<'_>,
    e: &Expr,
    tree: Expr,
) -> Result<Remade, AllocError>
    requires { StandsSome types.old here.now }
    ensures made { (s : Scope) → Stands types.old here.now s → expr_of tree ≡ fewer s (expr_of e.now) → IfOk result (λ r. ComesFrom types.new r s (expr_of e.now)) }
    ensures grows { OnOk result (Grows (known types.old) (known types.new)) }
    ensures tags { OnOk result (types.new.tags ≡ types.old.tags) }
{
    let judged = judge(types, &here.declared, e)?;
    Ok(Remade { tree, judged })
}

/// An operator on one side.
pub fn remade_unary(
    types: &mut Types<'_>,
    here: &Here<'_>,
    at: u32,
    op: UnOp,
    a: Remade,
) -> Result<Remade, AllocError>
    requires { OnePart types.old here.now a }
    ensures made { (s : Scope) (x : CExpr) → Stands types.old here.now s → ComesFrom types.old a s x → IfOk result (λ r. ComesFrom types.new r s (plain.Unary at op x)) }
    ensures grows { OnOk result (Grows (known types.old) (known types.new)) }
    ensures tags { OnOk result (types.new.tags ≡ types.old.tags) }
{
    let whole = after_one(
        types,
        here.declared.layouts.as_slice(),
        at,
        One::Unary(op),
        a.judged,
    )?;
    let tree = unary_tree(types, here, at, op, whole, a.tree)?;
    Ok(Remade {
        tree,
        judged: whole,
    })
}

/// A step of a place.
pub fn remade_step(
    types: &mut Types<'_>,
    here: &Here<'_>,
    at: u32,
    op: StepOp,
    a: Remade,
) -> Result<Remade, AllocError>
    requires { OnePart types.old here.now a }
    ensures made { (s : Scope) (x : CExpr) → Stands types.old here.now s → ComesFrom types.old a s x → IfOk result (λ r. ComesFrom types.new r s (plain.Step at op x)) }
    ensures grows { OnOk result (Grows (known types.old) (known types.new)) }
    ensures tags { OnOk result (types.new.tags ≡ types.old.tags) }
{
    let whole = after_one(
        types,
        here.declared.layouts.as_slice(),
        at,
        One::Step,
        a.judged,
    )?;
    let tree = step_tree(types, here, at, op, a)?;
    Ok(Remade {
        tree,
        judged: whole,
    })
}

/// A member of a struct.
pub fn remade_member(
    types: &mut Types<'_>,
    here: &Here<'_>,
    at: u32,
    name: &[u8],
    a: Remade,
) -> Result<Remade, AllocError>
    requires { OnePart types.old here.now a }
    ensures made { (s : Scope) (x : CExpr) → Stands types.old here.now s → ComesFrom types.old a s x → IfOk result (λ r. ComesFrom types.new r s (plain.Member at x name.now)) }
    ensures grows { OnOk result (Grows (known types.old) (known types.new)) }
    ensures tags { OnOk result (types.new.tags ≡ types.old.tags) }
{
    let whole = after_one(
        types,
        here.declared.layouts.as_slice(),
        at,
        One::Member(name),
        a.judged,
    )?;
    let text = text_of(here.declared.alloc, name)?;
    let tree = member(here.declared.alloc, at, a.tree, text)?;
    Ok(Remade {
        tree,
        judged: whole,
    })
}

/// A member of the struct that a pointer points to.
pub fn remade_arrow(
    types: &mut Types<'_>,
    here: &Here<'_>,
    at: u32,
    name: &[u8],
    a: Remade,
) -> Result<Remade, AllocError>
    requires { OnePart types.old here.now a }
    ensures made { (s : Scope) (x : CExpr) → Stands types.old here.now s → ComesFrom types.old a s x → IfOk result (λ r. ComesFrom types.new r s (plain.Arrow at x name.now)) }
    ensures grows { OnOk result (Grows (known types.old) (known types.new)) }
    ensures tags { OnOk result (types.new.tags ≡ types.old.tags) }
{
    let whole = after_one(
        types,
        here.declared.layouts.as_slice(),
        at,
        One::Arrow(name),
        a.judged,
    )?;
    let text = text_of(here.declared.alloc, name)?;
    let tree = arrow(here.declared.alloc, at, a.tree, text)?;
    Ok(Remade {
        tree,
        judged: whole,
    })
}

/// An operator on two sides.
pub fn remade_binary(
    types: &mut Types<'_>,
    here: &Here<'_>,
    at: u32,
    op: BinOp,
    a: Remade,
    b: Remade,
) -> Result<Remade, AllocError>
    requires { TwoParts types.old here.now a b }
    ensures made { (s : Scope) (x y : CExpr) → Stands types.old here.now s → ComesFrom types.old a s x → ComesFrom types.old b s y → IfOk result (λ r. ComesFrom types.new r s (plain.Binary at op x y)) }
    ensures grows { OnOk result (Grows (known types.old) (known types.new)) }
    ensures tags { OnOk result (types.new.tags ≡ types.old.tags) }
{
    let whole = after_two(
        types,
        here.declared.layouts.as_slice(),
        at,
        Two::Binary(op),
        a.judged,
        b.judged,
    )?;
    let tree = binary_tree(types, here, at, op, whole, a, b)?;
    Ok(Remade {
        tree,
        judged: whole,
    })
}

/// An assignment, perhaps with an operator.
pub fn remade_assignment(
    types: &mut Types<'_>,
    here: &Here<'_>,
    at: u32,
    op: Option<BinOp>,
    a: Remade,
    b: Remade,
) -> Result<Remade, AllocError>
    requires { TwoParts types.old here.now a b }
    ensures made { (s : Scope) (x y : CExpr) → Stands types.old here.now s → ComesFrom types.old a s x → ComesFrom types.old b s y → IfOk result (λ r. ComesFrom types.new r s (plain.Assign at op x y)) }
    ensures grows { OnOk result (Grows (known types.old) (known types.new)) }
    ensures tags { OnOk result (types.new.tags ≡ types.old.tags) }
{
    let whole = after_two(
        types,
        here.declared.layouts.as_slice(),
        at,
        Two::Assign(op),
        a.judged,
        b.judged,
    )?;
    let tree = assign_tree(types, here, at, op, a, b)?;
    Ok(Remade {
        tree,
        judged: whole,
    })
}

/// One expression and then another.
pub fn remade_comma(
    types: &mut Types<'_>,
    here: &Here<'_>,
    at: u32,
    a: Remade,
    b: Remade,
) -> Result<Remade, AllocError>
    requires { TwoParts types.old here.now a b }
    ensures made { (s : Scope) (x y : CExpr) → Stands types.old here.now s → ComesFrom types.old a s x → ComesFrom types.old b s y → IfOk result (λ r. ComesFrom types.new r s (plain.Comma at x y)) }
    ensures grows { OnOk result (Grows (known types.old) (known types.new)) }
    ensures tags { OnOk result (types.new.tags ≡ types.old.tags) }
{
    let whole = after_two(
        types,
        here.declared.layouts.as_slice(),
        at,
        Two::Comma,
        a.judged,
        b.judged,
    )?;
    let tree = comma(here.declared.alloc, at, a.tree, b.tree)?;
    Ok(Remade {
        tree,
        judged: whole,
    })
}

/// An element of an array.
pub fn remade_element(
    types: &mut Types<'_>,
    here: &Here<'_>,
    at: u32,
    a: Remade,
    b: Remade,
) -> Result<Remade, AllocError>
    requires { TwoParts types.old here.now a b }
    ensures made { (s : Scope) (x y : CExpr) → Stands types.old here.now s → ComesFrom types.old a s x → ComesFrom types.old b s y → IfOk result (λ r. ComesFrom types.new r s (plain.Index at x y)) }
    ensures grows { OnOk result (Grows (known types.old) (known types.new)) }
    ensures tags { OnOk result (types.new.tags ≡ types.old.tags) }
{
    let whole = after_two(
        types,
        here.declared.layouts.as_slice(),
        at,
        Two::Index,
        a.judged,
        b.judged,
    )?;
    let tree = element_tree(types, here, at, a, b)?;
    Ok(Remade {
        tree,
        judged: whole,
    })
}

/// A choice of two.
pub fn remade_choice(
    types: &mut Types<'_>,
    here: &Here<'_>,
    at: u32,
    a: Remade,
    b: Remade,
    c: Remade,
) -> Result<Remade, AllocError>
    requires { ThreeParts types.old here.now a b c }
    ensures made { (s : Scope) (x y z : CExpr) → Stands types.old here.now s → ComesFrom types.old a s x → ComesFrom types.old b s y → ComesFrom types.old c s z → IfOk result (λ r. ComesFrom types.new r s (plain.Cond at x y z)) }
    ensures grows { OnOk result (Grows (known types.old) (known types.new)) }
    ensures tags { OnOk result (types.new.tags ≡ types.old.tags) }
{
    let whole = after_three(types, at, a.judged, b.judged, c.judged)?;
    let tree = conditional(here.declared.alloc, at, a.tree, b.tree, c.tree)?;
    Ok(Remade {
        tree,
        judged: whole,
    })
}

/// A cast to a type, with the tree of the type.
pub fn remade_cast(
    types: &mut Types<'_>,
    here: &Here<'_>,
    at: u32,
    ty: Judged<usize>,
    t: Ty,
    a: Remade,
) -> Result<Remade, AllocError>
    requires part { OnePart types.old here.now a }
    requires ty { IsSomeType types.old ty }
    ensures made { (s : Scope) (w : CTy) (x : CExpr) → Stands types.old here.now s → IsJudged (HasType types.old) ty (written s at w) → ty_of t ≡ fewer_in_type s w → ComesFrom types.old a s x → IfOk result (λ r. ComesFrom types.new r s (plain.Cast at w x)) }
    ensures grows { OnOk result (Grows (known types.old) (known types.new)) }
    ensures tags { OnOk result (types.new.tags ≡ types.old.tags) }
{
    let whole = after_cast(types, at, ty, a.judged)?;
    let tree = cast(here.declared.alloc, at, t, a.tree)?;
    Ok(Remade {
        tree,
        judged: whole,
    })
}
