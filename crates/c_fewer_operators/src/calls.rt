// Calls of helper functions.

ghost use Rattle.std.specs.Prelude.{◌≡◌, ◌<◌, ◌∷◌, [], length, map, IfOk};
ghost use Rattle.c_syntax.specs.View.{expr_of};
ghost use Rattle.c_types.specs.Types.{CType};
ghost use Rattle.c_types.specs.Scope.{Scope};
ghost use Rattle.c_types.specs.Table.{known, HasType};
ghost use Rattle.c_helpers.specs.Fewer as fewer;
ghost use Rattle.c_fewer_operators.specs.Here.{Stands};

use crate::here::Here;
use c_syntax::tree::{Expr, UnOp};
use c_terms::{call, cast, type_tree, unary, variable};
use c_types::Types;
use std::alloc::{AllocError, Global};

// The call of a helper function.
fn helper_call(
    alloc: Global,
    at: u32,
    name: &[u8],
    arguments: Vec<Expr>,
) -> Result<Expr, AllocError>
    ensures { IfOk result (λ e. expr_of e ≡ fewer.helper_call at name.now (map expr_of arguments.items)) }
{
    let callee = variable(alloc, at, name)?;
    call(alloc, at, callee, arguments)
}

/// With one argument.
pub fn call_one(alloc: Global, at: u32, name: &[u8], a: Expr) -> Result<Expr, AllocError>
    ensures { IfOk result (λ e. expr_of e ≡ fewer.helper_call at name.now (expr_of a ∷ [])) }
{
    let mut arguments = Vec::new(alloc);
    arguments.push(a)?;
    helper_call(alloc, at, name, arguments)
}

/// With two.
pub fn call_two(alloc: Global, at: u32, name: &[u8], a: Expr, b: Expr) -> Result<Expr, AllocError>
    ensures { IfOk result (λ e. expr_of e ≡ fewer.helper_call at name.now (expr_of a ∷ expr_of b ∷ [])) }
{
    let mut arguments = Vec::new(alloc);
    arguments.push(a)?;
    arguments.push(b)?;
    helper_call(alloc, at, name, arguments)
}

/// With three.
pub fn call_three(
    alloc: Global,
    at: u32,
    name: &[u8],
    a: Expr,
    b: Expr,
    c: Expr,
) -> Result<Expr, AllocError>
    ensures { IfOk result (λ e. expr_of e ≡ fewer.helper_call at name.now (expr_of a ∷ expr_of b ∷ expr_of c ∷ [])) }
{
    let mut arguments = Vec::new(alloc);
    arguments.push(a)?;
    arguments.push(b)?;
    arguments.push(c)?;
    helper_call(alloc, at, name, arguments)
}

/// A tree with a type.
pub fn as_type(
    types: &Types<'_>,
    here: &Here<'_>,
    at: u32,
    ty: usize,
    e: Expr,
) -> Result<Expr, AllocError>
    requires { ty < length (known types.now) }
    ensures { (s : Scope) (t : CType) → Stands types.now here.now s → HasType types.now ty t → IfOk result (λ r. expr_of r ≡ fewer.as_type at t (expr_of e)) }
{
    let tree = type_tree(here.declared.alloc, types, here.tags.as_slice(), ty)?;
    cast(here.declared.alloc, at, tree, e)
}

/// A place as a pointer.
pub fn address_at(alloc: Global, at: u32, a: Expr) -> Result<Expr, AllocError>
    ensures { IfOk result (λ e. expr_of e ≡ fewer.address_at at (expr_of a)) }
{
    unary(alloc, at, UnOp::Address, a)
}
