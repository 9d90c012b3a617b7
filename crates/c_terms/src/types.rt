// Types from their parts.

ghost use Rattle.std.specs.Prelude.{◌≡◌, map, IfOk};
ghost use Rattle.c_syntax.specs.Plain as plain;
ghost use Rattle.c_syntax.specs.Plain.{tys};
ghost use Rattle.c_syntax.specs.View.{expr_of, ty_of};

use c_syntax::tree::{Expr, Ty, Tys};
use std::alloc::{AllocError, Global};

/// A pointer to a type.
pub fn pointer(alloc: Global, ty: Ty) -> Result<Ty, AllocError>
    ensures { IfOk result (λ t. ty_of t ≡ plain.Pointer (ty_of ty)) }
{
    Ok(Ty::Pointer(Box::new(alloc, ty)?))
}

/// An array whose length is left open.
pub fn array(alloc: Global, ty: Ty) -> Result<Ty, AllocError>
    ensures { IfOk result (λ t. ty_of t ≡ plain.Array (ty_of ty)) }
{
    Ok(Ty::Array(Box::new(alloc, ty)?, None))
}

/// An array of a length.
pub fn array_of(alloc: Global, ty: Ty, length: Expr) -> Result<Ty, AllocError>
    ensures { IfOk result (λ t. ty_of t ≡ plain.ArrayOf (ty_of ty) (expr_of length)) }
{
    let length = Box::new(alloc, length)?;
    Ok(Ty::Array(Box::new(alloc, ty)?, Some(length)))
}

// What a function gives, with the types of its parameters.
fn function_of(ty: Box<Ty>, items: Vec<Ty>) -> Ty
    ensures { ty_of result ≡ plain.Func (ty_of ty.value) (tys (map ty_of items.items)) }
{
    Ty::Func(ty, Tys { items })
}

/// The type of a function that gives a type, with parameters of types.
pub fn function(alloc: Global, ty: Ty, items: Vec<Ty>) -> Result<Ty, AllocError>
    ensures { IfOk result (λ t. ty_of t ≡ plain.Func (ty_of ty) (tys (map ty_of items.items))) }
{
    let ty = Box::new(alloc, ty)?;
    Ok(function_of(ty, items))
}
