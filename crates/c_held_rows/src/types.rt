//! Types, and what is declared of them.

ghost use Rattle.std.specs.Prelude.{◌≡◌, ◌∷◌, [], ◌++◌, map, IfOk, OnOk, Some, None};
ghost use Rattle.c_syntax.specs.Plain as plain;
ghost use Rattle.c_syntax.specs.Plain.{CTy, tys};
ghost use Rattle.c_syntax.specs.View.{expr_of, ty_of, decl_of, decls_of};
ghost use Rattle.c_grammar.specs.Tree as grammar;
ghost use Rattle.c_held.specs.View.{meaning_of, means, around, layers_of, declared_of, all_of, base_of};
ghost use Rattle.c_held.specs.declared.value.Layer.TheVariants as layer;
ghost use Rattle.c_held.specs.declared.value.Declared.TheVariants as is;

use crate::rows::{push_lengths, push_star, push_stars, push_types};
use c_held::parts::{declarations, declared, no_text};
use c_held::value::{Base, Declarator, Declared, Layer, Meaning, Value};
use c_syntax::tree::{Decl, Expr, Ty, Tys};
use std::alloc::{AllocError, Global};
use std::mem;

/// The type that words say.
pub fn base_type(alloc: Global, base: &Base) -> Result<Ty, AllocError>
    ensures { IfOk result (λ t. ty_of t ≡ base_of base.now) }
{
    match base {
        Base::Void => Ok(Ty::Void),
        Base::Int => Ok(Ty::Int),
        Base::Unsigned => Ok(Ty::Unsigned),
        Base::Char => Ok(Ty::Char),
        Base::UChar => Ok(Ty::UChar),
        Base::Struct(name) => Ok(Ty::Struct(name.copied(alloc)?)),
    }
}

/// The type that a meaning is, taken out of it.
pub fn take_type(alloc: Global, part: &mut Meaning) -> Result<Ty, AllocError>
    ensures { IfOk result (λ t. ty_of t ≡ grammar.type_of (meaning_of part.old)) }
{
    match part {
        Meaning::Bracketed(_, ty) => Ok(mem::replace(ty, Ty::Void)),
        Meaning::Words(base, _, _, _) => base_type(alloc, base),
        Meaning::TypeName(ty) => Ok(mem::replace(ty, Ty::Void)),
        _ => Ok(Ty::Void),
    }
}

/// The type that a value is, taken out of it.
pub fn type_of(alloc: Global, value: &mut Value) -> Result<Ty, AllocError>
    ensures { IfOk result (λ t. ty_of t ≡ grammar.type_of (means value.old)) }
{
    match value {
        Value::Part(made) => take_type(alloc, &mut made.meaning),
        _ => Ok(Ty::Void),
    }
}

// A pointer to a type.
fn pointer(alloc: Global, ty: Ty) -> Result<Ty, AllocError>
    ensures { IfOk result (λ t. ty_of t ≡ plain.Pointer (ty_of ty)) }
{
    Ok(Ty::Pointer(Box::new(alloc, ty)?))
}

fn function_of(ty: Box<Ty>, items: Vec<Ty>) -> Ty
    ensures { ty_of result ≡ plain.Func (ty_of ty.value) (tys (map ty_of items.items)) }
{
    Ty::Func(ty, Tys { items })
}

fn function(alloc: Global, ty: Ty, items: Vec<Ty>) -> Result<Ty, AllocError>
    ensures { IfOk result (λ t. ty_of t ≡ plain.Func (ty_of ty) (tys (map ty_of items.items))) }
{
    let ty = Box::new(alloc, ty)?;
    Ok(function_of(ty, items))
}

fn array(alloc: Global, ty: Ty) -> Result<Ty, AllocError>
    ensures { IfOk result (λ t. ty_of t ≡ plain.Array (ty_of ty)) }
{
    Ok(Ty::Array(Box::new(alloc, ty)?, None))
}

fn array_of(alloc: Global, ty: Ty, length: Expr) -> Result<Ty, AllocError>
    ensures { IfOk result (λ t. ty_of t ≡ plain.ArrayOf (ty_of ty) (expr_of length)) }
{
    let length = Box::new(alloc, length)?;
    Ok(Ty::Array(Box::new(alloc, ty)?, Some(length)))
}

fn with_length(alloc: Global, length: Option<Expr>, ty: Ty) -> Result<Ty, AllocError>
    ensures { IfOk result (λ t. ty_of t ≡ around (layer.Array length) (ty_of ty)) }
{
    match length {
        Some(length) => array_of(alloc, ty, length),
        None => array(alloc, ty),
    }
}

fn with_layer(alloc: Global, layer: &mut Layer, ty: Ty) -> Result<Ty, AllocError>
    ensures { IfOk result (λ t. ty_of t ≡ around layer.old (ty_of ty)) }
{
    match layer {
        Layer::Pointer => pointer(alloc, ty),
        Layer::Array(length) => with_length(alloc, mem::replace(length, None), ty),
        Layer::FunctionPointer(types) => {
            let ty = function(alloc, ty, mem::replace(types, Vec::new(alloc)))?;
            pointer(alloc, ty)
        }
    }
}

fn wrapped(alloc: Global, mut layer: Layer, ty: Ty) -> Result<Ty, AllocError>
    ensures { IfOk result (λ t. ty_of t ≡ around layer (ty_of ty)) }
{
    with_layer(alloc, &mut layer, ty)
}

/// A type with layers around it, which are taken.
#[tactic(auto, using(crate::proofs::Loops::layers_last))]
pub fn with_layers(alloc: Global, layers: &mut Vec<Layer>, mut ty: Ty) -> Result<Ty, AllocError>
    ensures { IfOk result (λ t. ty_of t ≡ layers_of layers.old.items (ty_of ty)) }
{
    while let Some(layer) = layers.pop() {
        ty = wrapped(alloc, layer, ty)?;
    }
    Ok(ty)
}

/// A type behind stars.
pub fn starred(alloc: Global, stars: &mut Value, ty: Ty) -> Result<Ty, AllocError>
    ensures { IfOk result (λ t. ty_of t ≡ grammar.starred (means stars.old) (ty_of ty)) }
{
    let mut layers = Vec::new(alloc);
    push_stars(&mut layers, stars)?;
    with_layers(alloc, &mut layers, ty)
}

/// The lengths of a row.
pub fn lengths(alloc: Global, value: &mut Value) -> Result<Vec<Layer>, AllocError>
    ensures { IfOk result (λ v. (t : CTy) → layers_of v.items t ≡ grammar.arrays (grammar.several (means value.old)) t) }
{
    let mut layers = Vec::new(alloc);
    push_lengths(&mut layers, value)?;
    Ok(layers)
}

/// A pointer to a function with these parameters.
pub fn function_pointer(alloc: Global, params: &mut Value) -> Result<Layer, AllocError>
    ensures { IfOk result (λ l. (t : CTy) → around l t ≡ grammar.function_pointer (means params.old) t) }
{
    let mut types = Vec::new(alloc);
    push_types(&mut types, declarations(alloc, params))?;
    Ok(Layer::FunctionPointer(types))
}

/// A pointer to a function with these parameters and this result.
pub fn pointed_function(alloc: Global, params: Vec<Decl>, ty: Ty) -> Result<Ty, AllocError>
    ensures { IfOk result (λ t. ty_of t ≡ plain.Pointer (plain.Func (ty_of ty) (tys (grammar.parameter_types (decls_of params.items))))) }
{
    let mut types = Vec::new(alloc);
    push_types(&mut types, params)?;
    let ty = function(alloc, ty, types)?;
    pointer(alloc, ty)
}

/// Lengths around a pointer to a function.
#[tactic(auto, using(crate::proofs::Loops::layers_last))]
pub fn function_layers(
    alloc: Global,
    value: &mut Value,
    params: &mut Value,
) -> Result<Vec<Layer>, AllocError>
    ensures { IfOk result (λ v. (t : CTy) → layers_of v.items t ≡ grammar.arrays (grammar.several (means value.old)) (grammar.function_pointer (means params.old) t)) }
{
    let mut layers = lengths(alloc, value)?;
    layers.push(function_pointer(alloc, params)?)?;
    Ok(layers)
}

/// Puts a star more behind what is declared of a type.
#[tactic(auto, using(crate::proofs::Functions::decl_same))]
pub fn point(declared: &mut Declared) -> Result<(), AllocError>
    ensures { OnOk result ((t : CTy) → declared_of declared.new t ≡ declared_of declared.old (plain.Pointer t)) }
{
    match declared {
        Declared::Of(declarator) => push_star(&mut declarator.layers),
        Declared::Fixed(_) => Ok(()),
    }
}

#[tactic(auto, using(crate::proofs::Functions::decl_same))]
fn add_stars(declared: &mut Declared, stars: &mut Value) -> Result<(), AllocError>
    ensures { OnOk result ((t : CTy) → declared_of declared.new t ≡ declared_of declared.old (grammar.starred (means stars.old) t)) }
{
    match declared {
        Declared::Of(declarator) => push_stars(&mut declarator.layers, stars),
        Declared::Fixed(_) => Ok(()),
    }
}

/// A declared name behind stars.
pub fn behind_stars(
    alloc: Global,
    stars: &mut Value,
    core: &mut Value,
) -> Result<Declared, AllocError>
    ensures { IfOk result (λ d. (t : CTy) → declared_of d t ≡ grammar.declared (means stars.old) (means core.old) t) }
{
    let mut name = declared(alloc, core);
    add_stars(&mut name, stars)?;
    Ok(name)
}

// What stands for a declaration where there is none.
fn no_declaration(alloc: Global) -> Decl
    ensures { decl_of result ≡ grammar.nothing_declared plain.Void }
{
    Decl {
        name: no_text(alloc),
        pos: 0,
        ty: Ty::Void,
        first: None,
    }
}

/// What is declared of a type, taken out of what declares it.
pub fn declare_of(alloc: Global, declared: &mut Declared, ty: Ty) -> Result<Decl, AllocError>
    ensures { IfOk result (λ d. decl_of d ≡ declared_of declared.old (ty_of ty)) }
{
    match declared {
        Declared::Of(declarator) => declare_name(alloc, declarator, ty),
        Declared::Fixed(decl) => Ok(mem::replace(decl, no_declaration(alloc))),
    }
}

/// What is declared of the type that words say, taken out of what declares it.
pub fn declare(alloc: Global, declared: &mut Declared, base: &Base) -> Result<Decl, AllocError>
    ensures { IfOk result (λ d. decl_of d ≡ declared_of declared.old (base_of base.now)) }
{
    let ty = base_type(alloc, base)?;
    declare_of(alloc, declared, ty)
}

// A declaration of a name, of a type.
#[tactic(auto, using(crate::proofs::Functions::decl_same))]
fn declare_name(alloc: Global, declarator: &mut Declarator, ty: Ty) -> Result<Decl, AllocError>
    ensures { IfOk result (λ d. decl_of d ≡ declared_of (is.Of declarator.old) (ty_of ty)) }
{
    let ty = with_layers(alloc, &mut declarator.layers, ty)?;
    Ok(Decl {
        name: mem::replace(&mut declarator.name, no_text(alloc)),
        pos: declarator.pos,
        ty,
        first: mem::replace(&mut declarator.first, None),
    })
}

fn push_declaration(
    alloc: Global,
    decls: &mut Vec<Decl>,
    declared: &mut Declared,
    base: &Base,
) -> Result<(), AllocError>
    ensures { OnOk result (decls_of decls.new.items ≡ decls_of decls.old.items ++ declared_of declared.old (base_of base.now) ∷ []) }
{
    decls.push(declare(alloc, declared, base)?)?;
    Ok(())
}

/// Adds what is declared of the type that words say.
pub fn push_declarations(
    alloc: Global,
    decls: &mut Vec<Decl>,
    all: &mut [Declared],
    base: &Base,
) -> Result<(), AllocError>
    ensures { OnOk result (decls_of decls.new.items ≡ decls_of decls.old.items ++ all_of all.old (base_of base.now)) }
{
    for declared in all.iter_mut() {
        push_declaration(alloc, decls, declared, base)?;
    }
    Ok(())
}
