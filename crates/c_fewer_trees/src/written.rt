// Types that are written in a text, with numbers as lengths.

ghost use Rattle.std.specs.Prelude.{◌≡◌, map, IfOk, OnOk};
ghost use Rattle.c_syntax.specs.Plain as plain;
ghost use Rattle.c_syntax.specs.Plain.{tys};
ghost use Rattle.c_syntax.specs.View.{expr_of, ty_of};
ghost use Rattle.c_types.specs.Scope.{Scope};
ghost use Rattle.c_types.specs.Table.{known};
ghost use Rattle.c_types.specs.Known.{Grows};
ghost use Rattle.c_helpers.specs.Fewer as fewer;
ghost use Rattle.c_expressions.specs.Named.{tys_of};
ghost use Rattle.c_fewer_operators.specs.Here.{Stands, StandsSome};

use crate::trees::{constant_tree, text_of};
use c_fewer_operators::Here;
use c_syntax::tree::{Expr, Ty, Tys};
use c_terms::{array, array_of, function, pointer};
use c_types::Types;
use std::alloc::{AllocError, Global};

// A struct, by its tag.
fn structure(alloc: Global, name: &[u8]) -> Result<Ty, AllocError>
    ensures { IfOk result (λ t. ty_of t ≡ plain.Struct name.now) }
{
    let tag = text_of(alloc, name)?;
    Ok(Ty::Struct(tag))
}

/// A type, with numbers as lengths.
#[cycle(fewer_in_type)]
pub fn fewer_in_type(types: &mut Types<'_>, here: &Here<'_>, t: &Ty) -> Result<Ty, AllocError>
    requires { StandsSome types.old here.now }
    ensures tree { (s : Scope) → Stands types.old here.now s → IfOk result (λ r. ty_of r ≡ fewer.fewer_in_type s (ty_of t.now)) }
    ensures grows { OnOk result (Grows (known types.old) (known types.new)) }
    ensures tags { OnOk result (types.new.tags ≡ types.old.tags) }
{
    match t {
        Ty::Void => Ok(Ty::Void),
        Ty::Int => Ok(Ty::Int),
        Ty::Unsigned => Ok(Ty::Unsigned),
        Ty::Char => Ok(Ty::Char),
        Ty::UChar => Ok(Ty::UChar),
        Ty::Struct(name) => structure(here.declared.alloc, name.as_bytes()),
        Ty::Pointer(to) => {
            let tree = fewer_in_type(types, here, to)?;
            pointer(here.declared.alloc, tree)
        }
        Ty::Array(of, length) => match length {
            Some(count) => fewer_in_array(types, here, of, count),
            None => {
                let tree = fewer_in_type(types, here, of)?;
                array(here.declared.alloc, tree)
            }
        },
        Ty::Func(gives, parameters) => fewer_in_function(types, here, gives, parameters),
    }
}

// An array of a length.
#[cycle(fewer_in_type)]
fn fewer_in_array(
    types: &mut Types<'_>,
    here: &Here<'_>,
    of: &Ty,
    length: &Expr,
) -> Result<Ty, AllocError>
    requires { StandsSome types.old here.now }
    ensures tree { (s : Scope) → Stands types.old here.now s → IfOk result (λ r. ty_of r ≡ fewer.fewer_in_type s (plain.ArrayOf (ty_of of.now) (expr_of length.now))) }
    ensures grows { OnOk result (Grows (known types.old) (known types.new)) }
    ensures tags { OnOk result (types.new.tags ≡ types.old.tags) }
{
    let tree = fewer_in_type(types, here, of)?;
    let count = constant_tree(types, here, length)?;
    array_of(here.declared.alloc, tree, count.tree)
}

// A function.
#[cycle(fewer_in_type)]
fn fewer_in_function(
    types: &mut Types<'_>,
    here: &Here<'_>,
    gives: &Ty,
    parameters: &Tys,
) -> Result<Ty, AllocError>
    requires { StandsSome types.old here.now }
    ensures tree { (s : Scope) → Stands types.old here.now s → IfOk result (λ r. ty_of r ≡ fewer.fewer_in_type s (plain.Func (ty_of gives.now) (tys_of parameters.now))) }
    ensures grows { OnOk result (Grows (known types.old) (known types.new)) }
    ensures tags { OnOk result (types.new.tags ≡ types.old.tags) }
{
    let tree = fewer_in_type(types, here, gives)?;
    let trees = fewer_in_types(types, here, parameters)?;
    function(here.declared.alloc, tree, trees)
}

// The types of parameters.
#[cycle(fewer_in_type)]
fn fewer_in_types(types: &mut Types<'_>, here: &Here<'_>, all: &Tys) -> Result<Vec<Ty>, AllocError>
    requires { StandsSome types.old here.now }
    ensures trees { (s : Scope) → Stands types.old here.now s → IfOk result (λ r. tys (map ty_of r.items) ≡ fewer.fewer_in_types s (tys_of all.now)) }
    ensures grows { OnOk result (Grows (known types.old) (known types.new)) }
    ensures tags { OnOk result (types.new.tags ≡ types.old.tags) }
{
    let mut trees = Vec::new(here.declared.alloc);
    for t in &all.items {
        let tree = fewer_in_type(types, here, t)?;
        trees.push(tree)?;
    }
    Ok(trees)
}
