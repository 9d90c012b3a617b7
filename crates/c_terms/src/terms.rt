// Types by number, as trees.

ghost use Rattle.std.specs.Prelude.{◌≡◌, ◌<◌, ◌++◌, ℕ, List, Some, length, map, slice_get, IfOk, OnOk};
ghost use denote.Ref.{Bor};
ghost use Rattle.c_syntax.specs.View.{ty_of};
ghost use Rattle.c_types.specs.Types.{CType, CTypes, Function};
ghost use Rattle.c_types.specs.Table.{texts, known, HasType};
ghost use Rattle.c_operands.specs.Arguments.{first_type, HasList};
ghost use Rattle.c_helpers.specs.Fewer as fewer;
ghost use Rattle.c_terms.specs.Trees.{trees_of};

use crate::expressions::number;
use crate::types::{array, array_of, function, pointer};
use c_operands::first_type;
use c_syntax::text::Text;
use c_syntax::tree::Ty;
use c_types::{Shape, Types};
use std::alloc::{AllocError, Global};

// The name of a tag by its number.
fn tag_text(alloc: Global, tags: &[&[u8]], tag: usize) -> Result<Text, AllocError>
    ensures { (key : Bor (List ℕ)) → slice_get tags.now tag ≡ Some key → IfOk result (λ t. t ≡ key.now) }
{
    match tags.get(tag) {
        Some(name) => {
            let text = Vec::from_slice(alloc, name)?;
            Ok(Text::from_bytes(text))
        }
        None => Ok(Text::from_bytes(Vec::new(alloc))),
    }
}

// An array of so many elements of a type, or one whose length is left open. A length of 2^32 or more is want of memory.
fn array_tree(alloc: Global, ty: Ty, count: usize) -> Result<Ty, AllocError>
    ensures { IfOk result (λ t. ty_of t ≡ fewer.array_tree (ty_of ty) count) }
{
    if count == 0 {
        return array(alloc, ty);
    }
    if count >= 4294967296 {
        return Err(AllocError);
    }
    array_of(alloc, ty, number(0, count as u32, false))
}

/// The tree of a type, where the names of the tags are given in the order of their numbers.
#[cycle(type_tree)]
pub fn type_tree(
    alloc: Global,
    types: &Types<'_>,
    tags: &[&[u8]],
    ty: usize,
) -> Result<Ty, AllocError>
    requires { ty < length (known types.now) }
    ensures { (t : CType) → texts tags.now ≡ types.now.tags → HasType types.now ty t → IfOk result (λ r. ty_of r ≡ fewer.type_tree t) }
{
    let shape = types.shape(ty);
    match shape {
        Shape::Int => Ok(Ty::Int),
        Shape::Unsigned => Ok(Ty::Unsigned),
        Shape::Char => Ok(Ty::Char),
        Shape::UChar => Ok(Ty::UChar),
        Shape::Struct(tag) => {
            let name = tag_text(alloc, tags, tag)?;
            Ok(Ty::Struct(name))
        }
        Shape::Pointer(to) => {
            let tree = type_tree(alloc, types, tags, to)?;
            pointer(alloc, tree)
        }
        Shape::Array(of, count) => {
            let tree = type_tree(alloc, types, tags, of)?;
            array_tree(alloc, tree, count)
        }
        Shape::Function(gives, parameters) => {
            function_tree(alloc, types, tags, gives, parameters)
        }
        Shape::Void => Ok(Ty::Void),
        Shape::Null => Ok(Ty::Void),
        Shape::NoType => Ok(Ty::Void),
        Shape::MoreType(_ty, _behind) => Ok(Ty::Void),
    }
}

// The tree of the type of a function.
#[cycle(type_tree)]
fn function_tree(
    alloc: Global,
    types: &Types<'_>,
    tags: &[&[u8]],
    gives: usize,
    parameters: usize,
) -> Result<Ty, AllocError>
    requires gives { gives < length (known types.now) }
    requires parameters { parameters < length (known types.now) }
    ensures { (t : CType) (ts : CTypes) → texts tags.now ≡ types.now.tags → HasType types.now gives t → HasList types.now parameters ts → IfOk result (λ r. ty_of r ≡ fewer.type_tree (Function t ts)) }
{
    let tree = type_tree(alloc, types, tags, gives)?;
    let mut trees = Vec::new(alloc);
    add_trees(alloc, types, tags, parameters, &mut trees)?;
    function(alloc, tree, trees)
}

// The trees of the types of a list, behind others.
#[cycle(type_tree)]
fn add_trees(
    alloc: Global,
    types: &Types<'_>,
    tags: &[&[u8]],
    list: usize,
    trees: &mut Vec<Ty>,
) -> Result<(), AllocError>
    requires { list < length (known types.now) }
    ensures { (ts : CTypes) → texts tags.now ≡ types.now.tags → HasList types.now list ts → OnOk result (map ty_of trees.new.items ≡ map ty_of trees.old.items ++ trees_of ts) }
{
    let shape = types.shape(list);
    match first_type(shape) {
        Some((ty, behind)) => {
            let tree = type_tree(alloc, types, tags, ty)?;
            trees.push(tree)?;
            add_trees(alloc, types, tags, behind, trees)
        }
        None => Ok(()),
    }
}
