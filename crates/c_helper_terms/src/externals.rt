// Helper functions as externals of a text.

ghost use Rattle.std.specs.Prelude.{◌≡◌, ◌++◌, map, IfOk, OnOk};
ghost use Rattle.c_syntax.specs.View.{decl_of, decls_of, item_of};
ghost use Rattle.c_types.specs.Room.{Multiply};
ghost use Rattle.c_helpers.specs.Terms.{declaration};
ghost use Rattle.c_helpers.specs.Fewer.{function_of};
ghost use Rattle.c_helpers.specs.Functions.{compound};
ghost use Rattle.c_helper_steps.specs.Postfix.{tree_of};
ghost use Rattle.c_helper_terms.specs.Helpers.{parameter_of, external, compound_of, fixed};

use crate::tables::{CHANGED, Helper, OPERATORS, POINTERS, PRINTING, SIGNS, TOLD};
use c_helper_steps::{Step, TypeName, made};
use c_syntax::text::Text;
use c_syntax::tree::{Decl, Decls, Item};
use std::alloc::{AllocError, Global};

// A parameter, which stands at no place.
fn parameter(alloc: Global, ty: TypeName, name: &[u8]) -> Result<Decl, AllocError>
    ensures { IfOk result (λ d. decl_of d ≡ declaration (tree_of ty) name.now) }
{
    let ty = ty.tree(alloc)?;
    let name = Text::from_bytes(Vec::from_slice(alloc, name)?);
    Ok(Decl {
        name,
        pos: 0,
        ty,
        first: None,
    })
}

// The parameters of a helper function.
fn parameters(alloc: Global, all: &[(TypeName, &[u8])]) -> Result<Vec<Decl>, AllocError>
    ensures { IfOk result (λ ds. decls_of ds.items ≡ map parameter_of all.now) }
{
    let mut items = Vec::new(alloc);
    for row in all {
        let item = parameter(alloc, row.0, row.1)?;
        items.push(item)?;
    }
    Ok(items)
}

// A helper function as an external.
fn external(alloc: Global, helper: &Helper<'_>) -> Result<Item, AllocError>
    ensures { IfOk result (λ i. item_of i ≡ external helper.now) }
{
    let result = helper.gives.tree(alloc)?;
    let name = Text::from_bytes(Vec::from_slice(alloc, helper.name)?);
    let items = parameters(alloc, helper.parameters)?;
    let body = made(alloc, helper.body)?;
    Ok(Item::Function {
        name,
        pos: 0,
        result,
        params: Decls { items },
        body: Some(body),
    })
}

// The compound assignment by an operator, under a name.
fn compound(alloc: Global, sign: &[u8], name: &[u8]) -> Result<Item, AllocError>
    ensures { IfOk result (λ i. item_of i ≡ function_of (record (compound sign.now Multiply) { name = name.now })) }
{
    let body = [
        Step::Open,
        Step::Name(b"p"),
        Step::Cast(TypeName::ToInt),
        Step::Deref,
        Step::Name(b"p"),
        Step::Cast(TypeName::ToInt),
        Step::Deref,
        Step::Argument,
        Step::Name(b"b"),
        Step::Argument,
        Step::Call(sign),
        Step::Assign,
        Step::Return,
        Step::Close,
    ];
    let helper = Helper {
        name,
        gives: TypeName::Int,
        parameters: &CHANGED,
        body: &body,
    };
    external(alloc, &helper)
}

// The helper functions of a table, behind other externals.
fn add_helpers(
    alloc: Global,
    helpers: &[Helper<'_>],
    items: &mut Vec<Item>,
) -> Result<(), AllocError>
    ensures { OnOk result (map item_of items.new.items ≡ map item_of items.old.items ++ map external helpers.now) }
{
    for row in helpers {
        let item = external(alloc, row)?;
        items.push(item)?;
    }
    Ok(())
}

// The compound assignments by operators of these signs, behind other externals.
fn add_compounds(
    alloc: Global,
    signs: &[(&[u8], &[u8])],
    items: &mut Vec<Item>,
) -> Result<(), AllocError>
    ensures { OnOk result (map item_of items.new.items ≡ map item_of items.old.items ++ map compound_of signs.now) }
{
    for row in signs {
        let item = compound(alloc, row.0, row.1)?;
        items.push(item)?;
    }
    Ok(())
}

/// The helper functions that stand in each text, behind other externals.
pub fn add_fixed(alloc: Global, items: &mut Vec<Item>) -> Result<(), AllocError>
    ensures { OnOk result (map item_of items.new.items ≡ map item_of items.old.items ++ map function_of fixed) }
{
    add_helpers(alloc, &TOLD, items)?;
    add_helpers(alloc, &OPERATORS, items)?;
    add_compounds(alloc, &SIGNS, items)?;
    add_helpers(alloc, &POINTERS, items)?;
    add_helpers(alloc, &PRINTING, items)
}
