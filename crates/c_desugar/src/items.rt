// Externals, one after the other.

ghost use Rattle.std.specs.Prelude.{◌≡◌, ℕ, List, map, true, Ok, Some, IsOk, IfOk, OnOk};
ghost use Rattle.c_syntax.specs.Plain as tree;
ghost use Rattle.c_syntax.specs.View.{decl_of, tag_of, ty_of, decls_of, maybe_stmt, item_of};
ghost use Rattle.c_types.specs.Scope.{Scope, contains};
ghost use Rattle.c_types.specs.Units.{item_judged, all_items};
ghost use Rattle.c_types.specs.Table.{known};
ghost use Rattle.c_opening.specs.Named.{tag_in, tags_in, HasNumber};
ghost use Rattle.c_helpers.specs.Fewer as fewer;
ghost use Rattle.c_fewer_declarations.specs.Standing.{StandsIn, StandsInSome};
ghost use Rattle.c_desugar.specs.Passed.{IsPassed};

use crate::functions::take_function;
use c_fewer_externals::{fewer_in_object, fewer_in_struct};
use c_fewer_operators::Here;
use c_syntax::text::Text;
use c_syntax::tree::{Decl, Decls, Item, Stmt, Tag, Ty};
use c_types::Types;
use std::alloc::AllocError;

// A struct.
fn pass_struct<'t>(
    types: &mut Types<'_>,
    here: &mut Here<'t>,
    tag: &'t Tag,
) -> Result<Item, AllocError>
    requires stands { StandsInSome types.old here.old }
    requires numbered { HasNumber types.old tag.now.name }
    ensures some { OnOk result (StandsInSome types.new here.new) }
    ensures passed { (s : Scope) → StandsIn types.old here.old s → IsOk (item_judged s (tree.StructItem (tag_of tag.now))) → IfOk result (λ r. IsPassed types.new here.new s r (tree.StructItem (tag_of tag.now))) }
    ensures tags { OnOk result (types.new.tags ≡ types.old.tags) }
{
    let made = fewer_in_struct(types, here, tag)?;
    Ok(Item::Struct(made))
}

// An object.
fn pass_object<'t>(
    types: &mut Types<'_>,
    here: &mut Here<'t>,
    d: &'t Decl,
) -> Result<Item, AllocError>
    requires { StandsInSome types.old here.old }
    ensures some { OnOk result (StandsInSome types.new here.new) }
    ensures passed { (s : Scope) → StandsIn types.old here.old s → IsOk (item_judged s (tree.Object (decl_of d.now))) → IfOk result (λ r. IsPassed types.new here.new s r (tree.Object (decl_of d.now))) }
    ensures tags { OnOk result (types.new.tags ≡ types.old.tags) }
{
    let made = fewer_in_object(types, here, d)?;
    Ok(Item::Object(made))
}

// A function.
fn pass_function<'t>(
    types: &mut Types<'_>,
    here: &mut Here<'t>,
    name: &'t Text,
    at: u32,
    gives: &Ty,
    parameters: &'t Decls,
    body: &'t Option<Stmt>,
) -> Result<Item, AllocError>
    requires { StandsInSome types.old here.old }
    ensures some { OnOk result (StandsInSome types.new here.new) }
    ensures passed { (s : Scope) → StandsIn types.old here.old s → IsOk (item_judged s (tree.Function name.now at (ty_of gives.now) (decls_of parameters.now.items.items) (maybe_stmt body.now))) → IfOk result (λ r. IsPassed types.new here.new s r (tree.Function name.now at (ty_of gives.now) (decls_of parameters.now.items.items) (maybe_stmt body.now))) }
    ensures tags { OnOk result (types.new.tags ≡ types.old.tags) }
{
    take_function(types, here, name, at, gives, parameters, body)
}

// An external.
fn pass_item<'t>(
    types: &mut Types<'_>,
    here: &mut Here<'t>,
    item: &'t Item,
) -> Result<Item, AllocError>
    requires stands { StandsInSome types.old here.old }
    requires numbered { (name : List ℕ) → tag_in (item_of item.now) ≡ Some name → HasNumber types.old name }
    ensures some { OnOk result (StandsInSome types.new here.new) }
    ensures passed { (s : Scope) → StandsIn types.old here.old s → IsOk (item_judged s (item_of item.now)) → IfOk result (λ r. IsPassed types.new here.new s r (item_of item.now)) }
    ensures tags { OnOk result (types.new.tags ≡ types.old.tags) }
{
    match item {
        Item::Struct(tag) => pass_struct(types, here, tag),
        Item::Object(d) => pass_object(types, here, d),
        Item::Function {
            name,
            pos,
            result: gives,
            params,
            body,
        } => pass_function(types, here, name, *pos, gives, params, body),
    }
}

/// The externals of a typed text.
pub fn pass_items<'t>(
    types: &mut Types<'_>,
    here: &mut Here<'t>,
    items: &'t [Item],
) -> Result<Vec<Item>, AllocError>
    requires stands { StandsInSome types.old here.old }
    requires numbered { (name : List ℕ) → contains (tags_in (map item_of items.now)) name ≡ true → HasNumber types.old name }
    ensures { (s end : Scope) → StandsIn types.old here.old s → all_items s (map item_of items.now) ≡ Ok end → IfOk result (λ r. map item_of r.items ≡ fewer.fewer_in_items s (map item_of items.now)) }
{
    let mut trees = Vec::new(here.declared.alloc);
    for item in items {
        let tree = pass_item(types, here, item)?;
        trees.push(tree)?;
    }
    Ok(trees)
}
