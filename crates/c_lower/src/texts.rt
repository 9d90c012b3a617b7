// The string literals of first values at file scope, one external after the other.

ghost use Rattle.std.specs.Prelude.{◌≡◌, ℕ, List, map, true, Ok, Some, IsOk, IfOk, OnOk};
ghost use Rattle.c_syntax.specs.Plain as tree;
ghost use Rattle.c_syntax.specs.View.{decl_of, decls_of, ty_of, tag_of, maybe_stmt, item_of, unit_of};
ghost use Rattle.c_types.specs.Scope.{Scope, contains};
ghost use Rattle.c_types.specs.Units.{item_judged, all_items, start_scope};
ghost use Rattle.c_eval.specs.Environment.{Environment};
ghost use Rattle.c_eval.specs.Text.{file_start};
ghost use Rattle.c_types.specs.Table as table;
ghost use Rattle.c_declared.specs.Held.{Holds, HoldsSome};
ghost use Rattle.c_opening.specs.Named.{tag_in, tags_in, HasNumber};
ghost use Rattle.c_lowered.specs.Whole.{file_literals};
ghost use Rattle.c_lower_literals.specs.Gathered.{Adds};
ghost use Rattle.c_lower.specs.Texts.{Passes};

use c_declarations::{declare_object, declare_tag};
use c_lower_literals::first_literals;
use c_objects::declare_function;
use c_opening::open;
use c_operands::Declarations;
use c_syntax::tree::{Decl, Decls, Item, Stmt, Tag, Ty, Unit};
use c_types::Types;
use std::alloc::{AllocError, Global};

// An object is declared, if it isn't refused; its literals stand behind others.
fn take_object<'t>(
    types: &mut Types<'_>,
    declared: &mut Declarations<'t>,
    d: &'t Decl,
    texts: &mut Vec<&'t [u8]>,
) -> Result<(), AllocError>
    requires { HoldsSome types.old declared.old }
    ensures some { OnOk result (HoldsSome types.new declared.new) }
    ensures passes { (here : Environment) → Holds types.old declared.old here.scope → OnOk result (Passes types.new declared.new texts.old.items texts.new.items (tree.Object (decl_of d.now)) here) }
    ensures tags { OnOk result (types.new.tags ≡ types.old.tags) }
{
    declare_object(types, declared, true, d)?;
    first_literals(declared, &d.first, texts)?;
    Ok(())
}

// A tag is declared, if it isn't refused.
fn take_struct<'t>(
    types: &mut Types<'_>,
    declared: &mut Declarations<'t>,
    tag: &'t Tag,
    texts: &Vec<&'t [u8]>,
) -> Result<(), AllocError>
    requires holds { HoldsSome types.old declared.old }
    requires numbered { HasNumber types.old tag.now.name }
    ensures some { OnOk result (HoldsSome types.new declared.new) }
    ensures passes { (here : Environment) → Holds types.old declared.old here.scope → OnOk result (Passes types.new declared.new texts.now.items texts.now.items (tree.StructItem (tag_of tag.now)) here) }
    ensures tags { OnOk result (types.new.tags ≡ types.old.tags) }
{
    let _texts = texts;
    declare_tag(types, declared, tag)?;
    Ok(())
}

// A function is declared; its body isn't looked at.
fn take_function<'t>(
    types: &mut Types<'_>,
    declared: &mut Declarations<'t>,
    name: &'t [u8],
    at: u32,
    gives: &Ty,
    parameters: &'t Decls,
    body: &'t Option<Stmt>,
    texts: &Vec<&'t [u8]>,
) -> Result<(), AllocError>
    requires { HoldsSome types.old declared.old }
    ensures some { OnOk result (HoldsSome types.new declared.new) }
    ensures passes { (here : Environment) → Holds types.old declared.old here.scope → IsOk (item_judged here.scope (tree.Function name.now at (ty_of gives.now) (decls_of parameters.now.items.items) (maybe_stmt body.now)))
        → OnOk result (Passes types.new declared.new texts.now.items texts.now.items (tree.Function name.now at (ty_of gives.now) (decls_of parameters.now.items.items) (maybe_stmt body.now)) here) }
    ensures tags { OnOk result (types.new.tags ≡ types.old.tags) }
{
    let _texts = texts;
    let defines = body.is_some();
    declare_function(types, declared, name, at, gives, parameters, defines)
}

// An external is declared, and its literals stand behind others.
fn take_item<'t>(
    types: &mut Types<'_>,
    declared: &mut Declarations<'t>,
    item: &'t Item,
    texts: &mut Vec<&'t [u8]>,
) -> Result<(), AllocError>
    requires holds { HoldsSome types.old declared.old }
    requires numbered { (name : List ℕ) → tag_in (item_of item.now) ≡ Some name → HasNumber types.old name }
    ensures some { OnOk result (HoldsSome types.new declared.new) }
    ensures passes { (here : Environment) → Holds types.old declared.old here.scope → IsOk (item_judged here.scope (item_of item.now)) → OnOk result (Passes types.new declared.new texts.old.items texts.new.items (item_of item.now) here) }
    ensures tags { OnOk result (types.new.tags ≡ types.old.tags) }
{
    match item {
        Item::Struct(tag) => take_struct(types, declared, tag, texts),
        Item::Object(d) => take_object(types, declared, d, texts),
        Item::Function {
            name,
            pos,
            result: gives,
            params,
            body,
        } => take_function(
            types,
            declared,
            name.as_bytes(),
            *pos,
            gives,
            params,
            body,
            texts,
        ),
    }
}

// The literals of externals stand behind others.
fn take_items<'t>(
    types: &mut Types<'_>,
    declared: &mut Declarations<'t>,
    items: &'t [Item],
    texts: &mut Vec<&'t [u8]>,
) -> Result<(), AllocError>
    requires holds { HoldsSome types.old declared.old }
    requires numbered { (name : List ℕ) → contains (tags_in (map item_of items.now)) name ≡ true → HasNumber types.old name }
    ensures { (here : Environment) (end : Scope) → Holds types.old declared.old here.scope → all_items here.scope (map item_of items.now) ≡ Ok end → OnOk result (Adds texts.old.items texts.new.items (file_literals (map item_of items.now) here)) }
{
    for item in items {
        take_item(types, declared, item, texts)?;
    }
    Ok(())
}

/// The texts of the string literals of a typed text's first values at file scope.
pub fn file_texts<'t>(alloc: Global, unit: &'t Unit) -> Result<Vec<&'t [u8]>, AllocError>
    ensures { (end : Scope) → all_items (start_scope (unit_of unit.now)) (unit_of unit.now).items ≡ Ok end → IfOk result (λ v. table.texts v.items ≡ file_literals (unit_of unit.now).items (file_start (unit_of unit.now))) }
{
    let opening = open(alloc, unit)?;
    let mut types = opening.types;
    let mut declared = opening.declared;
    let mut texts = Vec::new(alloc);
    let items = unit.items.items.as_slice();
    take_items(&mut types, &mut declared, items, &mut texts)?;
    Ok(texts)
}
