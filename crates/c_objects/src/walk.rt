// The externals of a text, one after the other.

ghost use Rattle.std.specs.Prelude.{◌≡◌, ℕ, List, map, true, Ok, Some, IsOk, OnOk};
ghost use Rattle.c_syntax.specs.Plain as tree;
ghost use Rattle.c_syntax.specs.View.{decl_of, decls_of, ty_of, tag_of, maybe_stmt, item_of};
ghost use Rattle.c_types.specs.Scope.{Scope, contains};
ghost use Rattle.c_types.specs.Units.{item_judged, all_items};
ghost use Rattle.c_types.specs.Table.{known};
ghost use Rattle.c_types.specs.Known.{Grows};
ghost use Rattle.c_declared.specs.Held.{Holds, HoldsSome};
ghost use Rattle.c_cells.specs.Structs.{AreStructKinds};
ghost use Rattle.c_eval.specs.State as run;
ghost use Rattle.c_eval.specs.Environment.{Environment};
ghost use Rattle.c_eval.specs.Text as text;
ghost use Rattle.c_eval.specs.Text.{behind_item, behind_items, item_objects};
ghost use Rattle.c_opening.specs.Named.{tag_in, tags_in, HasNumber};
ghost use Rattle.c_objects.specs.Made.{IsFile, Makes};

use crate::externals::{declare_function, declare_struct};
use crate::objects::add_object;
use c_cells::StructKinds;
use c_declarations::{declare_object, declared_type};
use c_emitted::Emitter;
use c_operands::Declarations;
use c_syntax::tree::{Decl, Decls, Item, Stmt, Tag, Ty};
use c_types::Types;
use std::alloc::AllocError;

// An object is declared, if it isn't refused, and made with its first value.
fn take_object<'t>(
    types: &mut Types<'_>,
    declared: &mut Declarations<'t>,
    structs: &StructKinds,
    out: &mut Emitter<'t>,
    d: &'t Decl,
) -> Result<(), AllocError>
    requires { HoldsSome types.old declared.old }
    ensures some { OnOk result (HoldsSome types.new declared.new) }
    ensures makes { (here : Environment) (new : List (List run.Cell)) → IsFile types.old declared.old out.old here new → AreStructKinds types.old structs.now here.scope.tags → IsOk (item_judged here.scope (tree.Object (decl_of d.now))) → OnOk result (Makes types.new declared.new structs.now out.new (behind_item (tree.Object (decl_of d.now)) here) new (item_objects (tree.Object (decl_of d.now)) here)) }
    ensures grows { OnOk result (Grows (known types.old) (known types.new)) }
    ensures tags { OnOk result (types.new.tags ≡ types.old.tags) }
{
    let ty = declared_type(types, declared, d)?;
    declare_object(types, declared, true, d)?;
    match ty {
        Ok(number) => {
            let name = d.name.as_bytes();
            add_object(types, declared, structs, out, name, number, &d.first)
        }
        Err(_fault) => Ok(()),
    }
}

// A tag is declared, if it isn't refused.
fn take_struct<'t>(
    types: &mut Types<'_>,
    declared: &mut Declarations<'t>,
    structs: &mut StructKinds,
    out: &Emitter<'t>,
    tag: &'t Tag,
) -> Result<(), AllocError>
    requires holds { HoldsSome types.old declared.old }
    requires numbered { HasNumber types.old tag.now.name }
    ensures some { OnOk result (HoldsSome types.new declared.new) }
    ensures makes { (here : Environment) (new : List (List run.Cell)) → IsFile types.old declared.old out.now here new → AreStructKinds types.old structs.old here.scope.tags → IsOk (item_judged here.scope (tree.StructItem (tag_of tag.now))) → OnOk result (Makes types.new declared.new structs.new out.now (behind_item (tree.StructItem (tag_of tag.now)) here) new (item_objects (tree.StructItem (tag_of tag.now)) here)) }
    ensures grows { OnOk result (Grows (known types.old) (known types.new)) }
    ensures tags { OnOk result (types.new.tags ≡ types.old.tags) }
{
    let _out = out;
    declare_struct(types, declared, structs, tag)
}

// A function is declared.
fn take_function<'t>(
    types: &mut Types<'_>,
    declared: &mut Declarations<'t>,
    structs: &StructKinds,
    out: &Emitter<'t>,
    name: &'t [u8],
    at: u32,
    gives: &Ty,
    parameters: &'t Decls,
    body: &'t Option<Stmt>,
) -> Result<(), AllocError>
    requires { HoldsSome types.old declared.old }
    ensures some { OnOk result (HoldsSome types.new declared.new) }
    ensures makes { (here : Environment) (new : List (List run.Cell)) → IsFile types.old declared.old out.now here new → AreStructKinds types.old structs.now here.scope.tags → IsOk (item_judged here.scope (tree.Function name.now at (ty_of gives.now) (decls_of parameters.now.items.items) (maybe_stmt body.now))) → OnOk result (Makes types.new declared.new structs.now out.now (behind_item (tree.Function name.now at (ty_of gives.now) (decls_of parameters.now.items.items) (maybe_stmt body.now)) here) new (item_objects (tree.Function name.now at (ty_of gives.now) (decls_of parameters.now.items.items) (maybe_stmt body.now)) here)) }
    ensures grows { OnOk result (Grows (known types.old) (known types.new)) }
    ensures tags { OnOk result (types.new.tags ≡ types.old.tags) }
{
    let _structs = structs;
    let _out = out;
    let defines = body.is_some();
    declare_function(types, declared, name, at, gives, parameters, defines)
}

// An external is declared, and made if it is an object.
fn take_item<'t>(
    types: &mut Types<'_>,
    declared: &mut Declarations<'t>,
    structs: &mut StructKinds,
    out: &mut Emitter<'t>,
    item: &'t Item,
) -> Result<(), AllocError>
    requires holds { HoldsSome types.old declared.old }
    requires numbered { (name : List ℕ) → tag_in (item_of item.now) ≡ Some name → HasNumber types.old name }
    ensures some { OnOk result (HoldsSome types.new declared.new) }
    ensures makes { (here : Environment) (new : List (List run.Cell)) → IsFile types.old declared.old out.old here new → AreStructKinds types.old structs.old here.scope.tags → IsOk (item_judged here.scope (item_of item.now)) → OnOk result (Makes types.new declared.new structs.new out.new (behind_item (item_of item.now) here) new (item_objects (item_of item.now) here)) }
    ensures grows { OnOk result (Grows (known types.old) (known types.new)) }
    ensures tags { OnOk result (types.new.tags ≡ types.old.tags) }
{
    match item {
        Item::Struct(tag) => take_struct(types, declared, structs, out, tag),
        Item::Object(d) => take_object(types, declared, structs, out, d),
        Item::Function {
            name,
            pos,
            result: gives,
            params,
            body,
        } => take_function(
            types,
            declared,
            structs,
            out,
            name.as_bytes(),
            *pos,
            gives,
            params,
            body,
        ),
    }
}

/// The objects of file scope of a typed text are made, and what its externals declare is declared.
pub fn file_objects<'t>(
    types: &mut Types<'_>,
    declared: &mut Declarations<'t>,
    structs: &mut StructKinds,
    out: &mut Emitter<'t>,
    items: &'t [Item],
) -> Result<(), AllocError>
    requires holds { HoldsSome types.old declared.old }
    requires numbered { (name : List ℕ) → contains (tags_in (map item_of items.now)) name ≡ true → HasNumber types.old name }
    ensures { (here : Environment) (end : Scope) (new : List (List run.Cell)) → IsFile types.old declared.old out.old here new → AreStructKinds types.old structs.old here.scope.tags → all_items here.scope (map item_of items.now) ≡ Ok end → OnOk result (Makes types.new declared.new structs.new out.new (behind_items (map item_of items.now) here) new (text.file_objects (map item_of items.now) here)) }
{
    for item in items {
        take_item(types, declared, structs, out, item)?;
    }
    Ok(())
}
