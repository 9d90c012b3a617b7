// The functions of a text, external by external.

ghost use Rattle.std.specs.Prelude.{◌≡◌, true, ℕ, List, [], ◌∷◌, Ok, Some, map, Option, OnOk, IfOk, IsOk};
ghost use Rattle.c_syntax.specs.View.{ty_of, decl_of, decls_of, tag_of, stmt_of, maybe_stmt, item_of, unit_of};
ghost use Rattle.c_syntax.specs.Plain as tree;
ghost use Rattle.c_types.specs.Scope.{Scope, contains};
ghost use Rattle.c_types.specs.Declarations.{scope_or};
ghost use Rattle.c_types.specs.Units as plain;
ghost use Rattle.c_types.specs.Units.{item_judged, start_scope, body_scope};
ghost use Rattle.c_types.specs.Room.{charge_of};
ghost use Rattle.c_eval.specs.Meaning.{Rules};
ghost use Rattle.c_eval.specs.Text.{item_definitions, definitions};
ghost use Rattle.c_declared.specs.Held.{Holds, HoldsSome};
ghost use Rattle.c_census.specs.Sums.{HoldsWith};
ghost use Rattle.c_signatures.specs.Signatures.{IsSignature};
ghost use Rattle.c_opening.specs.Named.{tag_in, tags_in, HasNumber};
ghost use Rattle.c_emitted.specs.Emits.{AreFiles};
ghost use Rattle.c_fitting.specs.Whole.{DefinitionIsFit, ItemIsFit, ItemsAreFit};
ghost use Rattle.c_flat.specs.Defined.{defined};
ghost use Rattle.c_flat.specs.Walk.{IsBefore, AddsFunctions, Passes, KnowsCharge, KnowsCharges};

use crate::functions::define;
use c_cells::StructKinds;
use c_declarations::declare_object;
use c_emitted::Emitter;
use c_here::Here;
use c_linked::Compiled;
use c_objects::{declare_function, declare_struct};
use c_signatures::{Signature, judge_signature};
use c_syntax::tree::{Decl, Decls, Item, Stmt, Tag, Ty};
use c_types::Types;
use std::alloc::AllocError;

// A function of a signature gets its code, and its entry stands behind those before.
fn add_signed<'t>(
    types: &mut Types<'_>,
    structs: &StructKinds,
    out: &mut Emitter<'t>,
    here: &mut Here<'t>,
    name: &'t [u8],
    f: &Signature<'t>,
    parameters: &'t Decls,
    body: &'t Stmt,
    compiled: &mut Vec<Compiled>,
) -> Result<(), AllocError>
    requires { HoldsWith types.old here.old.declared f.now }
    ensures holds { (s : Scope) → Holds types.old here.old.declared s → OnOk result (Holds types.new here.new.declared s) }
    ensures adds { (rules : Rules) (s : Scope) (g : plain.Signature) (names : List (List ℕ × Option ℕ)) → IsBefore types.old here.old structs.now out.old names s → IsSignature types.old s f.now g
        → DefinitionIsFit (defined s name.now (decls_of parameters.now.items.items) (stmt_of body.now) g) → rules.charge name.now ≡ charge_of (body_scope s name.now g) (decls_of parameters.now.items.items) (stmt_of body.now)
        → OnOk result (AddsFunctions rules out.old out.new names compiled.old.items compiled.new.items (defined s name.now (decls_of parameters.now.items.items) (stmt_of body.now) g ∷ [])) }
    ensures tags { OnOk result (types.new.tags ≡ types.old.tags) }
{
    let one = define(types, structs, out, here, name, f, parameters, body)?;
    compiled.push(one)?;
    Ok(())
}

// A function that is defined gets its code, if its signature isn't refused.
fn add_definition<'t>(
    types: &mut Types<'_>,
    structs: &StructKinds,
    out: &mut Emitter<'t>,
    here: &mut Here<'t>,
    name: &'t [u8],
    at: u32,
    gives: &Ty,
    parameters: &'t Decls,
    body: &'t Stmt,
    compiled: &mut Vec<Compiled>,
) -> Result<(), AllocError>
    requires { HoldsSome types.old here.old.declared }
    ensures holds { (s : Scope) → Holds types.old here.old.declared s → OnOk result (Holds types.new here.new.declared s) }
    ensures adds { (rules : Rules) (s : Scope) (names : List (List ℕ × Option ℕ)) → IsBefore types.old here.old structs.now out.old names s → ItemIsFit s (tree.Function name.now at (ty_of gives.now) (decls_of parameters.now.items.items) (Some (stmt_of body.now)))
        → KnowsCharge rules s (tree.Function name.now at (ty_of gives.now) (decls_of parameters.now.items.items) (Some (stmt_of body.now)))
        → OnOk result (AddsFunctions rules out.old out.new names compiled.old.items compiled.new.items (item_definitions s (tree.Function name.now at (ty_of gives.now) (decls_of parameters.now.items.items) (Some (stmt_of body.now))))) }
    ensures tags { OnOk result (types.new.tags ≡ types.old.tags) }
{
    let signature = judge_signature(types, &mut here.declared, at, gives, parameters)?;
    match signature {
        Ok(f) => add_signed(
            types, structs, out, here, name, &f, parameters, body, compiled,
        ),
        Err(_fault) => Ok(()),
    }
}

// A function gets its code, if it is defined.
fn add_body<'t>(
    types: &mut Types<'_>,
    structs: &StructKinds,
    out: &mut Emitter<'t>,
    here: &mut Here<'t>,
    name: &'t [u8],
    at: u32,
    gives: &Ty,
    parameters: &'t Decls,
    body: &'t Option<Stmt>,
    compiled: &mut Vec<Compiled>,
) -> Result<(), AllocError>
    requires { HoldsSome types.old here.old.declared }
    ensures holds { (s : Scope) → Holds types.old here.old.declared s → OnOk result (Holds types.new here.new.declared s) }
    ensures adds { (rules : Rules) (s : Scope) (names : List (List ℕ × Option ℕ)) → IsBefore types.old here.old structs.now out.old names s → ItemIsFit s (tree.Function name.now at (ty_of gives.now) (decls_of parameters.now.items.items) (maybe_stmt body.now))
        → KnowsCharge rules s (tree.Function name.now at (ty_of gives.now) (decls_of parameters.now.items.items) (maybe_stmt body.now))
        → OnOk result (AddsFunctions rules out.old out.new names compiled.old.items compiled.new.items (item_definitions s (tree.Function name.now at (ty_of gives.now) (decls_of parameters.now.items.items) (maybe_stmt body.now)))) }
    ensures tags { OnOk result (types.new.tags ≡ types.old.tags) }
{
    match body {
        Some(there) => add_definition(
            types, structs, out, here, name, at, gives, parameters, there, compiled,
        ),
        None => Ok(()),
    }
}

// A function gets its code, if it is defined, and is declared from then on.
fn take_function<'t>(
    types: &mut Types<'_>,
    structs: &StructKinds,
    out: &mut Emitter<'t>,
    here: &mut Here<'t>,
    name: &'t [u8],
    at: u32,
    gives: &Ty,
    parameters: &'t Decls,
    body: &'t Option<Stmt>,
    compiled: &mut Vec<Compiled>,
) -> Result<(), AllocError>
    requires { HoldsSome types.old here.old.declared }
    ensures some { OnOk result (HoldsSome types.new here.new.declared) }
    ensures passes { (rules : Rules) (s : Scope) (names : List (List ℕ × Option ℕ)) → IsBefore types.old here.old structs.now out.old names s → IsOk (item_judged s (tree.Function name.now at (ty_of gives.now) (decls_of parameters.now.items.items) (maybe_stmt body.now)))
        → ItemIsFit s (tree.Function name.now at (ty_of gives.now) (decls_of parameters.now.items.items) (maybe_stmt body.now)) → KnowsCharge rules s (tree.Function name.now at (ty_of gives.now) (decls_of parameters.now.items.items) (maybe_stmt body.now))
        → OnOk result (Passes rules types.new here.new structs.now out.old out.new names compiled.old.items compiled.new.items (scope_or s (item_judged s (tree.Function name.now at (ty_of gives.now) (decls_of parameters.now.items.items) (maybe_stmt body.now)))) (item_definitions s (tree.Function name.now at (ty_of gives.now) (decls_of parameters.now.items.items) (maybe_stmt body.now)))) }
    ensures tags { OnOk result (types.new.tags ≡ types.old.tags) }
{
    add_body(
        types, structs, out, here, name, at, gives, parameters, body, compiled,
    )?;
    let defines = body.is_some();
    declare_function(
        types,
        &mut here.declared,
        name,
        at,
        gives,
        parameters,
        defines,
    )
}

// An object is declared.
fn take_object<'t>(
    types: &mut Types<'_>,
    structs: &StructKinds,
    out: &Emitter<'t>,
    here: &mut Here<'t>,
    d: &'t Decl,
    compiled: &Vec<Compiled>,
) -> Result<(), AllocError>
    requires { HoldsSome types.old here.old.declared }
    ensures some { OnOk result (HoldsSome types.new here.new.declared) }
    ensures passes { (rules : Rules) (s : Scope) (names : List (List ℕ × Option ℕ)) → IsBefore types.old here.old structs.now out.now names s → IsOk (item_judged s (tree.Object (decl_of d.now)))
        → OnOk result (Passes rules types.new here.new structs.now out.now out.now names compiled.now.items compiled.now.items (scope_or s (item_judged s (tree.Object (decl_of d.now)))) []) }
    ensures tags { OnOk result (types.new.tags ≡ types.old.tags) }
{
    let _structs = structs;
    let _out = out;
    let _compiled = compiled;
    declare_object(types, &mut here.declared, true, d)?;
    Ok(())
}

// A tag is declared.
fn take_struct<'t>(
    types: &mut Types<'_>,
    structs: &mut StructKinds,
    out: &Emitter<'t>,
    here: &mut Here<'t>,
    tag: &'t Tag,
    compiled: &Vec<Compiled>,
) -> Result<(), AllocError>
    requires holds { HoldsSome types.old here.old.declared }
    requires numbered { HasNumber types.old tag.now.name }
    ensures some { OnOk result (HoldsSome types.new here.new.declared) }
    ensures passes { (rules : Rules) (s : Scope) (names : List (List ℕ × Option ℕ)) → IsBefore types.old here.old structs.old out.now names s
        → OnOk result (Passes rules types.new here.new structs.new out.now out.now names compiled.now.items compiled.now.items (scope_or s (item_judged s (tree.StructItem (tag_of tag.now)))) []) }
    ensures tags { OnOk result (types.new.tags ≡ types.old.tags) }
{
    let _out = out;
    let _compiled = compiled;
    declare_struct(types, &mut here.declared, structs, tag)
}

// An external: a function that is defined gets its code, and what is declared is known from then on.
fn take_item<'t>(
    types: &mut Types<'_>,
    structs: &mut StructKinds,
    out: &mut Emitter<'t>,
    here: &mut Here<'t>,
    item: &'t Item,
    compiled: &mut Vec<Compiled>,
) -> Result<(), AllocError>
    requires holds { HoldsSome types.old here.old.declared }
    requires numbered { (name : List ℕ) → tag_in (item_of item.now) ≡ Some name → HasNumber types.old name }
    ensures some { OnOk result (HoldsSome types.new here.new.declared) }
    ensures passes { (rules : Rules) (s : Scope) (names : List (List ℕ × Option ℕ)) → IsBefore types.old here.old structs.old out.old names s → IsOk (item_judged s (item_of item.now)) → ItemIsFit s (item_of item.now) → KnowsCharge rules s (item_of item.now)
        → OnOk result (Passes rules types.new here.new structs.new out.old out.new names compiled.old.items compiled.new.items (scope_or s (item_judged s (item_of item.now))) (item_definitions s (item_of item.now))) }
    ensures tags { OnOk result (types.new.tags ≡ types.old.tags) }
{
    match item {
        Item::Struct(tag) => take_struct(types, structs, out, here, tag, compiled),
        Item::Object(d) => take_object(types, structs, out, here, d, compiled),
        Item::Function {
            name,
            pos,
            result: gives,
            params,
            body,
        } => take_function(
            types,
            structs,
            out,
            here,
            name.as_bytes(),
            *pos,
            gives,
            params,
            body,
            compiled,
        ),
    }
}

/// The functions of externals get their code, and their entries stand behind those before.
pub fn take_items<'t>(
    types: &mut Types<'_>,
    structs: &mut StructKinds,
    out: &mut Emitter<'t>,
    here: &mut Here<'t>,
    items: &'t [Item],
    compiled: &mut Vec<Compiled>,
) -> Result<(), AllocError>
    requires holds { HoldsSome types.old here.old.declared }
    requires numbered { (name : List ℕ) → contains (tags_in (map item_of items.now)) name ≡ true → HasNumber types.old name }
    ensures { (rules : Rules) (s : Scope) (names : List (List ℕ × Option ℕ)) → IsBefore types.old here.old structs.old out.old names s → ItemsAreFit s (map item_of items.now) → KnowsCharges rules s (map item_of items.now)
        → OnOk result (AddsFunctions rules out.old out.new names compiled.old.items compiled.new.items (definitions s (map item_of items.now))) }
{
    for item in items {
        take_item(types, structs, out, here, item, compiled)?;
    }
    Ok(())
}
