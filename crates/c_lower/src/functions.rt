// The code of functions, external by external.

ghost use Rattle.std.specs.Prelude.{◌≡◌, true, ℕ, List, [], ◌∷◌, Ok, Some, map, Option, IfOk, OnOk, IsOk};
ghost use Rattle.c_syntax.specs.Plain as tree;
ghost use Rattle.c_syntax.specs.View.{ty_of, decl_of, decls_of, tag_of, stmt_of, maybe_stmt, item_of};
ghost use Rattle.c_types.specs.Scope.{Scope, contains};
ghost use Rattle.c_types.specs.Declarations.{scope_or};
ghost use Rattle.c_types.specs.Units as plain;
ghost use Rattle.c_types.specs.Units.{item_judged, all_items};
ghost use Rattle.c_eval.specs.Text.{item_definitions, definitions};
ghost use Rattle.c_declared.specs.Held.{Holds, HoldsSome};
ghost use Rattle.c_census.specs.Sums.{HoldsWith};
ghost use Rattle.c_signatures.specs.Signatures.{IsSignature};
ghost use Rattle.c_opening.specs.Named.{tag_in, tags_in, HasNumber};
ghost use Rattle.c_fitting.specs.Blocks.{DeclaresInBlocks, ItemDeclaresInBlocks, ItemsDeclareInBlocks};
ghost use Rattle.c_lowered.specs.Locations.{Linking};
ghost use Rattle.c_applied.specs.Leads.{Keeps};
ghost use Rattle.c_lower.specs.Functions.{defined};
ghost use Rattle.c_lower.specs.Walk.{IsBefore, AddsFunctions, Passes};

use crate::function_code::function;
use crate::placed::{Placed, literals_of};
use c_addressing::{Here, Output};
use c_cells::StructKinds;
use c_declarations::declare_object;
use c_objects::{declare_function, declare_struct};
use c_signatures::{Signature, judge_signature};
use c_syntax::tree::{Decl, Decls, Item, Stmt, Tag, Ty};
use std::alloc::AllocError;

// The code of a function of a signature, which begins in a block, and the block behind it.
fn add_signed<'t>(
    out: &mut Output<'t>,
    structs: &StructKinds,
    here: &mut Here<'t>,
    placed: &Placed<'t>,
    name: &'t [u8],
    f: &Signature<'t>,
    parameters: &'t Decls,
    body: &'t Stmt,
    k: u32,
) -> Result<u32, AllocError>
    requires { HoldsWith out.old.types here.old.declared f.now }
    ensures keeps { OnOk result (Keeps out.old out.new) }
    ensures holds { (s : Scope) → Holds out.old.types here.old.declared s → OnOk result (Holds out.new.types here.new.declared s) }
    ensures adds { (w : Linking) (names : List (List ℕ × Option ℕ)) (s : Scope) (g : plain.Signature) → IsBefore here.old structs.now out.old placed.now w names s → IsSignature out.old.types s f.now g → DeclaresInBlocks (stmt_of body.now)
        → IfOk result (λ told. Passes here.new structs.now out.old out.new placed.now w names k told s (defined s name.now (decls_of parameters.now.items.items) (stmt_of body.now) g ∷ [])) }
{
    out.literals = literals_of(placed, name);
    let items = parameters.items.as_slice();
    function(out, structs, here, name, f, items, body, k)
}

// The code of a function that is defined, if its signature isn't refused.
fn add_definition<'t>(
    out: &mut Output<'t>,
    structs: &StructKinds,
    here: &mut Here<'t>,
    placed: &Placed<'t>,
    name: &'t [u8],
    at: u32,
    gives: &Ty,
    parameters: &'t Decls,
    body: &'t Stmt,
    k: u32,
) -> Result<u32, AllocError>
    requires { HoldsSome out.old.types here.old.declared }
    ensures keeps { OnOk result (Keeps out.old out.new) }
    ensures holds { (s : Scope) → Holds out.old.types here.old.declared s → OnOk result (Holds out.new.types here.new.declared s) }
    ensures adds { (w : Linking) (names : List (List ℕ × Option ℕ)) (s : Scope) → IsBefore here.old structs.now out.old placed.now w names s → DeclaresInBlocks (stmt_of body.now)
        → IfOk result (λ told. Passes here.new structs.now out.old out.new placed.now w names k told s (item_definitions s (tree.Function name.now at (ty_of gives.now) (decls_of parameters.now.items.items) (Some (stmt_of body.now))))) }
{
    let signature = judge_signature(&mut out.types, &mut here.declared, at, gives, parameters)?;
    match signature {
        Ok(f) => add_signed(out, structs, here, placed, name, &f, parameters, body, k),
        Err(_fault) => Ok(k),
    }
}

// The code of a function, if it is defined.
fn add_body<'t>(
    out: &mut Output<'t>,
    structs: &StructKinds,
    here: &mut Here<'t>,
    placed: &Placed<'t>,
    name: &'t [u8],
    at: u32,
    gives: &Ty,
    parameters: &'t Decls,
    body: &'t Option<Stmt>,
    k: u32,
) -> Result<u32, AllocError>
    requires { HoldsSome out.old.types here.old.declared }
    ensures keeps { OnOk result (Keeps out.old out.new) }
    ensures holds { (s : Scope) → Holds out.old.types here.old.declared s → OnOk result (Holds out.new.types here.new.declared s) }
    ensures adds { (w : Linking) (names : List (List ℕ × Option ℕ)) (s : Scope) → IsBefore here.old structs.now out.old placed.now w names s → ItemDeclaresInBlocks (tree.Function name.now at (ty_of gives.now) (decls_of parameters.now.items.items) (maybe_stmt body.now))
        → IfOk result (λ told. Passes here.new structs.now out.old out.new placed.now w names k told s (item_definitions s (tree.Function name.now at (ty_of gives.now) (decls_of parameters.now.items.items) (maybe_stmt body.now)))) }
{
    match body {
        Some(there) => add_definition(
            out, structs, here, placed, name, at, gives, parameters, there, k,
        ),
        None => Ok(k),
    }
}

// The code of a function, if it is defined, and it is declared from then on.
fn take_function<'t>(
    out: &mut Output<'t>,
    structs: &StructKinds,
    here: &mut Here<'t>,
    placed: &Placed<'t>,
    name: &'t [u8],
    at: u32,
    gives: &Ty,
    parameters: &'t Decls,
    body: &'t Option<Stmt>,
    k: u32,
) -> Result<u32, AllocError>
    requires { HoldsSome out.old.types here.old.declared }
    ensures some { OnOk result (HoldsSome out.new.types here.new.declared) }
    ensures tags { OnOk result (out.new.types.tags ≡ out.old.types.tags) }
    ensures passes { (w : Linking) (names : List (List ℕ × Option ℕ)) (s : Scope) → IsBefore here.old structs.now out.old placed.now w names s → IsOk (item_judged s (tree.Function name.now at (ty_of gives.now) (decls_of parameters.now.items.items) (maybe_stmt body.now)))
        → ItemDeclaresInBlocks (tree.Function name.now at (ty_of gives.now) (decls_of parameters.now.items.items) (maybe_stmt body.now))
        → IfOk result (λ told. Passes here.new structs.now out.old out.new placed.now w names k told (scope_or s (item_judged s (tree.Function name.now at (ty_of gives.now) (decls_of parameters.now.items.items) (maybe_stmt body.now)))) (item_definitions s (tree.Function name.now at (ty_of gives.now) (decls_of parameters.now.items.items) (maybe_stmt body.now)))) }
{
    let behind = add_body(
        out, structs, here, placed, name, at, gives, parameters, body, k,
    )?;
    let defines = body.is_some();
    declare_function(
        &mut out.types,
        &mut here.declared,
        name,
        at,
        gives,
        parameters,
        defines,
    )?;
    Ok(behind)
}

// An object is declared.
fn take_object<'t>(
    out: &mut Output<'t>,
    structs: &StructKinds,
    here: &mut Here<'t>,
    placed: &Placed<'t>,
    d: &'t Decl,
    k: u32,
) -> Result<u32, AllocError>
    requires { HoldsSome out.old.types here.old.declared }
    ensures some { OnOk result (HoldsSome out.new.types here.new.declared) }
    ensures tags { OnOk result (out.new.types.tags ≡ out.old.types.tags) }
    ensures passes { (w : Linking) (names : List (List ℕ × Option ℕ)) (s : Scope) → IsBefore here.old structs.now out.old placed.now w names s → IsOk (item_judged s (tree.Object (decl_of d.now)))
        → IfOk result (λ told. Passes here.new structs.now out.old out.new placed.now w names k told (scope_or s (item_judged s (tree.Object (decl_of d.now)))) []) }
{
    let _structs = structs;
    let _placed = placed;
    declare_object(&mut out.types, &mut here.declared, true, d)?;
    Ok(k)
}

// A tag is declared.
fn take_struct<'t>(
    out: &mut Output<'t>,
    structs: &mut StructKinds,
    here: &mut Here<'t>,
    placed: &Placed<'t>,
    tag: &'t Tag,
    k: u32,
) -> Result<u32, AllocError>
    requires holds { HoldsSome out.old.types here.old.declared }
    requires numbered { HasNumber out.old.types tag.now.name }
    ensures some { OnOk result (HoldsSome out.new.types here.new.declared) }
    ensures tags { OnOk result (out.new.types.tags ≡ out.old.types.tags) }
    ensures passes { (w : Linking) (names : List (List ℕ × Option ℕ)) (s : Scope) → IsBefore here.old structs.old out.old placed.now w names s
        → IfOk result (λ told. Passes here.new structs.new out.old out.new placed.now w names k told (scope_or s (item_judged s (tree.StructItem (tag_of tag.now)))) []) }
{
    let _placed = placed;
    declare_struct(&mut out.types, &mut here.declared, structs, tag)?;
    Ok(k)
}

// An external: a function that is defined gets its code, which begins in a block, and what is declared is known from then
// on. The answer is the block behind it.
fn take_item<'t>(
    out: &mut Output<'t>,
    structs: &mut StructKinds,
    here: &mut Here<'t>,
    placed: &Placed<'t>,
    item: &'t Item,
    k: u32,
) -> Result<u32, AllocError>
    requires holds { HoldsSome out.old.types here.old.declared }
    requires numbered { (name : List ℕ) → tag_in (item_of item.now) ≡ Some name → HasNumber out.old.types name }
    ensures some { OnOk result (HoldsSome out.new.types here.new.declared) }
    ensures tags { OnOk result (out.new.types.tags ≡ out.old.types.tags) }
    ensures passes { (w : Linking) (names : List (List ℕ × Option ℕ)) (s : Scope) → IsBefore here.old structs.old out.old placed.now w names s → IsOk (item_judged s (item_of item.now)) → ItemDeclaresInBlocks (item_of item.now)
        → IfOk result (λ told. Passes here.new structs.new out.old out.new placed.now w names k told (scope_or s (item_judged s (item_of item.now))) (item_definitions s (item_of item.now))) }
{
    match item {
        Item::Struct(tag) => take_struct(out, structs, here, placed, tag, k),
        Item::Object(d) => take_object(out, structs, here, placed, d, k),
        Item::Function {
            name,
            pos,
            result: gives,
            params,
            body,
        } => take_function(
            out,
            structs,
            here,
            placed,
            name.as_bytes(),
            *pos,
            gives,
            params,
            body,
            k,
        ),
    }
}

/// The code of the functions of typed externals, in the order of the text, the first of which begins in a block, and the
/// block behind them.
pub fn functions<'t>(
    out: &mut Output<'t>,
    structs: &mut StructKinds,
    here: &mut Here<'t>,
    placed: &Placed<'t>,
    items: &'t [Item],
    k: u32,
) -> Result<u32, AllocError>
    requires holds { HoldsSome out.old.types here.old.declared }
    requires numbered { (name : List ℕ) → contains (tags_in (map item_of items.now)) name ≡ true → HasNumber out.old.types name }
    ensures { (w : Linking) (names : List (List ℕ × Option ℕ)) (s end : Scope) → IsBefore here.old structs.old out.old placed.now w names s → all_items s (map item_of items.now) ≡ Ok end → ItemsDeclareInBlocks (map item_of items.now)
        → IfOk result (λ told. AddsFunctions out.old out.new w names (definitions s (map item_of items.now)) k told) }
{
    let mut block = k;
    for item in items {
        block = take_item(out, structs, here, placed, item, block)?;
    }
    Ok(block)
}
