// The words of first values at file scope, one external after the other.

ghost use Rattle.std.specs.Prelude.{◌≡◌, [], ℕ, List, map, true, Ok, Some, IsOk, IfOk, OnOk};
ghost use Rattle.c_syntax.specs.Plain as tree;
ghost use Rattle.c_syntax.specs.View.{decl_of, decls_of, ty_of, tag_of, maybe_stmt, maybe_value, item_of};
ghost use Rattle.c_types.specs.Types.{CType};
ghost use Rattle.c_types.specs.Scope.{Scope, contains};
ghost use Rattle.c_types.specs.Units.{item_judged, all_items};
ghost use Rattle.c_eval.specs.Environment.{Environment, past_first};
ghost use Rattle.c_types.specs.Table.{HasType, IsType};
ghost use Rattle.c_declared.specs.Held.{HoldsSome};
ghost use Rattle.c_cells.specs.Structs.{AreStructKinds};
ghost use Rattle.c_opening.specs.Named.{tag_in, tags_in, HasNumber};
ghost use Rattle.c_objects.specs.Made.{IsQuietFirst};
ghost use Rattle.c_lowered.specs.Locations.{Linking};
ghost use Rattle.c_addressing.specs.Here.{Emits};
ghost use Rattle.c_applied.specs.Leads.{Keeps};
ghost use Rattle.c_lower_data.specs.Statics.{IsAtFile};
ghost use Rattle.c_lower.specs.Words.{behind_name, first_words, IsBefore, AddsFirst, Passes, PassesAll};

use c_addressing::{Here, Output};
use c_cells::StructKinds;
use c_declarations::{declare_object, declared_type};
use c_lower_blocks::number_behind;
use c_lower_data::add_first_words;
use c_objects::{declare_function, declare_struct};
use c_scopes::Entity;
use c_syntax::tree::{Decl, Decls, Item, Stmt, Tag, Ty, Value};
use std::alloc::AllocError;
use word24::Word;

// The words of a first value, if there is one, behind others.
fn add_first(
    out: &mut Output<'_>,
    structs: &StructKinds,
    here: &Here<'_>,
    ty: usize,
    first: &Option<Value>,
    words: &mut Vec<Word>,
) -> Result<(), AllocError>
    requires holds { HoldsSome out.old.types here.now.declared }
    requires ty { IsType out.old.types ty }
    ensures words { (t : CType) (w : Linking) (env : Environment) → HasType out.old.types ty t → IsAtFile here.now out.old w env → AreStructKinds out.old.types structs.now env.scope.tags → IsQuietFirst env.scope (maybe_value first.now)
        → OnOk result (AddsFirst here.now out.new words.old.items words.new.items w (first_words w t (maybe_value first.now) env) (past_first (maybe_value first.now) env)) }
    ensures keeps { OnOk result (Keeps out.old out.new) }
{
    match first {
        Some(value) => add_first_words(out, structs, here, ty, value, words),
        None => Ok(()),
    }
}

// An object is declared, if it isn't refused, and its name has a number.
fn declare_numbered<'t>(
    out: &mut Output<'_>,
    here: &mut Here<'t>,
    number: usize,
    d: &'t Decl,
) -> Result<(), AllocError>
    requires { HoldsSome out.old.types here.old.declared }
    ensures some { OnOk result (HoldsSome out.new.types here.new.declared) }
    ensures still { OnOk result (Emits out.old out.new [] 0) }
    ensures stands { (w : Linking) (env : Environment) → IsAtFile here.old out.old w env → number ≡ env.next → OnOk result (IsAtFile here.new out.new w (behind_name (decl_of d.now) env)) }
{
    declare_object(&mut out.types, &mut here.declared, true, d)?;
    here.slots
        .declare(d.name.as_bytes(), Entity::Object(number))?;
    Ok(())
}

// An object is declared, and the words of its first value stand behind others. The answer is the next object's number.
fn take_object<'t>(
    out: &mut Output<'_>,
    structs: &StructKinds,
    here: &mut Here<'t>,
    number: usize,
    d: &'t Decl,
    words: &mut Vec<Word>,
) -> Result<usize, AllocError>
    requires { HoldsSome out.old.types here.old.declared }
    ensures some { OnOk result (HoldsSome out.new.types here.new.declared) }
    ensures tags { OnOk result (out.new.types.tags ≡ out.old.types.tags) }
    ensures passes { (w : Linking) (env : Environment) → IsBefore here.old structs.now out.old number w env → IsOk (item_judged env.scope (tree.Object (decl_of d.now)))
        → IfOk result (λ n. Passes here.new structs.now out.new n w env (tree.Object (decl_of d.now)) words.old.items words.new.items) }
{
    let next = number_behind(number)?;
    let ty = declared_type(&mut out.types, &here.declared, d)?;
    declare_numbered(out, here, number, d)?;
    match ty {
        Ok(t) => {
            add_first(out, structs, here, t, &d.first, words)?;
            Ok(next)
        }
        Err(_fault) => Ok(next),
    }
}

// A tag is declared.
fn take_struct<'t>(
    out: &mut Output<'_>,
    structs: &mut StructKinds,
    here: &mut Here<'t>,
    number: usize,
    tag: &'t Tag,
    words: &Vec<Word>,
) -> Result<usize, AllocError>
    requires holds { HoldsSome out.old.types here.old.declared }
    requires numbered { HasNumber out.old.types tag.now.name }
    ensures some { OnOk result (HoldsSome out.new.types here.new.declared) }
    ensures tags { OnOk result (out.new.types.tags ≡ out.old.types.tags) }
    ensures passes { (w : Linking) (env : Environment) → IsBefore here.old structs.old out.old number w env
        → IfOk result (λ n. Passes here.new structs.new out.new n w env (tree.StructItem (tag_of tag.now)) words.now.items words.now.items) }
{
    let _words = words;
    declare_struct(&mut out.types, &mut here.declared, structs, tag)?;
    Ok(number)
}

// A function is declared; its body isn't looked at.
fn take_function<'t>(
    out: &mut Output<'_>,
    structs: &StructKinds,
    here: &mut Here<'t>,
    number: usize,
    name: &'t [u8],
    at: u32,
    gives: &Ty,
    parameters: &'t Decls,
    body: &'t Option<Stmt>,
    words: &Vec<Word>,
) -> Result<usize, AllocError>
    requires { HoldsSome out.old.types here.old.declared }
    ensures some { OnOk result (HoldsSome out.new.types here.new.declared) }
    ensures tags { OnOk result (out.new.types.tags ≡ out.old.types.tags) }
    ensures passes { (w : Linking) (env : Environment) → IsBefore here.old structs.now out.old number w env → IsOk (item_judged env.scope (tree.Function name.now at (ty_of gives.now) (decls_of parameters.now.items.items) (maybe_stmt body.now)))
        → IfOk result (λ n. Passes here.new structs.now out.new n w env (tree.Function name.now at (ty_of gives.now) (decls_of parameters.now.items.items) (maybe_stmt body.now)) words.now.items words.now.items) }
{
    let _structs = structs;
    let _words = words;
    let defines = body.is_some();
    declare_function(
        &mut out.types,
        &mut here.declared,
        name,
        at,
        gives,
        parameters,
        defines,
    )?;
    Ok(number)
}

// An external is declared; if it is an object, the words of its first value stand behind others. The answer is the next
// object's number.
fn take_item<'t>(
    out: &mut Output<'_>,
    structs: &mut StructKinds,
    here: &mut Here<'t>,
    number: usize,
    item: &'t Item,
    words: &mut Vec<Word>,
) -> Result<usize, AllocError>
    requires holds { HoldsSome out.old.types here.old.declared }
    requires numbered { (name : List ℕ) → tag_in (item_of item.now) ≡ Some name → HasNumber out.old.types name }
    ensures some { OnOk result (HoldsSome out.new.types here.new.declared) }
    ensures tags { OnOk result (out.new.types.tags ≡ out.old.types.tags) }
    ensures passes { (w : Linking) (env : Environment) → IsBefore here.old structs.old out.old number w env → IsOk (item_judged env.scope (item_of item.now))
        → IfOk result (λ n. Passes here.new structs.new out.new n w env (item_of item.now) words.old.items words.new.items) }
{
    match item {
        Item::Struct(tag) => take_struct(out, structs, here, number, tag, words),
        Item::Object(d) => take_object(out, structs, here, number, d, words),
        Item::Function {
            name,
            pos,
            result: gives,
            params,
            body,
        } => take_function(
            out,
            structs,
            here,
            number,
            name.as_bytes(),
            *pos,
            gives,
            params,
            body,
            words,
        ),
    }
}

/// The words of the first values of typed externals, behind others; what they declare is declared, and the names of their
/// objects have their numbers.
pub fn add_words<'t>(
    out: &mut Output<'_>,
    structs: &mut StructKinds,
    here: &mut Here<'t>,
    items: &'t [Item],
    words: &mut Vec<Word>,
) -> Result<(), AllocError>
    requires holds { HoldsSome out.old.types here.old.declared }
    requires numbered { (name : List ℕ) → contains (tags_in (map item_of items.now)) name ≡ true → HasNumber out.old.types name }
    ensures { (w : Linking) (env : Environment) (end : Scope) → IsBefore here.old structs.old out.old 0 w env → all_items env.scope (map item_of items.now) ≡ Ok end
        → OnOk result (PassesAll here.new out.new w env (map item_of items.now) words.old.items words.new.items) }
{
    let mut number = 0;
    for item in items {
        number = take_item(out, structs, here, number, item, words)?;
    }
    Ok(())
}
