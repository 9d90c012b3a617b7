//! Externals, and a whole text.

ghost use Rattle.std.specs.Prelude.{◌≡◌, ◌∷◌, [], ◌++◌, map, IfOk, OnOk, Some, None, MatchBool};
ghost use Rattle.c_syntax.specs.Plain as plain;
ghost use Rattle.c_syntax.specs.Plain.{CTy};
ghost use Rattle.c_syntax.specs.View.{decl_of, decls_of, stmt_of, maybe_stmt, item_of};
ghost use Rattle.c_grammar.specs.Tree as grammar;
ghost use Rattle.c_grammar.specs.Tree.{more, none, act};
ghost use Rattle.c_grammar.specs.Values.{meanings_of};
ghost use Rattle.c_grammar.specs.declared.names.Production.TheVariants as production;
ghost use Rattle.c_held.specs.View.{meaning_of, means, row_of, declared_of, all_of, rest_of, base_of, struct_items};
ghost use Rattle.c_held.specs.Shape.{IsWords};

use c_declare::declarations::set_first;
use c_declare_types::words::words_with_tag;
use c_held::parts::{declarations, declared, maybe_initial, statement};
use c_held::value::{Base, Declared, Made, Meaning, Rest, Value};
use c_held_rows::rows::{push_declared, push_objects};
use c_held_rows::types::{declare, point, push_declarations};
use c_syntax::tree::{Decl, Decls, Item, Stmt, Tag};
use std::alloc::{AllocError, Global};
use std::mem;

/// Adds a function: its name, place and result as declared, its parameters and its body. An `Err` is want of memory.
fn push_function(
    items: &mut Vec<Item>,
    decl: Decl,
    params: Vec<Decl>,
    body: Option<Stmt>,
) -> Result<(), AllocError>
    ensures { OnOk result (map item_of items.new.items ≡ map item_of items.old.items ++ grammar.function (decl_of decl) (decls_of params.items) (maybe_stmt body) ∷ []) }
{
    let Decl { name, pos, ty, .. } = decl;
    let params = Decls { items: params };
    items.push(Item::Function {
        name,
        pos,
        result: ty,
        params,
        body,
    })?;
    Ok(())
}

/// Adds an object for a first declared name and for each of the others, of the type that words say. An `Err` is want of memory.
fn push_all_objects(
    alloc: Global,
    items: &mut Vec<Item>,
    first: &mut Declared,
    others: &mut [Declared],
    base: &Base,
) -> Result<(), AllocError>
    ensures { OnOk result (map item_of items.new.items ≡ map item_of items.old.items ++ map plain.Object (declared_of first.old (base_of base.now) ∷ all_of others.old (base_of base.now))) }
{
    let mut decls = Vec::new(alloc);
    decls.push(declare(alloc, first, base)?)?;
    push_declarations(alloc, &mut decls, others, base)?;
    push_objects(items, decls)
}

/// Adds the externals of what stands behind the words of a type. An `Err` is want of memory.
fn push_rest(
    alloc: Global,
    items: &mut Vec<Item>,
    rest: &mut Rest,
    base: &Base,
) -> Result<(), AllocError>
    ensures { OnOk result (map item_of items.new.items ≡ map item_of items.old.items ++ rest_of rest.old (base_of base.now) (base_of base.now)) }
{
    match rest {
        Rest::Items(more) => items.append(more),
        Rest::Function(declared, params, body) => {
            let decl = declare(alloc, declared, base)?;
            let params = mem::replace(params, Vec::new(alloc));
            push_function(items, decl, params, mem::replace(body, None))
        }
        Rest::Objects(first, others) => {
            push_all_objects(alloc, items, first, others.as_mut_slice(), base)
        }
    }
}

/// What stands for an end of an external where there is none.
fn no_rest(alloc: Global) -> Rest
    ensures { (base t : CTy) → rest_of result base t ≡ [] }
{
    Rest::Items(Vec::new(alloc))
}

/// Adds the externals that a meaning is the end of, of the type that words say. An `Err` is want of memory.
fn push_items(
    alloc: Global,
    items: &mut Vec<Item>,
    part: &mut Meaning,
    base: &Base,
) -> Result<(), AllocError>
    ensures { OnOk result (map item_of items.new.items ≡ map item_of items.old.items ++ grammar.items (meaning_of part.old) (base_of base.now) (base_of base.now)) }
{
    match part {
        Meaning::External(rest) => push_rest(alloc, items, rest, base),
        _ => Ok(()),
    }
}

/// Adds the externals of a row. An `Err` is want of memory.
fn push_each_external(
    alloc: Global,
    items: &mut Vec<Item>,
    row: &mut [Made],
) -> Result<(), AllocError>
    ensures { OnOk result (map item_of items.new.items ≡ map item_of items.old.items ++ grammar.all_items (meanings_of (row_of row.old))) }
{
    for made in row.iter_mut() {
        push_items(alloc, items, &mut made.meaning, &Base::Void)?;
    }
    Ok(())
}

/// Adds the externals of a row that a value is. An `Err` is want of memory.
fn push_externals(alloc: Global, items: &mut Vec<Item>, value: &mut Value) -> Result<(), AllocError>
    ensures { OnOk result (map item_of items.new.items ≡ map item_of items.old.items ++ grammar.all_items (grammar.several (means value.old))) }
{
    match value {
        Value::Row(row) => push_each_external(alloc, items, row.make_contiguous()),
        _ => Ok(()),
    }
}

/// The externals of a whole text, taken out of a row.
pub fn externals(alloc: Global, value: &mut Value) -> Result<Vec<Item>, AllocError>
    ensures { IfOk result (λ v. map item_of v.items ≡ grammar.all_items (grammar.several (means value.old))) }
{
    let mut items = Vec::new(alloc);
    push_externals(alloc, &mut items, value)?;
    Ok(items)
}

/// A whole text, of its externals.
#[tactic(auto, unfolding(c_grammar::specs::Tree::act), using(c_held_rows::proofs::Functions::items_same))]
pub fn whole(alloc: Global, all: &mut Value) -> Result<Meaning, AllocError>
    ensures { (end : grammar.Meaning) → IfOk result (λ m. meaning_of m ≡ act production.Whole (more (means all.old) (more end none))) }
{
    let items = externals(alloc, all)?;
    Ok(Meaning::External(Rest::Items(items)))
}

/// Adds the struct that words declare, if they do. An `Err` is want of memory.
fn push_tag(items: &mut Vec<Item>, tag: Option<Tag>) -> Result<(), AllocError>
    ensures { OnOk result (map item_of items.new.items ≡ map item_of items.old.items ++ struct_items tag) }
{
    match tag {
        Some(tag) => {
            items.push(Item::Struct(tag))?;
            Ok(())
        }
        None => Ok(()),
    }
}

/// Adds the externals that a value is the end of, of the type that words say. An `Err` is want of memory.
fn push_items_of(
    alloc: Global,
    items: &mut Vec<Item>,
    value: &mut Value,
    base: &Base,
) -> Result<(), AllocError>
    ensures { OnOk result (map item_of items.new.items ≡ map item_of items.old.items ++ grammar.items (means value.old) (base_of base.now) (base_of base.now)) }
{
    match value {
        Value::Part(made) => push_items(alloc, items, &mut made.meaning, base),
        _ => Ok(()),
    }
}

/// What is declared behind the words of a type.
#[tactic(auto, unfolding(c_grammar::specs::Tree::act), using(c_held_rows::proofs::Functions::items_same))]
pub fn declared_external(
    alloc: Global,
    spec: &mut Value,
    rest: &mut Value,
) -> Result<Meaning, AllocError>
    requires { IsWords spec.old }
    ensures { IfOk result (λ m. meaning_of m ≡ act production.DeclaredP (more (means spec.old) (more (means rest.old) none))) }
{
    let (base, tag) = words_with_tag(spec);
    let mut items = Vec::new(alloc);
    push_tag(&mut items, tag)?;
    push_items_of(alloc, &mut items, rest, &base)?;
    Ok(Meaning::External(Rest::Items(items)))
}

/// Puts a star more behind what is declared first in the end of an external. An `Err` is want of memory.
fn point_rest(rest: &mut Rest) -> Result<(), AllocError>
    ensures { OnOk result ((base t : CTy) → rest_of rest.new base t ≡ rest_of rest.old base (plain.Pointer t)) }
{
    match rest {
        Rest::Items(_) => Ok(()),
        Rest::Function(declared, _, _) => point(declared),
        Rest::Objects(first, _) => point(first),
    }
}

/// The end of an external that a meaning is, behind a star more, taken out of it. An `Err` is want of memory.
fn pointed_in(alloc: Global, part: &mut Meaning) -> Result<Rest, AllocError>
    ensures { IfOk result (λ r. (base t : CTy) → rest_of r base t ≡ grammar.items (meaning_of part.old) base (plain.Pointer t)) }
{
    match part {
        Meaning::External(rest) => {
            point_rest(rest)?;
            Ok(mem::replace(rest, no_rest(alloc)))
        }
        _ => Ok(no_rest(alloc)),
    }
}

/// The end of an external that a value is, behind a star more, taken out of it. An `Err` is want of memory.
fn pointed(alloc: Global, value: &mut Value) -> Result<Rest, AllocError>
    ensures { IfOk result (λ r. (base t : CTy) → rest_of r base t ≡ grammar.items (means value.old) base (plain.Pointer t)) }
{
    match value {
        Value::Part(made) => pointed_in(alloc, &mut made.meaning),
        _ => Ok(no_rest(alloc)),
    }
}

/// What is declared behind a star more.
#[tactic(auto, unfolding(c_grammar::specs::Tree::act), using(c_held_rows::proofs::Functions::items_same))]
pub fn pointed_external(alloc: Global, rest: &mut Value) -> Result<Meaning, AllocError>
    ensures { (star consts : grammar.Meaning) → IfOk result (λ m. meaning_of m ≡ act production.Pointed (more star (more consts (more (means rest.old) none)))) }
{
    let rest = pointed(alloc, rest)?;
    Ok(Meaning::External(rest))
}

/// Whether a statement is a block.
fn is_block(stmt: &Stmt) -> bool
    ensures { MatchBool result (grammar.body_of (stmt_of stmt.now) ≡ Some (stmt_of stmt.now)) (grammar.body_of (stmt_of stmt.now) ≡ None) }
{
    match stmt {
        Stmt::Block(_) => true,
        _ => false,
    }
}

/// The body of a function that ends in a statement: none where it is no block.
fn body_of(stmt: Stmt) -> Option<Stmt>
    ensures { maybe_stmt result ≡ grammar.body_of (stmt_of stmt) }
{
    if is_block(&stmt) { Some(stmt) } else { None }
}

/// A function: its name, its parameters, and its end.
#[tactic(auto, unfolding(c_grammar::specs::Tree::act), using(c_held_rows::proofs::Functions::items_same))]
pub fn function(alloc: Global, n: &mut Value, params: &mut Value, end: &mut Value) -> Meaning
    ensures { (l : grammar.Meaning) → meaning_of result ≡ act production.Function (more (means n.old) (more l (more (means params.old) (more (means end.old) none)))) }
{
    Meaning::External(Rest::Function(
        declared(alloc, n),
        declarations(alloc, params),
        body_of(statement(end)),
    ))
}

/// The first of some objects, taken out of what declares it and of its first value.
fn first_object(alloc: Global, core: &mut Value, v: &mut Value) -> Declared
    ensures { (t : CTy) → declared_of result t ≡ grammar.with_value (grammar.declares (means core.old) t) (grammar.maybe_value (means v.old)) }
{
    let mut first = declared(alloc, core);
    set_first(&mut first, maybe_initial(v));
    first
}

/// Objects: the first name, its first value, and the others.
#[tactic(auto, unfolding(c_grammar::specs::Tree::act), using(c_held_rows::proofs::Functions::items_same))]
pub fn objects(
    alloc: Global,
    core: &mut Value,
    v: &mut Value,
    others: &mut Value,
) -> Result<Meaning, AllocError>
    ensures { (semi : grammar.Meaning) → IfOk result (λ m. meaning_of m ≡ act production.Objects (more (means core.old) (more (means v.old) (more (means others.old) (more semi none))))) }
{
    let first = first_object(alloc, core, v);
    let mut all = Vec::new(alloc);
    push_declared(alloc, &mut all, others)?;
    Ok(Meaning::External(Rest::Objects(first, all)))
}
