// The names that the externals of a text declare.

ghost use Rattle.std.specs.Prelude.{◌≡◌, ◌||◌, ℕ, List, map, Option, IfOk, OnOk};
ghost use Rattle.std.specs.Option.{option_map};
ghost use Rattle.std.specs.Str.{bytes_eq};
ghost use Rattle.std.specs.List.{list_any};
ghost use Rattle.c_syntax.specs.View.{item_of, ty_of, decls_of, maybe_stmt};
ghost use Rattle.c_types.specs.Scope.{contains};
ghost use Rattle.c_types.specs.Units.{defined_in, is_main};
ghost use Rattle.c_types.specs.Table.{texts};
ghost use Rattle.c_opening.specs.Named.{tag_in, tags_in, definition_in, is_named, is_int, is_main_of};

use c_syntax::tree::{Decls, Item, Stmt, Ty};
use ordered::OrderedSet;
use std::alloc::{AllocError, Global};

// The tag that an external declares, if it declares one.
fn tag_in(item: &Item) -> Option<&[u8]>
    ensures { option_map (λ n. n.now) result ≡ tag_in (item_of item.now) }
{
    match item {
        Item::Struct(tag) => Some(tag.name.as_bytes()),
        _ => None,
    }
}

// The function that an external defines, if it defines one.
fn definition_in(item: &Item) -> Option<&[u8]>
    ensures { option_map (λ n. n.now) result ≡ definition_in (item_of item.now) }
{
    match item {
        Item::Function {
            name,
            body: Some(_),
            ..
        } => Some(name.as_bytes()),
        _ => None,
    }
}

// A name more in a set of names.
fn put<'t>(names: &mut OrderedSet<&'t [u8]>, name: &'t [u8]) -> Result<(), AllocError>
    ensures { (other : List ℕ) → OnOk result (contains (texts names.new.keys) other ≡ (contains (texts names.old.keys) other || bytes_eq other name.now)) }
{
    names.insert(name)?;
    Ok(())
}

// A name more in a set of names, if there is one.
fn put_some<'t>(names: &mut OrderedSet<&'t [u8]>, name: Option<&'t [u8]>) -> Result<(), AllocError>
    ensures { (other : List ℕ) → OnOk result (contains (texts names.new.keys) other ≡ (contains (texts names.old.keys) other || is_named (option_map (λ n. n.now) name.entry) other)) }
{
    match name {
        Some(there) => put(names, there),
        None => Ok(()),
    }
}

/// The tags that a text declares, each once.
pub fn tags_of<'t>(alloc: Global, items: &'t [Item]) -> Result<OrderedSet<&'t [u8]>, AllocError>
    ensures { (name : List ℕ) → IfOk result (λ tags. contains (texts tags.keys) name ≡ contains (tags_in (map item_of items.now)) name) }
{
    let mut tags = OrderedSet::new(alloc);
    for item in items {
        put_some(&mut tags, tag_in(item))?;
    }
    Ok(tags)
}

/// The functions that a text defines, each once.
pub fn defined_of<'t>(alloc: Global, items: &'t [Item]) -> Result<OrderedSet<&'t [u8]>, AllocError>
    ensures { (name : List ℕ) → IfOk result (λ names. contains (texts names.keys) name ≡ contains (defined_in (map item_of items.now)) name) }
{
    let mut names = OrderedSet::new(alloc);
    for item in items {
        put_some(&mut names, definition_in(item))?;
    }
    Ok(names)
}

// Whether a type is int.
fn is_int(ty: &Ty) -> bool
    ensures { result ≡ is_int (ty_of ty.now) }
{
    matches!(ty, Ty::Int)
}

// Whether a function of these parts is a definition of `main` without parameters that gives an int.
fn is_main_of(name: &[u8], gives: &Ty, params: &Decls, body: &Option<Stmt>) -> bool
    ensures { result ≡ is_main_of name.now (ty_of gives.now) (decls_of params.now.items.items) (maybe_stmt body.now) }
{
    let is_plain = is_int(gives) && params.items.len() == 0;
    is_plain && body.is_some() && name == b"main".as_slice()
}

// Whether an external is a definition of `main` without parameters that gives an int.
fn is_main(item: &Item) -> bool
    ensures { result ≡ is_main (item_of item.now) }
{
    match item {
        Item::Function {
            name,
            result,
            params,
            body,
            ..
        } => is_main_of(name.as_bytes(), result, params, body),
        _ => false,
    }
}

/// Whether a text defines `main` without parameters, giving an int.
pub fn has_main(items: &[Item]) -> bool
    ensures { result ≡ list_any is_main (map item_of items.now) }
{
    for item in items {
        if is_main(item) {
            return true;
        }
    }
    false
}
