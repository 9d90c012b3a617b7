// The bodies of functions, by their names.

ghost use Rattle.std.specs.Prelude.{◌≡◌, ℕ, List, map, false, is_some, IfOk, OnOk};
ghost use Rattle.std.specs.Option.{option_or};
ghost use Rattle.c_syntax.specs.View.{item_of, stmt_of, maybe_stmt};
ghost use Rattle.c_reached.specs.Bodies as plain;
ghost use Rattle.c_reached.specs.Bodies.{body_in, own_body, named_body, Stands, IsPut};

use c_syntax::tree::{Item, Stmt};
use ordered::OrderedMap;
use std::alloc::{AllocError, Global};

/// The body of a name.
pub fn body_of<'t>(bodies: &OrderedMap<&'t [u8], &'t Stmt>, name: &[u8]) -> Option<&'t Stmt>
    ensures { plain.plain_body result ≡ body_in bodies.now.entries name.now }
{
    match bodies.get(&name) {
        Some(body) => Some(*body),
        None => None,
    }
}

/// Whether a name has a body.
pub fn is_defined(bodies: &OrderedMap<&[u8], &Stmt>, name: &[u8]) -> bool
    ensures { result ≡ is_some (body_in bodies.now.entries name.now) }
{
    match body_of(bodies, name) {
        Some(_body) => true,
        None => false,
    }
}

// The body of a name that has none.
fn insert_body<'t>(
    bodies: &mut OrderedMap<&'t [u8], &'t Stmt>,
    name: &'t [u8],
    body: &'t Stmt,
) -> Result<(), AllocError>
    ensures { is_some (body_in bodies.old.entries name.now) ≡ false → OnOk result (IsPut bodies.old.entries bodies.new.entries (named_body name.now (stmt_of body.now))) }
{
    bodies.insert(name, body)?;
    Ok(())
}

// A body more. The first one of a name counts.
fn put_body<'t>(
    bodies: &mut OrderedMap<&'t [u8], &'t Stmt>,
    name: &'t [u8],
    body: &'t Stmt,
) -> Result<(), AllocError>
    ensures { OnOk result (IsPut bodies.old.entries bodies.new.entries (named_body name.now (stmt_of body.now))) }
{
    if is_defined(bodies, name) {
        Ok(())
    } else {
        insert_body(bodies, name, body)
    }
}

// The body of a function, if it has one.
fn put_maybe<'t>(
    bodies: &mut OrderedMap<&'t [u8], &'t Stmt>,
    name: &'t [u8],
    body: &'t Option<Stmt>,
) -> Result<(), AllocError>
    ensures { OnOk result (IsPut bodies.old.entries bodies.new.entries (plain.maybe_named name.now (maybe_stmt body.now))) }
{
    match body {
        Some(there) => put_body(bodies, name, there),
        None => Ok(()),
    }
}

// The body of an external, if it has one.
fn put_item<'t>(
    bodies: &mut OrderedMap<&'t [u8], &'t Stmt>,
    item: &'t Item,
) -> Result<(), AllocError>
    ensures { OnOk result (IsPut bodies.old.entries bodies.new.entries (own_body (item_of item.now))) }
{
    match item {
        Item::Struct(_tag) => Ok(()),
        Item::Object(_d) => Ok(()),
        Item::Function { name, body, .. } => put_maybe(bodies, name.as_bytes(), body),
    }
}

/// The bodies of a text.
pub fn bodies_of<'t>(
    alloc: Global,
    items: &'t [Item],
) -> Result<OrderedMap<&'t [u8], &'t Stmt>, AllocError>
    ensures { IfOk result (λ bodies. Stands bodies.entries (map item_of items.now)) }
{
    let mut bodies = OrderedMap::new(alloc);
    for item in items {
        put_item(&mut bodies, item)?;
    }
    Ok(bodies)
}
