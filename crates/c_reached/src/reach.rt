// The functions that are reached, gone through one after the other.

ghost use Rattle.std.specs.Prelude.{◌≡◌, ◌≤◌, ◌<◌, ℕ, List, [], map, length, get_or, is_some, IfOk, OnOk, MatchOption};
ghost use Rattle.c_syntax.specs.Plain.{CItem};
ghost use Rattle.c_syntax.specs.View.{item_of, stmt_of};
ghost use Rattle.c_types.specs.Scope.{contains};
ghost use Rattle.c_helpers.specs.Names.{stmt_names};
ghost use Rattle.c_helpers.specs.Simple.{reached};
ghost use Rattle.c_tree_names.specs.Added.{texts};
ghost use Rattle.c_tree_names.specs.Items.{names_of_body};
ghost use Rattle.c_reached.specs.Bodies.{body_in, Stands};
ghost use Rattle.c_reached.specs.Reaching.{seeds_of, with_all, with_tested, AllGone, Reaching, Visited};

use crate::bodies::{bodies_of, body_of, is_defined};
use c_syntax::tree::{Item, Stmt};
use c_tree_names::{add_first_values, add_statement, put_name};
use ordered::{OrderedMap, OrderedSet};
use std::alloc::{AllocError, Global};

// A name more, if it is that of a function with a body.
fn put_defined<'t>(
    bodies: &OrderedMap<&'t [u8], &'t Stmt>,
    known: &mut OrderedSet<&'t [u8]>,
    name: &'t [u8],
) -> Result<(), AllocError>
    ensures { OnOk result (texts known.new.keys ≡ with_tested (λ f. is_some (body_in bodies.now.entries f)) (texts known.old.keys) name.now) }
{
    if is_defined(bodies, name) {
        put_name(known, name)
    } else {
        Ok(())
    }
}

// Names more, of which those of functions with a body are put to the others.
fn put_all<'t>(
    bodies: &OrderedMap<&'t [u8], &'t Stmt>,
    known: &mut OrderedSet<&'t [u8]>,
    names: &[&'t [u8]],
) -> Result<(), AllocError>
    ensures { OnOk result (texts known.new.keys ≡ with_all (λ f. is_some (body_in bodies.now.entries f)) (texts known.old.keys) (texts names.now)) }
{
    for name in names {
        put_defined(bodies, known, name)?;
    }
    Ok(())
}

// The names in a body.
fn put_named<'t>(
    alloc: Global,
    bodies: &OrderedMap<&'t [u8], &'t Stmt>,
    known: &mut OrderedSet<&'t [u8]>,
    body: &'t Stmt,
) -> Result<(), AllocError>
    ensures { OnOk result (texts known.new.keys ≡ with_all (λ f. is_some (body_in bodies.now.entries f)) (texts known.old.keys) (stmt_names (stmt_of body.now))) }
{
    let mut names = Vec::new(alloc);
    add_statement(&mut names, body)?;
    put_all(bodies, known, names.as_slice())
}

// The names in the body of a name.
fn visit<'t>(
    alloc: Global,
    bodies: &OrderedMap<&'t [u8], &'t Stmt>,
    known: &mut OrderedSet<&'t [u8]>,
    name: &[u8],
) -> Result<(), AllocError>
    ensures { OnOk result (texts known.new.keys ≡ with_all (λ f. is_some (body_in bodies.now.entries f)) (texts known.old.keys) (names_of_body (body_in bodies.now.entries name.now))) }
{
    match body_of(bodies, name) {
        Some(body) => put_named(alloc, bodies, known, body),
        None => Ok(()),
    }
}

// The name at a place.
fn name_at<'t>(known: &OrderedSet<&'t [u8]>, place: usize) -> Option<&'t [u8]>
    ensures { MatchOption result (length (texts known.now.keys) ≤ place) (λ name. (place < length (texts known.now.keys)) × (name.now ≡ get_or (texts known.now.keys) place [])) }
{
    match known.get_index(place) {
        Some(name) => Some(*name),
        None => None,
    }
}

// The name at a place is gone through. The answer is whether there was one.
fn visit_at<'t>(
    alloc: Global,
    bodies: &OrderedMap<&'t [u8], &'t Stmt>,
    known: &mut OrderedSet<&'t [u8]>,
    place: usize,
) -> Result<bool, AllocError>
    ensures { IfOk result (Visited (λ f. is_some (body_in bodies.now.entries f)) (body_in bodies.now.entries) (texts known.old.keys) (texts known.new.keys) place) }
{
    match name_at(known, place) {
        Some(name) => {
            visit(alloc, bodies, known, name)?;
            Ok(true)
        }
        None => Ok(false),
    }
}

// The names are gone through, each once.
fn go_on<'t>(
    alloc: Global,
    bodies: &OrderedMap<&'t [u8], &'t Stmt>,
    known: &mut OrderedSet<&'t [u8]>,
    rounds: usize,
) -> Result<(), AllocError>
    ensures { (items : List CItem) (seeds : List (List ℕ)) → Stands bodies.now.entries items → length items ≤ rounds → Reaching items seeds (texts known.old.keys) 0 → OnOk result (AllGone items seeds (texts known.new.keys)) }
{
    for place in 0..rounds {
        let more = visit_at(alloc, bodies, known, place)?;
        if !more {
            return Ok(());
        }
    }
    Ok(())
}

// The names from which functions are reached.
fn seeds<'t>(alloc: Global, items: &'t [Item]) -> Result<Vec<&'t [u8]>, AllocError>
    ensures { IfOk result (λ names. texts names.items ≡ seeds_of (map item_of items.now)) }
{
    let mut names = Vec::new(alloc);
    names.push(b"main".as_slice())?;
    add_first_values(&mut names, items)?;
    Ok(names)
}

/// The functions that are reached from `main` and from first values at file scope.
pub fn reached_of<'t>(alloc: Global, items: &'t [Item]) -> Result<OrderedSet<&'t [u8]>, AllocError>
    ensures { (name : List ℕ) → IfOk result (λ known. contains (texts known.keys) name ≡ contains (reached (map item_of items.now)) name) }
{
    let bodies = bodies_of(alloc, items)?;
    let first = seeds(alloc, items)?;
    let mut known = OrderedSet::new(alloc);
    put_all(&bodies, &mut known, first.as_slice())?;
    go_on(alloc, &bodies, &mut known, items.len())?;
    Ok(known)
}
