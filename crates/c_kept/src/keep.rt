// Functions that aren't reached are declared alone.

ghost use Rattle.std.specs.Prelude.{◌≡◌, ◌<◌, ◌≤◌, map, false, length, vec_len, IfOk, OnOk, OnErr};
ghost use Rattle.c_syntax.specs.View.{item_of};
ghost use Rattle.c_types.specs.Scope.{contains};
ghost use Rattle.c_helpers.specs.Simple.{kept_items};
ghost use Rattle.c_tree_names.specs.Added.{texts};
ghost use Rattle.c_kept.specs.Kept as plain;
ghost use Rattle.c_kept.specs.Kept.{all_kept, kept_at, kept_by};

use c_reached::reached_of;
use c_syntax::tree::Item;
use ordered::OrderedSet;
use std::alloc::{AllocError, Global};

// Whether a name is one of a set.
fn has_name(known: &OrderedSet<&[u8]>, name: &[u8]) -> bool
    ensures { result ≡ contains (texts known.now.keys) name.now }
{
    known.contains(&name)
}

// Whether an external stays as it is.
fn stays(known: &OrderedSet<&[u8]>, item: &Item) -> bool
    ensures { result ≡ plain.stays (texts known.now.keys) (item_of item.now) }
{
    match item {
        Item::Struct(_tag) => true,
        Item::Object(_d) => true,
        Item::Function { name, .. } => has_name(known, name.as_bytes()),
    }
}

// Which externals stay as they are.
fn flags(alloc: Global, known: &OrderedSet<&[u8]>, items: &[Item]) -> Result<Vec<bool>, AllocError>
    ensures { IfOk result (λ all. all.items ≡ map (λ i. plain.stays (texts known.now.keys) (item_of i)) items.now) }
{
    let mut all = Vec::new(alloc);
    for item in items {
        let flag = stays(known, item);
        all.push(flag)?;
    }
    Ok(all)
}

// Which externals of a text stay as they are, in a text in which those that aren't reached lose their bodies.
fn kept_flags(alloc: Global, items: &[Item]) -> Result<Vec<bool>, AllocError>
    ensures many { IfOk result (λ all. length all.items ≡ length items.now) }
    ensures kept { IfOk result (λ all. all_kept all.items (map item_of items.now) ≡ kept_items (map item_of items.now)) }
{
    let known = reached_of(alloc, items)?;
    flags(alloc, &known, items)
}

// A function loses its body.
fn drop_body(item: &mut Item)
    ensures { item_of item.new ≡ kept_by false (item_of item.old) }
{
    match item {
        Item::Struct(_tag) => {}
        Item::Object(_d) => {}
        Item::Function { body, .. } => *body = None,
    }
}

// The external at a place stays as it is, or loses its body.
fn keep_at(items: &mut Vec<Item>, index: usize, flag: bool)
    requires { index < vec_len items.old }
    ensures kept { map item_of items.new.items ≡ kept_at index flag (map item_of items.old.items) }
    ensures many { vec_len items.new ≡ vec_len items.old }
{
    if !flag {
        drop_body(&mut items[index]);
    }
}

// The externals stay as they are or lose their bodies, as flags say.
fn keep_all(items: &mut Vec<Item>, all: &[bool])
    requires { length all.now ≤ vec_len items.old }
    ensures { map item_of items.new.items ≡ all_kept all.now (map item_of items.old.items) }
{
    for index in 0..all.len() {
        keep_at(items, index, all[index]);
    }
}

/// Functions that aren't reached lose their bodies. An `Err` changes nothing.
pub fn keep_reached(alloc: Global, items: &mut Vec<Item>) -> Result<(), AllocError>
    ensures kept { OnOk result (map item_of items.new.items ≡ kept_items (map item_of items.old.items)) }
    ensures err { OnErr result (items.new.items ≡ items.old.items) }
{
    let all = kept_flags(alloc, items.as_slice())?;
    keep_all(items, all.as_slice());
    Ok(())
}
