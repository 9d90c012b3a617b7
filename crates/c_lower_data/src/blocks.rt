// The first blocks of functions: the code of each has so many jumps, and one more that returns.

ghost use Rattle.std.specs.Prelude.{◌≡◌, ◌+◌, ◌++◌, ℕ, List, Ok, Some, map, IfOk, OnOk};
ghost use Rattle.c_syntax.specs.Plain as tree;
ghost use Rattle.c_syntax.specs.View.{ty_of, decls_of, stmt_of, maybe_stmt, item_of};
ghost use Rattle.c_types.specs.Scope.{Scope};
ghost use Rattle.c_types.specs.Units.{item_judged, all_items};
ghost use Rattle.c_eval.specs.Text.{Definition, item_definitions, definitions};
ghost use Rattle.c_lowered.specs.Counts.{stmt_jumps};
ghost use Rattle.c_lowered.specs.Whole as definition;
ghost use Rattle.c_counted.specs.Numbers.{IsNumber};
ghost use Rattle.c_addressing.specs.Names.{entry_in};
ghost use Rattle.c_lower_data.specs.Entries.{entry_found, AddsEntry, AreEntered};

use c_counted::{next, plus, statement_jumps_of};
use c_syntax::tree::{Decls, Item, Stmt, Ty};
use ordered::OrderedMap;
use std::alloc::{AllocError, Global};

// The block behind a function that begins in one.
fn block_behind(block: u32, body: &Stmt) -> u32
    ensures { (k : ℕ) → IsNumber block k → IsNumber result (k + (stmt_jumps (stmt_of body.now) + 1)) }
{
    plus(block, next(statement_jumps_of(body)))
}

// The first block that is known of a name.
fn block_of(entries: &OrderedMap<&[u8], u32>, name: &[u8]) -> Option<u32>
    ensures { result ≡ entry_found entries.now.entries name.now }
{
    match entries.get(&name) {
        Some(block) => Some(*block),
        None => None,
    }
}

// A function begins in a block, if none of its name came before.
fn add_entry<'t>(
    entries: &mut OrderedMap<&'t [u8], u32>,
    name: &'t [u8],
    block: u32,
) -> Result<(), AllocError>
    ensures { OnOk result (AddsEntry entries.old.entries entries.new.entries name.now block) }
{
    match block_of(entries, name) {
        Some(_before) => Ok(()),
        None => {
            entries.insert(name, block)?;
            Ok(())
        }
    }
}

// A function that is defined begins in a block, and the next one behind it.
fn add_definition<'t>(
    entries: &mut OrderedMap<&'t [u8], u32>,
    name: &'t [u8],
    at: u32,
    gives: &Ty,
    parameters: &Decls,
    body: &Stmt,
    block: u32,
) -> Result<u32, AllocError>
    ensures { (s inner : Scope) (all rest : List Definition) → item_judged s (tree.Function name.now at (ty_of gives.now) (decls_of parameters.now.items.items) (Some (stmt_of body.now))) ≡ Ok inner
        → AreEntered entries.old.entries block all (item_definitions s (tree.Function name.now at (ty_of gives.now) (decls_of parameters.now.items.items) (Some (stmt_of body.now))) ++ rest)
        → IfOk result (λ b. AreEntered entries.new.entries b all rest) }
{
    let _at = at;
    let _gives = gives;
    let _parameters = parameters;
    add_entry(entries, name, block)?;
    Ok(block_behind(block, body))
}

// A function begins in a block, if it is defined.
fn add_body<'t>(
    entries: &mut OrderedMap<&'t [u8], u32>,
    name: &'t [u8],
    at: u32,
    gives: &Ty,
    parameters: &Decls,
    body: &Option<Stmt>,
    block: u32,
) -> Result<u32, AllocError>
    ensures { (s inner : Scope) (all rest : List Definition) → item_judged s (tree.Function name.now at (ty_of gives.now) (decls_of parameters.now.items.items) (maybe_stmt body.now)) ≡ Ok inner
        → AreEntered entries.old.entries block all (item_definitions s (tree.Function name.now at (ty_of gives.now) (decls_of parameters.now.items.items) (maybe_stmt body.now)) ++ rest)
        → IfOk result (λ b. AreEntered entries.new.entries b all rest) }
{
    match body {
        Some(there) => add_definition(entries, name, at, gives, parameters, there, block),
        None => Ok(block),
    }
}

// An external: a function that is defined begins in a block.
fn add_item<'t>(
    entries: &mut OrderedMap<&'t [u8], u32>,
    item: &'t Item,
    block: u32,
) -> Result<u32, AllocError>
    ensures { (s inner : Scope) (all rest : List Definition) → item_judged s (item_of item.now) ≡ Ok inner → AreEntered entries.old.entries block all (item_definitions s (item_of item.now) ++ rest)
        → IfOk result (λ b. AreEntered entries.new.entries b all rest) }
{
    match item {
        Item::Struct(_tag) => Ok(block),
        Item::Object(_d) => Ok(block),
        Item::Function {
            name,
            pos,
            result: gives,
            params,
            body,
        } => add_body(entries, name.as_bytes(), *pos, gives, params, body, block),
    }
}

/// The first blocks of the functions of typed externals, by their names: two blocks stand before the first function.
pub fn entries<'t>(
    alloc: Global,
    items: &'t [Item],
) -> Result<OrderedMap<&'t [u8], u32>, AllocError>
    ensures { (s end : Scope) → all_items s (map item_of items.now) ≡ Ok end → IfOk result (λ m. (name : List ℕ) → IsNumber (entry_in m.entries name) (definition.entry_in (definitions s (map item_of items.now)) 2 name)) }
{
    let mut entries = OrderedMap::new(alloc);
    let mut block = 2;
    for item in items {
        block = add_item(&mut entries, item, block)?;
    }
    Ok(entries)
}
