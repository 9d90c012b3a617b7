// The whole text.

ghost use Rattle.std.specs.Prelude.{◌≡◌, ◌++◌, ℕ, List, map, true, Ok, IfOk};
ghost use Rattle.c_syntax.specs.View.{item_of, unit_of};
ghost use Rattle.c_types.specs.Scope.{Scope, contains};
ghost use Rattle.c_types.specs.Typed.{plain_of};
ghost use Rattle.c_types.specs.Units.{start_scope, all_items};
ghost use Rattle.c_types.specs.Table.{texts};
ghost use Rattle.c_declared.specs.Held.{Holds};
ghost use Rattle.c_opening.specs.Named.{tags_in, HasNumber};
ghost use Rattle.c_helpers.specs.Fewer.{fewer_in_items};
ghost use Rattle.c_helpers.specs.Simple as plain;

use crate::items::pass_items;
use c_fewer_operators::Here;
use c_format_terms::add_helpers_for;
use c_kept::keep_reached;
use c_opening::open_named;
use c_operands::Declarations;
use c_syntax::tree::{Item, Items, Unit};
use c_types::{Typed, Types};
use std::alloc::{AllocError, Global};

// The externals of a typed text, from what is declared before the first one.
fn pass_opened<'t>(
    types: Types<'t>,
    declared: Declarations<'t>,
    tags: Vec<&'t [u8]>,
    unit: &'t Unit,
) -> Result<Vec<Item>, AllocError>
    requires holds { Holds types declared (start_scope (unit_of unit.now)) }
    requires numbered { (name : List ℕ) → contains (tags_in (map item_of unit.now.items.items.items)) name ≡ true → HasNumber types name }
    requires names { texts tags.items ≡ types.tags }
    ensures { (end : Scope) → all_items (start_scope (unit_of unit.now)) (unit_of unit.now).items ≡ Ok end → IfOk result (λ r. map item_of r.items ≡ fewer_in_items (start_scope (unit_of unit.now)) (unit_of unit.now).items) }
{
    let mut types = types;
    let mut here = Here { declared, tags };
    pass_items(&mut types, &mut here, unit.items.items.as_slice())
}

// The externals of a typed text.
fn pass_unit(alloc: Global, unit: &Unit) -> Result<Vec<Item>, AllocError>
    ensures { (end : Scope) → all_items (start_scope (unit_of unit.now)) (unit_of unit.now).items ≡ Ok end → IfOk result (λ r. map item_of r.items ≡ fewer_in_items (start_scope (unit_of unit.now)) (unit_of unit.now).items) }
{
    let named = open_named(alloc, unit)?;
    let opening = named.opening;
    pass_opened(opening.types, opening.declared, named.tags, unit)
}

// All helper functions, and behind them externals with calls of them.
fn with_helpers(alloc: Global, items: Vec<Item>) -> Result<Vec<Item>, AllocError>
    ensures { IfOk result (λ r. map item_of r.items ≡ plain.with_helpers (map item_of items.items)) }
{
    let mut all = Vec::new(alloc);
    add_helpers_for(alloc, items.as_slice(), &mut all)?;
    let mut others = items;
    all.append(&mut others)?;
    Ok(all)
}

// The text with calls of helper functions of a tree that is typed.
fn desugar_unit(alloc: Global, unit: &Unit) -> Result<Unit, AllocError>
    ensures { (end : Scope) → all_items (start_scope (unit_of unit.now)) (unit_of unit.now).items ≡ Ok end → IfOk result (λ r. unit_of r ≡ plain.desugared (unit_of unit.now)) }
{
    let own = pass_unit(alloc, unit)?;
    let mut all = with_helpers(alloc, own)?;
    keep_reached(alloc, &mut all)?;
    Ok(Unit {
        items: Items { items: all },
        end: unit.end,
    })
}

/// A typed text with calls of helper functions in place of operators: all helper functions stand in front, and functions
/// that aren't reached are declared alone.
pub fn desugar(alloc: Global, typed: &Typed) -> Result<Unit, AllocError>
    ensures { IfOk result (λ r. unit_of r ≡ plain.desugared (plain_of typed.now)) }
{
    desugar_unit(alloc, typed.unit())
}
