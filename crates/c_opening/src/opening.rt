// The scope before a text's first external.

ghost use Rattle.std.specs.Prelude.{◌≡◌, ℕ, true, map, Some, slice_get, IfOk, replicate, length};
ghost use Rattle.c_syntax.specs.View.{item_of, unit_of};
ghost use Rattle.c_types.specs.Scope.{contains};
ghost use Rattle.c_types.specs.Units.{start_scope};
ghost use Rattle.c_types.specs.Table.{texts};
ghost use Rattle.c_layouts.specs.declared.layout.Layout.TheVariants.{Undeclared};
ghost use Rattle.c_declared.specs.Held.{Holds};
ghost use Rattle.c_opening.specs.Named.{tags_in, HasNumber};

use crate::built_ins::declare_built_ins;
use crate::named::{defined_of, tags_of};
use c_layouts::Layout;
use c_operands::Declarations;
use c_scopes::Names;
use c_syntax::tree::Unit;
use c_types::Types;
use ordered::OrderedSet;
use std::alloc::{AllocError, Global};

/// What is known before a text's first external: the types, and what is declared.
#[derive(Drop)]
pub struct Opening<'t> {
    pub types: Types<'t>,
    pub declared: Declarations<'t>,
}

/// What is known before a text's first external, and the names of the tags in the order of their numbers.
#[derive(Drop)]
pub struct NamedOpening<'t> {
    pub opening: Opening<'t>,
    pub tags: Vec<&'t [u8]>,
}

// So many tags without a declaration.
fn undeclared<'t>(alloc: Global, count: usize) -> Result<Vec<Layout<'t>>, AllocError>
    ensures { IfOk result (λ layouts. layouts.items ≡ replicate count Undeclared) }
{
    let mut layouts = Vec::new(alloc);
    for _index in 0..count {
        layouts.push(Layout::Undeclared)?;
    }
    Ok(layouts)
}

// What is known before a text's first external, where the tags are numbered in the order of a set.
fn open_over<'t>(
    alloc: Global,
    unit: &'t Unit,
    tags: OrderedSet<&'t [u8]>,
) -> Result<Opening<'t>, AllocError>
    ensures holds { IfOk result (λ o. Holds o.types o.declared (start_scope (unit_of unit.now))) }
    ensures tags { IfOk result (λ o. o.types.tags ≡ texts tags.entry.keys) }
{
    let items = unit.items.items.as_slice();
    let layouts = undeclared(alloc, tags.len())?;
    let defined = defined_of(alloc, items)?;
    let mut types = Types::new(alloc, tags);
    let mut names = Names::new(alloc);
    declare_built_ins(&mut types, &mut names)?;
    let declared = Declarations {
        alloc,
        layouts,
        names,
        defined,
    };
    Ok(Opening { types, declared })
}

/// What is known before a text's first external, with the names of the tags in the order of their numbers. Each tag that
/// the text declares has a number.
pub fn open_named<'t>(alloc: Global, unit: &'t Unit) -> Result<NamedOpening<'t>, AllocError>
    ensures holds { IfOk result (λ o. Holds o.opening.types o.opening.declared (start_scope (unit_of unit.now))) }
    ensures numbered { (name : _) → contains (tags_in (map item_of unit.now.items.items.items)) name ≡ true → IfOk result (λ o. HasNumber o.opening.types name) }
    ensures names { IfOk result (λ o. texts o.tags.items ≡ o.opening.types.tags) }
{
    let tags = tags_of(alloc, unit.items.items.as_slice())?;
    let names = Vec::from_slice(alloc, tags.as_slice())?;
    let opening = open_over(alloc, unit, tags)?;
    Ok(NamedOpening {
        opening,
        tags: names,
    })
}

/// What is known before a text's first external. Each tag that the text declares has a number.
pub fn open<'t>(alloc: Global, unit: &'t Unit) -> Result<Opening<'t>, AllocError>
    ensures holds { IfOk result (λ o. Holds o.types o.declared (start_scope (unit_of unit.now))) }
    ensures numbered { (name : _) → contains (tags_in (map item_of unit.now.items.items.items)) name ≡ true → IfOk result (λ o. HasNumber o.types name) }
{
    let named = open_named(alloc, unit)?;
    Ok(named.opening)
}
