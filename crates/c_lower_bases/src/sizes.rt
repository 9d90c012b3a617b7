// The objects of file scope: how many cells each has, and whether it has a first value.

ghost use Rattle.std.specs.Prelude.{◌≡◌, ◌∷◌, [], ◌++◌, ℕ, map, length, Ok, IfOk, OnOk};
ghost use Rattle.c_syntax.specs.View.{item_of, unit_of};
ghost use Rattle.c_types.specs.Scope.{Scope};
ghost use Rattle.c_types.specs.Units.{all_items, start_scope};
ghost use Rattle.c_resolved.specs.Same.{lengths_of};
ghost use Rattle.c_eval.specs.Text.{text_of};
ghost use Rattle.c_lowered.specs.Whole as definition;

use c_cells::StructKinds;
use c_emitted::Emitter;
use c_objects::file_objects;
use c_opening::open;
use c_store::Cell;
use c_syntax::tree::{Item, Unit};
use std::alloc::{AllocError, Global};

// How many cells objects have.
fn sizes_of(alloc: Global, objects: &[Vec<Cell>]) -> Result<Vec<usize>, AllocError>
    ensures { IfOk result (λ v. v.items ≡ map (λ cells. length cells.items) objects.now) }
{
    let mut sizes = Vec::new(alloc);
    for cells in objects {
        sizes.push(cells.len())?;
    }
    Ok(sizes)
}

/// How many cells each object of file scope of a typed text has.
pub fn file_sizes<'t>(alloc: Global, unit: &'t Unit) -> Result<Vec<usize>, AllocError>
    ensures { (end : Scope) → all_items (start_scope (unit_of unit.now)) (unit_of unit.now).items ≡ Ok end → IfOk result (λ v. v.items ≡ lengths_of (text_of (unit_of unit.now)).objects) }
{
    let opening = open(alloc, unit)?;
    let mut types = opening.types;
    let mut declared = opening.declared;
    let mut structs = StructKinds::new(alloc);
    let mut out = Emitter::new(alloc);
    let items = unit.items.items.as_slice();
    file_objects(&mut types, &mut declared, &mut structs, &mut out, items)?;
    sizes_of(alloc, out.objects.as_slice())
}

// Whether an external, if it is an object, has a first value.
fn add_first(item: &Item, given: &mut Vec<bool>) -> Result<(), AllocError>
    ensures { OnOk result (given.new.items ≡ given.old.items ++ definition.firsts_given (item_of item.now ∷ [])) }
{
    match item {
        Item::Struct(_tag) => Ok(()),
        Item::Object(d) => {
            given.push(d.first.is_some())?;
            Ok(())
        }
        Item::Function { .. } => Ok(()),
    }
}

/// Whether each object of file scope has a first value.
pub fn firsts_given(alloc: Global, items: &[Item]) -> Result<Vec<bool>, AllocError>
    ensures { IfOk result (λ v. v.items ≡ definition.firsts_given (map item_of items.now)) }
{
    let mut given = Vec::new(alloc);
    for item in items {
        add_first(item, &mut given)?;
    }
    Ok(given)
}
