// The code of a whole text.

ghost use Rattle.std.specs.Prelude.{◌≡◌, ℕ, List, [], Ok, Option, IfOk, codes};
ghost use Rattle.c_syntax.specs.View.{unit_of};
ghost use Rattle.c_types.specs.Scope.{Scope};
ghost use Rattle.c_types.specs.Units.{all_items, start_scope};
ghost use Rattle.c_eval.specs.Text.{text_of};
ghost use Rattle.c_fitting.specs.Blocks.{UnitDeclaresInBlocks};
ghost use Rattle.c_lowered.specs.Whole as definition;
ghost use Rattle.c_lowered.specs.Whole.{linking_of};
ghost use Rattle.c_counted.specs.Numbers.{IsNumber};
ghost use Rattle.c_lower.specs.Bodies.{AreBodies};
ghost use Rattle.c_lower.specs.Placed.{PlacesLiterals};
ghost use Rattle.c_lower.specs.Whole.{IsPlaced, KnowsText};

use crate::bodies::Bodies;
use crate::functions::functions;
use crate::placed::{Placed, place};
use crate::start::opening;
use c_addressing::{Here, Output, entry_of};
use c_cells::StructKinds;
use c_emission::Location;
use c_lower_data::add_addresses;
use c_opening::open;
use c_scopes::Names;
use c_syntax::tree::Unit;
use eir_core::Op;
use ordered::OrderedMap;
use std::alloc::{AllocError, Global};

// The opening call and the functions, whose literals are placed.
fn placed_code<'t>(
    alloc: Global,
    unit: &'t Unit,
    placed: &Placed<'t>,
    at: u32,
    slots: Names<'t>,
    bases: Vec<Location>,
    entries: OrderedMap<&'t [u8], u32>,
) -> Result<Vec<Op>, AllocError>
    ensures { (end : Scope) → all_items (start_scope (unit_of unit.now)) (unit_of unit.now).items ≡ Ok end → UnitDeclaresInBlocks (unit_of unit.now) → PlacesLiterals placed.now (linking_of (unit_of unit.now)).literal
        → KnowsText slots.entry bases.items entries.entry.entries at (unit_of unit.now) → IfOk result (λ ops. ops.items ≡ definition.whole_code (unit_of unit.now)) }
{
    let opened = open(alloc, unit)?;
    let ops = Vec::new(alloc);
    let mut here = Here {
        declared: opened.declared,
        slots,
        bases,
        entries,
    };
    let mut out = Output {
        types: opened.types,
        literals: placed.other,
        ops,
    };
    let mut structs = StructKinds::new(alloc);
    let main = entry_of(&here, b"main");
    opening(&mut out, at, main)?;
    let items = unit.items.items.as_slice();
    functions(&mut out, &mut structs, &mut here, placed, items, 2)?;
    Ok(out.ops)
}

/// The code of a typed text, of whose bodies this is known: the literals of functions lie one behind the other from an
/// address on, the frame of the opening call begins at another one, and the names, the places and the first blocks are
/// those of file scope.
pub fn whole_code<'t>(
    alloc: Global,
    unit: &'t Unit,
    bodies: &Bodies<'t>,
    first: u32,
    at: u32,
    slots: Names<'t>,
    bases: Vec<Location>,
    entries: OrderedMap<&'t [u8], u32>,
) -> Result<Vec<Op>, AllocError>
    ensures { (end : Scope) → all_items (start_scope (unit_of unit.now)) (unit_of unit.now).items ≡ Ok end → UnitDeclaresInBlocks (unit_of unit.now) → AreBodies bodies.now (text_of (unit_of unit.now)).functions
        → IsPlaced slots.entry bases.items entries.entry.entries first at (unit_of unit.now) → IfOk result (λ ops. ops.items ≡ definition.whole_code (unit_of unit.now)) }
{
    let mut addresses = Vec::new(alloc);
    let literals = bodies.literals.as_slice();
    let end = add_addresses(literals, first, &mut addresses)?;
    let each = bodies.each.as_slice();
    let table = addresses.as_slice();
    let placed = place(alloc, each, table, end)?;
    placed_code(alloc, unit, &placed, at, slots, bases, entries)
}
