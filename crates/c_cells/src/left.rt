// The kinds of the cells that a braced list leaves.

ghost use Rattle.std.specs.Prelude.{◌≡◌, ◌++◌, map, OnOk};
ghost use Rattle.c_types.specs.Types.{Tags};
ghost use Rattle.c_types.specs.Declarations as plain;
ghost use Rattle.c_types.specs.Declarations.{capacity};
ghost use Rattle.c_types.specs.Table.{Table};
ghost use Rattle.c_resolved.specs.Same.{kind_in};
ghost use Rattle.c_eval.specs.Environment.{slot_kinds};
ghost use Rattle.c_declared.specs.Slots.{AreSlots, behind};
ghost use Rattle.c_cells.specs.Structs.{AreStructKinds, AreSlotsOfSome};

use crate::kinds::add_kinds;
use crate::structs::StructKinds;
use c_declared::{Slots, member_count};
use c_layouts::Layout;
use c_store::Kind;
use c_types::Types;
use std::alloc::AllocError;

// How many objects the values of a braced list stand for.
fn capacity(layouts: &[Layout<'_>], slots: Slots) -> usize
    ensures { (table : Table) (s : plain.Slots) → AreSlots table layouts.now slots s → result ≡ capacity s }
{
    match slots {
        Slots::Elements(_, count) => count,
        Slots::Members(tag) => member_count(layouts, tag),
        Slots::Nothing => 0,
    }
}

/// The kinds of the cells that so many values of a braced list leave, behind others.
pub fn add_left(
    types: &Types<'_>,
    layouts: &[Layout<'_>],
    structs: &StructKinds,
    slots: Slots,
    from: usize,
    kinds: &mut Vec<Kind>,
) -> Result<(), AllocError>
    requires { AreSlotsOfSome types.now layouts.now slots }
    ensures { (s : plain.Slots) (tags : Tags) → AreSlots types.now layouts.now slots s → AreStructKinds types.now structs.now tags → OnOk result (map kind_in kinds.new.items ≡ map kind_in kinds.old.items ++ slot_kinds tags (behind from s)) }
{
    for k in from..capacity(layouts, slots) {
        if let Some(ty) = slots.at(layouts, k) {
            add_kinds(types, structs, ty, kinds)?;
        }
    }
    Ok(())
}
