// Words of a frame that are known: what a string spells, and what a braced list leaves.

ghost use Rattle.std.specs.Prelude.{◌≡◌, ℕ, ◌++◌, [], ◌∷◌, length, replicate, IfOk, OnOk};
ghost use Rattle.eir_core.specs.declared.ops.Reg.TheVariants.{A};
ghost use Rattle.eir_core.specs.declared.ops.Op.TheVariants as eir;
ghost use Rattle.c_types.specs.Types.{Tags};
ghost use Rattle.c_types.specs.Declarations as plain;
ghost use Rattle.c_types.specs.Declarations.{first_slot};
ghost use Rattle.c_types.specs.Table.{HasType};
ghost use Rattle.c_declared.specs.Slots.{AreSlots, behind};
ghost use Rattle.c_declarations.specs.Sites.{AreSomeSlots};
ghost use Rattle.c_cells.specs.Structs.{AreStructKinds};
ghost use Rattle.c_eval.specs.Environment.{slot_kinds, type_or_nothing};
ghost use Rattle.c_lowered.specs.Locations as location;
ghost use Rattle.c_lowered.specs.Operations as definition;
ghost use Rattle.c_lowered.specs.Statements.{spelled};
ghost use Rattle.c_counted.specs.Numbers.{IsNumber};
ghost use Rattle.c_addressing.specs.Here.{Emits};
ghost use Rattle.c_applied.specs.Leads.{Keeps};

use c_addressing::{Here, Output, operation, store};
use c_cells::{StructKinds, add_left};
use c_counted::next;
use c_declared::Slots;
use c_emission::{Location, constant};
use c_static::type_at;
use eir_core::{Op, Reg};
use std::alloc::AllocError;

// A word goes to a word of the frame.
fn spell_word(out: &mut Output<'_>, word: u32, at: u32) -> Result<(), AllocError>
    ensures { (n : ℕ) → IsNumber at n → OnOk result (Emits out.old out.new (eir.Mov A (definition.constant word) ∷ definition.store_to (location.Framed n)) 0) }
{
    operation(out, Op::Mov(Reg::A, constant(word)))?;
    store(out, Location::Framed(at))
}

/// Bytes go to words of the frame, from one on.
pub fn spell(out: &mut Output<'_>, bytes: &[u8], at: u32) -> Result<(), AllocError>
    ensures { (n : ℕ) → IsNumber at n → OnOk result (Emits out.old out.new (spelled bytes.now n) 0) }
{
    let mut place = at;
    for byte in bytes {
        spell_word(out, u32::from(*byte), place)?;
        place = next(place);
    }
    Ok(())
}

// So many words of the frame become 0, from one on.
fn spell_zeros(out: &mut Output<'_>, count: usize, at: u32) -> Result<(), AllocError>
    ensures { (n : ℕ) → IsNumber at n → OnOk result (Emits out.old out.new (spelled (replicate count 0) n) 0) }
{
    let mut place = at;
    for _index in 0..count {
        spell_word(out, 0, place)?;
        place = next(place);
    }
    Ok(())
}

/// The words that so many values of a braced list leave become 0, from a word of the frame on.
pub fn clear(
    out: &mut Output<'_>,
    structs: &StructKinds,
    here: &Here<'_>,
    slots: Slots,
    from: usize,
    at: u32,
) -> Result<(), AllocError>
    requires { AreSomeSlots out.old.types here.now.declared.layouts.items slots }
    ensures code { (s : plain.Slots) (tags : Tags) (n : ℕ) → AreSlots out.old.types here.now.declared.layouts.items slots s → AreStructKinds out.old.types structs.now tags → IsNumber at n → OnOk result (Emits out.old out.new (spelled (replicate (length (slot_kinds tags (behind from s))) 0) n) 0) }
    ensures keeps { OnOk result (Keeps out.old out.new) }
{
    let mut kinds = Vec::new(here.declared.alloc);
    let layouts = here.declared.layouts.as_slice();
    add_left(&out.types, layouts, structs, slots, from, &mut kinds)?;
    let count = kinds.len();
    spell_zeros(out, count, at)
}

/// The number of the type of the object that a value of a braced list stands for, or that of void.
pub fn slot_type(
    out: &mut Output<'_>,
    here: &Here<'_>,
    slots: Slots,
    k: usize,
) -> Result<usize, AllocError>
    requires { AreSomeSlots out.old.types here.now.declared.layouts.items slots }
    ensures ty { (s : plain.Slots) → AreSlots out.old.types here.now.declared.layouts.items slots s → IfOk result (λ n. HasType out.new.types n (type_or_nothing (first_slot (behind k s)))) }
    ensures still { OnOk result (Emits out.old out.new [] 0) }
{
    let ty = type_at(&mut out.types, &here.declared, slots, k)?;
    Ok(ty)
}
