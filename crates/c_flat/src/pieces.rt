// The instructions of first values.

ghost use Rattle.std.specs.Prelude.{◌≡◌, ◌+◌, ◌∷◌, [], IfOk, OnOk};
ghost use Rattle.c_types.specs.Types.{CType, Tags};
ghost use Rattle.c_types.specs.Declarations as plain;
ghost use Rattle.c_types.specs.Table.{HasType, IsType};
ghost use Rattle.c_declared.specs.Slots.{AreSlots, behind};
ghost use Rattle.c_declarations.specs.Sites.{AreSomeSlots};
ghost use Rattle.c_cells.specs.Structs.{AreStructKinds};
ghost use Rattle.c_eval.specs.Environment.{slot_kinds};
ghost use Rattle.c_code.specs.Code as code;
ghost use Rattle.c_emitted.specs.Emits.{Emits};

use c_cells::{StructKinds, add_left};
use c_declared::Slots;
use c_emitted::{Emitter, number_of};
use c_kinds::kind;
use c_operands::Declarations;
use c_plain::{First, Instruction};
use c_types::Types;
use std::alloc::AllocError;

/// The value on top goes to a cell of the object in a slot.
pub fn first_cell(
    types: &Types<'_>,
    out: &mut Emitter<'_>,
    ty: usize,
    slot: u32,
    offset: u32,
) -> Result<(), AllocError>
    requires { IsType types.now ty }
    ensures { (t : CType) → HasType types.now ty t → OnOk result (Emits out.old out.new (code.First slot offset t ∷ []) []) }
{
    out.add(Instruction::First(First { slot, offset }, kind(types, ty)))
}

/// Bytes go to the cells of the object in a slot, from one on.
pub fn spell(out: &mut Emitter<'_>, bytes: &[u8], slot: u32, offset: u32) -> Result<(), AllocError>
    ensures { OnOk result (Emits out.old out.new (code.Spell slot offset bytes.now ∷ []) []) }
{
    let span = out.bytes(bytes)?;
    out.add(Instruction::Spell(First { slot, offset }, span))
}

/// The cells that so many values of a braced list leave become 0 or null.
pub fn clear(
    types: &Types<'_>,
    declared: &Declarations<'_>,
    structs: &StructKinds,
    out: &mut Emitter<'_>,
    slots: Slots,
    from: usize,
    slot: u32,
    offset: u32,
) -> Result<(), AllocError>
    requires { AreSomeSlots types.now declared.now.layouts.items slots }
    ensures { (s : plain.Slots) (tags : Tags) → AreSlots types.now declared.now.layouts.items slots s → AreStructKinds types.now structs.now tags → OnOk result (Emits out.old out.new (code.Clear slot offset (slot_kinds tags (behind from s)) ∷ []) []) }
{
    let mut kinds = Vec::new(declared.alloc);
    add_left(
        types,
        declared.layouts.as_slice(),
        structs,
        slots,
        from,
        &mut kinds,
    )?;
    let span = out.kinds(kinds.as_slice())?;
    out.add(Instruction::Clear(First { slot, offset }, span))
}

/// A place so many cells further on.
pub fn further(offset: u32, words: u32) -> Result<u32, AllocError>
    ensures { IfOk result (λ n. n ≡ offset + words) }
{
    number_of(offset as usize + words as usize)
}
