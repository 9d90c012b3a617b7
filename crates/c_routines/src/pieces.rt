// Items that the routines have in common.
#![tactic(auto, using(crate::proofs::Codes::codes))]

ghost use Rattle.std.specs.Prelude.{◌≡◌, ◌+◌, ◌^◌, ◌<◌, ◌++◌, [], ◌∷◌, OnOk};
ghost use Rattle.eir_core.specs.declared.ops.Reg.TheVariants.{A, C, SP};
ghost use Rattle.eir_core.specs.declared.ops.Operand.TheVariants.{Reg as register};
ghost use Rattle.eir_core.specs.declared.ops.Cond.TheVariants.{Lt, Ge};
ghost use Rattle.eir_core.specs.declared.ops.Op.TheVariants as eir;
ghost use Rattle.c_routines.specs.declared.item.Item.TheVariants.{Does, JumpIf};
ghost use Rattle.c_routines.specs.Items;
ghost use Rattle.c_routines.specs.Using.{negate, entered, left_again};

use crate::item::Item;
use eir_core::{Cond, Op, Operand, Reg};
use std::alloc::AllocError;
use word24::Word;

// The word that a number is modulo 2^24.
fn wrapped(number: u64) -> Word
    ensures { result ≡ Items.wrapped number }
{
    Word::wrap(number)
}

/// The operand that is this number modulo 2^24.
pub fn constant(number: u64) -> Operand
    ensures { result ≡ Items.constant number }
{
    Operand::Imm(wrapped(number))
}

/// A routine's label of this number.
#[tactic(auto, unfolding(crate::specs::Items::label_of))]
pub fn label(base: u32, number: u32) -> u32
    ensures { result ≡ Items.label_of base number }
{
    base.wrapping_add(number)
}

/// 2^k as an operand.
pub fn power(k: u32) -> Operand
    requires { k < 24 }
    ensures { result ≡ Items.constant (2 ^ k) }
{
    constant(2u64.pow(k))
}

/// The word of the routines at this place, where they begin with `first`.
pub fn own(first: u32, place: u32) -> Operand
    ensures { result ≡ Items.constant (first + place) }
{
    constant(first as u64 + place as u64)
}

/// A register becomes the value.
pub fn moved(r: Reg, v: Operand) -> Item
    ensures { result ≡ Does (eir.Mov r v) }
{
    Item::Does(Op::Mov(r, v))
}

/// A jump to a label where a register is less than a value.
pub fn jump_below(target: u32, r: Reg, v: Operand) -> Item
    ensures { result ≡ JumpIf Lt target r v }
{
    Item::JumpIf(Cond::Lt, target, r, v)
}

/// A jump to a label where a register is at least a value.
pub fn jump_from(target: u32, r: Reg, v: Operand) -> Item
    ensures { result ≡ JumpIf Ge target r v }
{
    Item::JumpIf(Cond::Ge, target, r, v)
}

/// More items.
pub fn put(items: &mut Vec<Item>, more: &[Item]) -> Result<(), AllocError>
    ensures { OnOk result (items.new.items ≡ items.old.items ++ more.now) }
{
    items.extend_from_slice(more)?;
    Ok(())
}

/// The jump back to where a routine was entered from.
pub fn put_back(items: &mut Vec<Item>) -> Result<(), AllocError>
    ensures { OnOk result (items.new.items ≡ items.old.items ++ (Does (eir.Jump (register SP)) ∷ [])) }
{
    put(items, &[Item::Does(Op::Jump(Operand::Reg(Reg::SP)))])
}

/// The result moves from C to A, and the routine is left.
pub fn put_result(items: &mut Vec<Item>) -> Result<(), AllocError>
    ensures { OnOk result (items.new.items ≡ items.old.items ++ (Does (eir.Mov A (register C)) ∷ Does (eir.Jump (register SP)) ∷ [])) }
{
    put(
        items,
        &[
            moved(Reg::A, Operand::Reg(Reg::C)),
            Item::Does(Op::Jump(Operand::Reg(Reg::SP))),
        ],
    )
}

/// A register becomes what it lacks to 0, by way of another.
pub fn put_negated(items: &mut Vec<Item>, r: Reg, by: Reg) -> Result<(), AllocError>
    ensures { OnOk result (items.new.items ≡ items.old.items ++ Items.does (negate r by) []) }
{
    put(
        items,
        &[
            moved(by, Operand::Reg(r)),
            moved(r, constant(0)),
            Item::Does(Op::Sub(r, Operand::Reg(by))),
        ],
    )
}

/// Another routine is entered, with the block in SP kept in the word 24; it comes back to the label that follows.
pub fn put_entered(
    items: &mut Vec<Item>,
    entry: u32,
    return_to: u32,
    first: u32,
) -> Result<(), AllocError>
    ensures { OnOk result (items.new.items ≡ items.old.items ++ entered entry return_to first []) }
{
    put(
        items,
        &[
            Item::Does(Op::Store(Reg::SP, own(first, 24))),
            Item::MoveLabel(Reg::SP, return_to),
            Item::Jump(entry),
            Item::Label(return_to),
        ],
    )
}

/// The block in SP is fetched again, and the routine is left.
pub fn put_left_again(items: &mut Vec<Item>, first: u32) -> Result<(), AllocError>
    ensures { OnOk result (items.new.items ≡ items.old.items ++ left_again first []) }
{
    put(
        items,
        &[
            Item::Does(Op::Load(Reg::SP, own(first, 24))),
            Item::Does(Op::Jump(Operand::Reg(Reg::SP))),
        ],
    )
}
