// The bits that both operands have, that at least one has, and that only one has.
#![tactic(auto, using(crate::proofs::Codes::codes))]

ghost use Rattle.std.specs.Prelude.{◌≡◌, ◌<◌, ◌≤◌, ◌++◌, [], ◌∷◌, OnOk};
ghost use Rattle.eir_core.specs.declared.ops.Reg.TheVariants.{A, B, C};
ghost use Rattle.eir_core.specs.declared.ops.Cond.TheVariants.{Lt};
ghost use Rattle.eir_core.specs.declared.ops.Op.TheVariants as eir;
ghost use Rattle.c_routines.specs.declared.item.Item.TheVariants.{Does, Label, Jump, JumpIf};
ghost use Rattle.c_routines.specs.Items.{does};
ghost use Rattle.c_routines.specs.Both;
ghost use Rattle.c_routines.specs.Some.{sum_kept, sum_less, some, one};

use crate::item::Item;
use crate::pieces::{
    constant, jump_below, jump_from, label, moved, own, power, put, put_entered, put_left_again,
    put_result,
};
use eir_core::{Op, Operand, Reg};
use std::alloc::AllocError;

// The label where the bits below level k begin.
fn below(base: u32, k: u32) -> u32
    requires { k < 24 }
    ensures { result ≡ Both.below base k }
{
    label(base, 2 * (23 - k) + 3)
}

// The label where B has no bit of level k.
fn lacking(base: u32, k: u32) -> u32
    requires { k < 24 }
    ensures { result ≡ Both.lacking base k }
{
    label(base, 2 * (23 - k) + 2)
}

// Where both have the bit of level k, it is taken from both, and goes to C.
fn put_shared(
    items: &mut Vec<Item>,
    bit: Operand,
    lacking: u32,
    below: u32,
) -> Result<(), AllocError>
    ensures { OnOk result (items.new.items ≡ items.old.items ++ Both.shared bit lacking below []) }
{
    put(
        items,
        &[
            jump_below(lacking, Reg::B, bit),
            Item::Does(Op::Sub(Reg::B, bit)),
            jump_below(below, Reg::A, bit),
            Item::Does(Op::Sub(Reg::A, bit)),
            Item::Does(Op::Add(Reg::C, bit)),
            Item::Jump(below),
        ],
    )
}

// Where B lacks the bit of level k, it is taken from A.
fn put_alone(
    items: &mut Vec<Item>,
    bit: Operand,
    lacking: u32,
    below: u32,
) -> Result<(), AllocError>
    ensures { OnOk result (items.new.items ≡ items.old.items ++ Both.alone bit lacking below []) }
{
    put(
        items,
        &[
            Item::Label(lacking),
            jump_below(below, Reg::A, bit),
            Item::Does(Op::Sub(Reg::A, bit)),
            Item::Label(below),
        ],
    )
}

// The bit of level k is taken from each that has it, and goes to C if both had it.
fn put_mask(items: &mut Vec<Item>, base: u32, k: u32) -> Result<(), AllocError>
    requires { k < 24 }
    ensures { OnOk result (items.new.items ≡ items.old.items ++ Both.mask base k []) }
{
    let bit = power(k);
    let without = lacking(base, k);
    let next = below(base, k);
    put_shared(items, bit, without, next)?;
    put_alone(items, bit, without, next)
}

// All bits below level k.
fn put_masks(items: &mut Vec<Item>, base: u32, k: u32) -> Result<(), AllocError>
    requires { k ≤ 24 }
    ensures { OnOk result (items.new.items ≡ items.old.items ++ Both.masks base k) }
{
    for j in (0..k).rev() {
        put_mask(items, base, j)?;
    }
    put_result(items)
}

// Two operands that are small both begin at a lower level.
fn put_begun(items: &mut Vec<Item>, base: u32) -> Result<(), AllocError>
    ensures { OnOk result (items.new.items ≡ items.old.items ++ Both.begun base []) }
{
    put(
        items,
        &[
            moved(Reg::C, constant(0)),
            jump_from(label(base, 0), Reg::A, power(8)),
            jump_below(below(base, 8), Reg::B, power(8)),
            Item::Label(label(base, 0)),
            jump_from(label(base, 1), Reg::A, power(16)),
            jump_below(below(base, 16), Reg::B, power(16)),
            Item::Label(label(base, 1)),
        ],
    )
}

/// The bits that both A and B have come to A.
pub fn put_both(items: &mut Vec<Item>, base: u32) -> Result<(), AllocError>
    ensures { OnOk result (items.new.items ≡ items.old.items ++ Both.both base) }
{
    put_begun(items, base)?;
    put_masks(items, base, 24)
}

// The sum of the operands is kept, and comes back less the bits that both have.
fn put_sum_kept(items: &mut Vec<Item>, first: u32) -> Result<(), AllocError>
    ensures { OnOk result (items.new.items ≡ items.old.items ++ does (sum_kept first) []) }
{
    put(
        items,
        &[
            moved(Reg::C, Operand::Reg(Reg::A)),
            Item::Does(Op::Add(Reg::C, Operand::Reg(Reg::B))),
            Item::Does(Op::Store(Reg::C, own(first, 25))),
        ],
    )
}

// The sum comes back less the bits that both have.
fn put_sum_less(items: &mut Vec<Item>, first: u32) -> Result<(), AllocError>
    ensures { OnOk result (items.new.items ≡ items.old.items ++ does (sum_less first) []) }
{
    put(
        items,
        &[
            moved(Reg::B, Operand::Reg(Reg::A)),
            Item::Does(Op::Load(Reg::A, own(first, 25))),
            Item::Does(Op::Sub(Reg::A, Operand::Reg(Reg::B))),
        ],
    )
}

/// The bits that A or B has come to A. At `entry` stands the routine of the bits that both have.
pub fn put_some(items: &mut Vec<Item>, base: u32, first: u32, entry: u32) -> Result<(), AllocError>
    ensures { OnOk result (items.new.items ≡ items.old.items ++ some entry base first) }
{
    put_sum_kept(items, first)?;
    put_entered(items, entry, label(base, 0), first)?;
    put_sum_less(items, first)?;
    put_left_again(items, first)
}

/// The bits that only one of A and B has come to A. At `entry` stands the routine of the bits that both have.
pub fn put_one(items: &mut Vec<Item>, base: u32, first: u32, entry: u32) -> Result<(), AllocError>
    ensures { OnOk result (items.new.items ≡ items.old.items ++ one entry base first) }
{
    put_sum_kept(items, first)?;
    put_entered(items, entry, label(base, 0), first)?;
    put_sum_less(items, first)?;
    put(items, &[Item::Does(Op::Sub(Reg::A, Operand::Reg(Reg::B)))])?;
    put_left_again(items, first)
}
