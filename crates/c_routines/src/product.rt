// The product: the smaller operand is taken bit by bit, from the highest.
#![tactic(auto, using(crate::proofs::Codes::codes))]

ghost use Rattle.std.specs.Prelude.{◌≡◌, ◌<◌, ◌≤◌, ◌^◌, ◌++◌, [], ◌∷◌, OnOk};
ghost use Rattle.eir_core.specs.declared.ops.Reg.TheVariants.{A, B, C};
ghost use Rattle.eir_core.specs.declared.ops.Cond.TheVariants.{Lt, Le};
ghost use Rattle.eir_core.specs.declared.ops.Operand.TheVariants.{Reg as register};
ghost use Rattle.eir_core.specs.declared.ops.Op.TheVariants as eir;
ghost use Rattle.c_routines.specs.declared.item.Item.TheVariants.{Does, Label, JumpIf};
ghost use Rattle.c_routines.specs.Items.{constant};
ghost use Rattle.c_routines.specs.Product;

use crate::item::Item;
use crate::pieces::{constant, jump_below, label, moved, power, put, put_result};
use eir_core::{Cond, Op, Operand, Reg};
use std::alloc::AllocError;

// The label where the bits below level k begin.
fn skip(base: u32, k: u32) -> u32
    requires { k ≤ 24 }
    ensures { result ≡ Product.skip base k }
{
    label(base, 24 - k)
}

// The bit of a level above the lowest.
fn put_higher(items: &mut Vec<Item>, base: u32, k: u32) -> Result<(), AllocError>
    requires { k < 24 }
    ensures { OnOk result (items.new.items ≡ items.old.items ++ Product.higher base k []) }
{
    put(
        items,
        &[
            jump_below(skip(base, k), Reg::A, power(k)),
            Item::Does(Op::Sub(Reg::A, power(k))),
            Item::Does(Op::Add(Reg::C, Operand::Reg(Reg::B))),
            Item::Label(skip(base, k)),
        ],
    )
}

// The bit of the lowest level, which isn't taken away.
fn put_lowest(items: &mut Vec<Item>, base: u32) -> Result<(), AllocError>
    ensures { OnOk result (items.new.items ≡ items.old.items ++ Product.turn base 0 []) }
{
    put(
        items,
        &[
            jump_below(skip(base, 0), Reg::A, constant(1)),
            Item::Does(Op::Add(Reg::C, Operand::Reg(Reg::B))),
            Item::Label(skip(base, 0)),
        ],
    )
}

// The bit of level k, which is the highest that A may still have.
#[tactic(auto, using(crate::proofs::Codes::turn_is, crate::proofs::Codes::turn_lowest))]
fn put_turn(items: &mut Vec<Item>, base: u32, k: u32) -> Result<(), AllocError>
    requires { k < 24 }
    ensures { OnOk result (items.new.items ≡ items.old.items ++ Product.turn base k []) }
{
    if k == 0 {
        put_lowest(items, base)
    } else {
        put_higher(items, base, k)
    }
}

// The sum is doubled, and the bit of level k comes.
fn put_bit(items: &mut Vec<Item>, base: u32, k: u32) -> Result<(), AllocError>
    requires { k < 24 }
    ensures { OnOk result (items.new.items ≡ items.old.items ++ (Does (eir.Add C (register C)) ∷ Product.turn base k [])) }
{
    put(items, &[Item::Does(Op::Add(Reg::C, Operand::Reg(Reg::C)))])?;
    put_turn(items, base, k)
}

// All bits below level k.
fn put_bits(items: &mut Vec<Item>, base: u32, k: u32) -> Result<(), AllocError>
    requires { k ≤ 24 }
    ensures { OnOk result (items.new.items ≡ items.old.items ++ Product.bits base k) }
{
    for j in (0..k).rev() {
        put_bit(items, base, j)?;
    }
    put_result(items)
}

// The smaller operand comes to A.
fn put_exchange(items: &mut Vec<Item>, ordered: u32) -> Result<(), AllocError>
    ensures { OnOk result (items.new.items ≡ items.old.items ++ Product.exchanged ordered []) }
{
    put(
        items,
        &[
            Item::JumpIf(Cond::Le, ordered, Reg::A, Operand::Reg(Reg::B)),
            moved(Reg::C, Operand::Reg(Reg::A)),
            moved(Reg::A, Operand::Reg(Reg::B)),
            moved(Reg::B, Operand::Reg(Reg::C)),
            Item::Label(ordered),
        ],
    )
}

// A small operand begins at a lower level.
fn put_small(items: &mut Vec<Item>, base: u32) -> Result<(), AllocError>
    ensures { OnOk result (items.new.items ≡ items.old.items ++ Product.begun base []) }
{
    put(
        items,
        &[
            moved(Reg::C, constant(0)),
            jump_below(skip(base, 6), Reg::A, power(6)),
            jump_below(skip(base, 12), Reg::A, power(12)),
        ],
    )
}

// The smaller operand comes to A, and a small one begins at a lower level.
fn put_ordered(items: &mut Vec<Item>, base: u32) -> Result<(), AllocError>
    ensures { OnOk result (items.new.items ≡ items.old.items ++ Product.ordered base []) }
{
    put_exchange(items, label(base, 0))?;
    put_small(items, base)
}

/// The product modulo 2^24 of A and B comes to A.
pub fn put_product(items: &mut Vec<Item>, base: u32) -> Result<(), AllocError>
    ensures { OnOk result (items.new.items ≡ items.old.items ++ Product.product base) }
{
    put_ordered(items, base)?;
    put_turn(items, base, 23)?;
    put_bits(items, base, 23)
}
