// The unsigned quotient and remainder: multiples of the divisor upwards, then down again.
#![tactic(auto, using(crate::proofs::Codes::codes))]

ghost use Rattle.std.specs.Prelude.{◌≡◌, ◌+◌, ◌<◌, ◌≤◌, ◌++◌, [], ◌∷◌, OnOk};
ghost use Rattle.eir_core.specs.declared.ops.Reg.TheVariants.{A, B};
ghost use Rattle.eir_core.specs.declared.ops.Operand.TheVariants.{Reg as register};
ghost use Rattle.eir_core.specs.declared.ops.Cond.TheVariants.{Gt};
ghost use Rattle.eir_core.specs.declared.ops.Op.TheVariants as eir;
ghost use Rattle.c_routines.specs.declared.item.Item.TheVariants.{Does, Jump, JumpIf};
ghost use Rattle.c_routines.specs.Items;
ghost use Rattle.c_routines.specs.Divide;

use crate::item::Item;
use crate::pieces::{constant, jump_from, label, moved, own, power, put, put_back};
use eir_core::{Cond, Op, Operand, Reg};
use std::alloc::AllocError;

// The label where the multiple of level k is in B.
fn tested(base: u32, k: u32) -> u32
    requires { k < 24 }
    ensures { result ≡ Divide.tested base k }
{
    label(base, 2 * (23 - k))
}

// The label where the multiples below level k are to be taken away.
fn down(base: u32, k: u32) -> u32
    requires { k < 24 }
    ensures { result ≡ Divide.down base k }
{
    label(base, 2 * (23 - k) + 1)
}

// The multiple in B, 2^k times the divisor, is taken away where it can be, and 2^k goes to the quotient.
fn put_level(items: &mut Vec<Item>, base: u32, k: u32) -> Result<(), AllocError>
    requires { k < 24 }
    ensures { OnOk result (items.new.items ≡ items.old.items ++ Divide.level base k []) }
{
    put(
        items,
        &[
            Item::Label(tested(base, k)),
            Item::JumpIf(Cond::Lt, down(base, k), Reg::A, Operand::Reg(Reg::B)),
            Item::Does(Op::Sub(Reg::A, Operand::Reg(Reg::B))),
            Item::Does(Op::Add(Reg::C, power(k))),
            Item::Label(down(base, k)),
        ],
    )
}

// The multiple of level k is fetched, and taken away where it can be.
fn put_fall(items: &mut Vec<Item>, base: u32, first: u32, k: u32) -> Result<(), AllocError>
    requires { k < 24 }
    ensures { OnOk result (items.new.items ≡ items.old.items ++ (Does (eir.Load B (Items.constant (first + k))) ∷ Divide.level base k [])) }
{
    put(items, &[Item::Does(Op::Load(Reg::B, own(first, k)))])?;
    put_level(items, base, k)
}

// All multiples of the levels below k are taken away.
fn put_falls(items: &mut Vec<Item>, base: u32, first: u32, k: u32) -> Result<(), AllocError>
    requires { k ≤ 24 }
    ensures { OnOk result (items.new.items ≡ items.old.items ++ Divide.falls base first k) }
{
    for j in (0..k).rev() {
        put_fall(items, base, first, j)?;
    }
    put_back(items)
}

// The multiple of level k is kept, and the next one made of it.
fn put_rise(items: &mut Vec<Item>, base: u32, first: u32, k: u32) -> Result<(), AllocError>
    requires { k < 24 }
    ensures { OnOk result (items.new.items ≡ items.old.items ++ Divide.rise base first k []) }
{
    put(
        items,
        &[
            Item::JumpIf(Cond::Gt, down(base, k), Reg::B, Operand::Reg(Reg::A)),
            Item::Does(Op::Store(Reg::B, own(first, k))),
            jump_from(tested(base, k), Reg::B, power(23)),
            Item::Does(Op::Add(Reg::B, Operand::Reg(Reg::B))),
        ],
    )
}

// The multiple of level k is kept, and no other made of it.
fn put_kept(items: &mut Vec<Item>, base: u32, first: u32, k: u32) -> Result<(), AllocError>
    requires { k < 24 }
    ensures { OnOk result (items.new.items ≡ items.old.items ++ Divide.kept base first k []) }
{
    put(
        items,
        &[
            Item::JumpIf(Cond::Gt, down(base, k), Reg::B, Operand::Reg(Reg::A)),
            Item::Does(Op::Store(Reg::B, own(first, k))),
            Item::Jump(tested(base, k)),
        ],
    )
}

// The multiple of the highest level is the last one.
fn put_highest(items: &mut Vec<Item>, base: u32, first: u32, k: u32) -> Result<(), AllocError>
    requires { k < 24 }
    ensures { OnOk result (items.new.items ≡ items.old.items ++ Divide.rises base first 0 k) }
{
    put_kept(items, base, first, k)?;
    put_level(items, base, k)?;
    put_falls(items, base, first, k)
}

// The multiples of all levels up to n.
fn put_rises(items: &mut Vec<Item>, base: u32, first: u32, n: u32) -> Result<(), AllocError>
    requires { n < 24 }
    ensures { OnOk result (items.new.items ≡ items.old.items ++ Divide.rises base first n 0) }
{
    for k in 0..n {
        put_rise(items, base, first, k)?;
    }
    put_highest(items, base, first, n)
}

/// The remainder of A by B comes to A, and the quotient to C. The 24 words from `first` on are used.
pub fn put_divide(items: &mut Vec<Item>, base: u32, first: u32) -> Result<(), AllocError>
    ensures { OnOk result (items.new.items ≡ items.old.items ++ Divide.divide base first) }
{
    put(items, &[moved(Reg::C, constant(0))])?;
    put_rises(items, base, first, 23)
}
