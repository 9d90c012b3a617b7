// Shifts: a jump into a row of pieces that are alike.
#![tactic(auto, using(crate::proofs::Codes::codes))]

ghost use Rattle.std.specs.Prelude.{◌≡◌, ◌<◌, ◌≤◌, ◌++◌, [], ◌∷◌, OnOk};
ghost use Rattle.eir_core.specs.declared.ops.Reg.TheVariants.{A};
ghost use Rattle.eir_core.specs.declared.ops.Operand.TheVariants.{Reg as register};
ghost use Rattle.eir_core.specs.declared.ops.Op.TheVariants as eir;
ghost use Rattle.c_routines.specs.declared.item.Item.TheVariants.{Does, Label};
ghost use Rattle.c_routines.specs.Left;
ghost use Rattle.c_routines.specs.Right;

use crate::item::Item;
use crate::pieces::{constant, jump_below, label, moved, power, put, put_back, put_result};
use eir_core::{Op, Operand, Reg};
use std::alloc::AllocError;

// The label where so many doublings are left.
fn left_over(base: u32, k: u32) -> u32
    requires { k ≤ 24 }
    ensures { result ≡ Left.left_over base k }
{
    label(base, 24 - k)
}

// One doubling, with k left.
fn put_doubling(items: &mut Vec<Item>, base: u32, k: u32) -> Result<(), AllocError>
    requires { k ≤ 24 }
    ensures { OnOk result (items.new.items ≡ items.old.items ++ (Does (eir.Add A (register A)) ∷ Label (Left.left_over base k) ∷ [])) }
{
    put(
        items,
        &[
            Item::Does(Op::Add(Reg::A, Operand::Reg(Reg::A))),
            Item::Label(left_over(base, k)),
        ],
    )
}

// So many doublings.
fn put_doublings(items: &mut Vec<Item>, base: u32, k: u32) -> Result<(), AllocError>
    requires { k ≤ 24 }
    ensures { OnOk result (items.new.items ≡ items.old.items ++ Left.doublings base k) }
{
    for j in (0..k).rev() {
        put_doubling(items, base, j)?;
    }
    put_back(items)
}

/// A is shifted to the left by B.
pub fn put_left(items: &mut Vec<Item>, base: u32) -> Result<(), AllocError>
    ensures { OnOk result (items.new.items ≡ items.old.items ++ Left.left base) }
{
    put(
        items,
        &[
            Item::MoveLabel(Reg::C, left_over(base, 0)),
            Item::Does(Op::Sub(Reg::C, Operand::Reg(Reg::B))),
            Item::Does(Op::Jump(Operand::Reg(Reg::C))),
            Item::Label(left_over(base, 24)),
        ],
    )?;
    put_doublings(items, base, 24)
}

// The label where so many bits are left.
fn bits_left(base: u32, k: u32) -> u32
    requires { k ≤ 24 }
    ensures { result ≡ Right.bits_left base k }
{
    label(base, 24 - k)
}

// One more bit goes over from A to C, with k left.
fn put_piece(items: &mut Vec<Item>, base: u32, k: u32) -> Result<(), AllocError>
    requires { k ≤ 24 }
    ensures { OnOk result (items.new.items ≡ items.old.items ++ Right.piece base k []) }
{
    put(
        items,
        &[
            Item::Does(Op::Add(Reg::A, Operand::Reg(Reg::A))),
            Item::Does(Op::Add(Reg::C, Operand::Reg(Reg::C))),
            jump_below(bits_left(base, k), Reg::A, power(23)),
            Item::Does(Op::Add(Reg::C, constant(1))),
            Item::Label(bits_left(base, k)),
        ],
    )
}

// So many bits more.
fn put_pieces(items: &mut Vec<Item>, base: u32, k: u32) -> Result<(), AllocError>
    requires { k ≤ 24 }
    ensures { OnOk result (items.new.items ≡ items.old.items ++ Right.pieces base k) }
{
    for j in (0..k).rev() {
        put_piece(items, base, j)?;
    }
    put_result(items)
}

// The highest bit is taken, and the jump made.
fn put_first_bit(items: &mut Vec<Item>, base: u32) -> Result<(), AllocError>
    ensures { OnOk result (items.new.items ≡ items.old.items ++ Right.first_bit base []) }
{
    put(
        items,
        &[
            Item::Does(Op::Add(Reg::B, Operand::Reg(Reg::B))),
            Item::MoveLabel(Reg::C, bits_left(base, 23)),
            Item::Does(Op::Add(Reg::B, Operand::Reg(Reg::C))),
            moved(Reg::C, constant(0)),
            jump_below(label(base, 0), Reg::A, power(23)),
            moved(Reg::C, constant(1)),
            Item::Label(label(base, 0)),
            Item::Does(Op::Jump(Operand::Reg(Reg::B))),
            Item::Label(bits_left(base, 23)),
        ],
    )
}

/// A is shifted to the right by B, without sign.
pub fn put_right(items: &mut Vec<Item>, base: u32) -> Result<(), AllocError>
    ensures { OnOk result (items.new.items ≡ items.old.items ++ Right.right base) }
{
    put_first_bit(items, base)?;
    put_pieces(items, base, 23)
}
