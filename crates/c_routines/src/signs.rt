// Routines on signed numbers: signs are taken off, and put back after the routine without signs.
#![tactic(auto, using(crate::proofs::Codes::codes))]

ghost use Rattle.std.specs.Prelude.{◌≡◌, ◌^◌, ◌++◌, [], ◌∷◌, OnOk};
ghost use Rattle.eir_core.specs.declared.ops.Reg.TheVariants.{A, B, C};
ghost use Rattle.eir_core.specs.declared.ops.Cond.TheVariants.{Ge};
ghost use Rattle.c_routines.specs.declared.item.Item.TheVariants.{Label, Jump, JumpIf};
ghost use Rattle.c_routines.specs.Items.{constant, does, label_of};
ghost use Rattle.c_routines.specs.Using.{negate, entered, left_again};
ghost use Rattle.c_routines.specs.SignedDivide as signed;
ghost use Rattle.c_routines.specs.SignedRight as shift;

use crate::item::Item;
use crate::pieces::{
    constant, jump_from, label, moved, power, put, put_entered, put_left_again, put_negated,
};
use eir_core::{Op, Operand, Reg};
use std::alloc::AllocError;

// A register becomes what it lacks to 0, and another routine is entered.
fn put_negated_entered(
    items: &mut Vec<Item>,
    r: Reg,
    by: Reg,
    entry: u32,
    return_to: u32,
    first: u32,
) -> Result<(), AllocError>
    ensures { OnOk result (items.new.items ≡ items.old.items ++ does (negate r by) (entered entry return_to first [])) }
{
    put_negated(items, r, by)?;
    put_entered(items, entry, return_to, first)
}

// A register becomes what it lacks to 0, and the routine is left.
fn put_negated_left(items: &mut Vec<Item>, r: Reg, by: Reg, first: u32) -> Result<(), AllocError>
    ensures { OnOk result (items.new.items ≡ items.old.items ++ does (negate r by) (left_again first [])) }
{
    put_negated(items, r, by)?;
    put_left_again(items, first)
}

// Two operands without sign are divided as they are.
fn put_signs_tested(items: &mut Vec<Item>, base: u32, entry: u32) -> Result<(), AllocError>
    ensures { OnOk result (items.new.items ≡ items.old.items ++ signed.signs_tested entry base []) }
{
    put(
        items,
        &[
            jump_from(label(base, 2), Reg::A, power(23)),
            jump_from(label(base, 0), Reg::B, power(23)),
            Item::Jump(entry),
            Item::Label(label(base, 0)),
        ],
    )
}

// No operand is negative, or B alone is.
fn put_positive(items: &mut Vec<Item>, base: u32, first: u32, entry: u32) -> Result<(), AllocError>
    ensures { OnOk result (items.new.items ≡ items.old.items ++ signed.positive entry base first []) }
{
    put_signs_tested(items, base, entry)?;
    put_negated_entered(items, Reg::B, Reg::C, entry, label(base, 1), first)?;
    put_negated_left(items, Reg::C, Reg::B, first)
}

// A alone is negative.
fn put_negative(items: &mut Vec<Item>, base: u32, first: u32, entry: u32) -> Result<(), AllocError>
    ensures { OnOk result (items.new.items ≡ items.old.items ++ signed.negative entry base first []) }
{
    put(items, &[Item::Label(label(base, 2))])?;
    put_negated(items, Reg::A, Reg::C)?;
    put(items, &[jump_from(label(base, 4), Reg::B, power(23))])?;
    put_entered(items, entry, label(base, 3), first)?;
    put_negated(items, Reg::C, Reg::B)?;
    put_negated_left(items, Reg::A, Reg::B, first)
}

// Both are.
fn put_both_negative(
    items: &mut Vec<Item>,
    base: u32,
    first: u32,
    entry: u32,
) -> Result<(), AllocError>
    ensures { OnOk result (items.new.items ≡ items.old.items ++ signed.both_negative entry base first []) }
{
    put(items, &[Item::Label(label(base, 4))])?;
    put_negated_entered(items, Reg::B, Reg::C, entry, label(base, 5), first)?;
    put_negated_left(items, Reg::A, Reg::B, first)
}

/// The signed remainder of A by B comes to A, and the quotient to C. At `entry` stands the routine that divides.
pub fn put_signed_divide(
    items: &mut Vec<Item>,
    base: u32,
    first: u32,
    entry: u32,
) -> Result<(), AllocError>
    ensures { OnOk result (items.new.items ≡ items.old.items ++ signed.signed_divide entry base first) }
{
    put_positive(items, base, first, entry)?;
    put_negative(items, base, first, entry)?;
    put_both_negative(items, base, first, entry)
}

// A becomes what it lacks to 2^24 - 1.
fn put_turned(items: &mut Vec<Item>) -> Result<(), AllocError>
    ensures { OnOk result (items.new.items ≡ items.old.items ++ does shift.turned []) }
{
    put(
        items,
        &[
            moved(Reg::C, constant(16777215)),
            Item::Does(Op::Sub(Reg::C, Operand::Reg(Reg::A))),
            moved(Reg::A, Operand::Reg(Reg::C)),
        ],
    )
}

// A becomes what it lacks to 2^24 - 1, and another routine is entered.
fn put_turned_entered(
    items: &mut Vec<Item>,
    entry: u32,
    return_to: u32,
    first: u32,
) -> Result<(), AllocError>
    ensures { OnOk result (items.new.items ≡ items.old.items ++ does shift.turned (entered entry return_to first [])) }
{
    put_turned(items)?;
    put_entered(items, entry, return_to, first)
}

// A becomes what it lacks to 2^24 - 1, and the routine is left.
fn put_turned_left(items: &mut Vec<Item>, first: u32) -> Result<(), AllocError>
    ensures { OnOk result (items.new.items ≡ items.old.items ++ does shift.turned (left_again first [])) }
{
    put_turned(items)?;
    put_left_again(items, first)
}

// A word without sign is shifted as it is.
fn put_sign_tested(items: &mut Vec<Item>, base: u32, entry: u32) -> Result<(), AllocError>
    ensures { OnOk result (items.new.items ≡ items.old.items ++ (JumpIf Ge (label_of base 0) A (constant (2 ^ 23)) ∷ Jump entry ∷ Label (label_of base 0) ∷ [])) }
{
    put(
        items,
        &[
            jump_from(label(base, 0), Reg::A, power(23)),
            Item::Jump(entry),
            Item::Label(label(base, 0)),
        ],
    )
}

/// A is shifted to the right by B, with its sign. At `entry` stands the routine that shifts without sign.
pub fn put_signed_right(
    items: &mut Vec<Item>,
    base: u32,
    first: u32,
    entry: u32,
) -> Result<(), AllocError>
    ensures { OnOk result (items.new.items ≡ items.old.items ++ shift.signed_right entry base first) }
{
    put_sign_tested(items, base, entry)?;
    put_turned_entered(items, entry, label(base, 1), first)?;
    put_turned_left(items, first)
}
