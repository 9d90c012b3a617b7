// Numbers and texts are written.
#![tactic(auto, using(crate::proofs::Codes::codes, crate::proofs::Lettered::lettered_on))]

ghost use Rattle.std.specs.Prelude.{◌≡◌, ◌+◌, ◌<◌, ◌≤◌, ◌^◌, ◌++◌, [], ◌∷◌, OnOk};
ghost use Rattle.eir_core.specs.declared.ops.Reg.TheVariants.{A, B};
ghost use Rattle.eir_core.specs.declared.ops.Operand.TheVariants.{Reg as register};
ghost use Rattle.eir_core.specs.declared.ops.Cond.TheVariants.{Lt, Eq};
ghost use Rattle.eir_core.specs.declared.ops.Op.TheVariants as eir;
ghost use Rattle.c_routines.specs.declared.item.Item.TheVariants.{Does, Label, Jump, JumpIf};
ghost use Rattle.c_routines.specs.Items;
ghost use Rattle.c_routines.specs.Numeral;
ghost use Rattle.c_routines.specs.Decimal.{decimal};
ghost use Rattle.c_routines.specs.Text.{byte, text};

use crate::item::Item;
use crate::pieces::{constant, jump_below, label, moved, power, put, put_negated};
use crate::radix::Radix;
use eir_core::{Cond, Op, Operand, Reg};
use std::alloc::AllocError;

// The highest place of a word, where the lowest is 0.
fn highest(radix: Radix) -> u32
    ensures place { result ≡ Numeral.highest radix }
    ensures few { result ≤ 7 }
{
    match radix {
        Radix::Ten => 7,
        Radix::Sixteen => 5,
    }
}

// What a place counts.
fn weight(radix: Radix, k: u32) -> Operand
    requires { k ≤ 8 }
    ensures { result ≡ Items.constant (Numeral.radix_number radix ^ k) }
{
    match radix {
        Radix::Ten => constant(10u64.pow(k)),
        Radix::Sixteen => constant(16u64.pow(k)),
    }
}

// The label where a place begins.
fn begins(radix: Radix, base: u32, k: u32) -> u32
    requires { k ≤ Numeral.highest radix }
    ensures { result ≡ Numeral.begins radix base k }
{
    label(base, 4 * (highest(radix) - k))
}

// The label where its digit is counted.
fn again(radix: Radix, base: u32, k: u32) -> u32
    requires { k ≤ Numeral.highest radix }
    ensures { result ≡ Numeral.again radix base k }
{
    label(base, 4 * (highest(radix) - k) + 1)
}

// The label where its digit is known.
fn known(radix: Radix, base: u32, k: u32) -> u32
    requires { k ≤ Numeral.highest radix }
    ensures { result ≡ Numeral.known radix base k }
{
    label(base, 4 * (highest(radix) - k) + 2)
}

// The label where it is written.
fn writes_it(radix: Radix, base: u32, k: u32) -> u32
    requires { k ≤ Numeral.highest radix }
    ensures { result ≡ Numeral.writes_it radix base k }
{
    label(base, 4 * (highest(radix) - k) + 3)
}

// From ten on a digit is a letter.
fn put_lettered(items: &mut Vec<Item>, radix: Radix, small: u32, r: Reg) -> Result<(), AllocError>
    ensures { OnOk result (items.new.items ≡ items.old.items ++ Numeral.lettered radix small r []) }
{
    match radix {
        Radix::Ten => Ok(()),
        Radix::Sixteen => put(
            items,
            &[
                jump_below(small, r, constant(58)),
                Item::Does(Op::Add(r, constant(39))),
                Item::Label(small),
            ],
        ),
    }
}

// The digit at a place that counts q is counted up from the code of 0 in B.
fn put_counted(
    items: &mut Vec<Item>,
    begins: u32,
    again: u32,
    known: u32,
    q: Operand,
) -> Result<(), AllocError>
    ensures { OnOk result (items.new.items ≡ items.old.items ++ (Label begins ∷ Numeral.counted again known q [])) }
{
    put(
        items,
        &[
            Item::Label(begins),
            moved(Reg::B, constant(48)),
            Item::Label(again),
            jump_below(known, Reg::A, q),
            Item::Does(Op::Sub(Reg::A, q)),
            Item::Does(Op::Add(Reg::B, constant(1))),
            Item::Jump(again),
            Item::Label(known),
        ],
    )
}

// The digit at a place is counted, and written.
fn put_digit(items: &mut Vec<Item>, radix: Radix, base: u32, k: u32) -> Result<(), AllocError>
    requires { k ≤ Numeral.highest radix }
    ensures { OnOk result (items.new.items ≡ items.old.items ++ (Label (Numeral.begins radix base k) ∷ Numeral.digit radix base k (Numeral.radix_number radix ^ k) [])) }
{
    let first = begins(radix, base, k);
    put_counted(
        items,
        first,
        again(radix, base, k),
        known(radix, base, k),
        weight(radix, k),
    )?;
    put_lettered(items, radix, writes_it(radix, base, k), Reg::B)?;
    put(items, &[Item::Does(Op::Putc(Operand::Reg(Reg::B)))])
}

// The last digit is written from A.
fn put_last(items: &mut Vec<Item>, radix: Radix, base: u32) -> Result<(), AllocError>
    ensures { OnOk result (items.new.items ≡ items.old.items ++ Numeral.last radix base) }
{
    put(
        items,
        &[
            Item::Label(begins(radix, base, 0)),
            Item::Does(Op::Add(Reg::A, constant(48))),
        ],
    )?;
    put_lettered(items, radix, writes_it(radix, base, 0), Reg::A)?;
    put(
        items,
        &[
            Item::Does(Op::Putc(Operand::Reg(Reg::A))),
            Item::Does(Op::Jump(Operand::Reg(Reg::SP))),
        ],
    )
}

// The digits of the places from k down.
fn put_places(items: &mut Vec<Item>, radix: Radix, base: u32, k: u32) -> Result<(), AllocError>
    requires { k ≤ Numeral.highest radix }
    ensures { OnOk result (items.new.items ≡ items.old.items ++ Numeral.places radix base k) }
{
    for j in (0..k).rev() {
        put_digit(items, radix, base, j + 1)?;
    }
    put_last(items, radix, base)
}

// The lowest place at which nothing is left above is found.
fn put_find(items: &mut Vec<Item>, radix: Radix, base: u32, k: u32) -> Result<(), AllocError>
    requires { k < Numeral.highest radix }
    ensures { OnOk result (items.new.items ≡ items.old.items ++ Numeral.find radix base k []) }
{
    put(
        items,
        &[jump_below(begins(radix, base, k), Reg::A, weight(radix, k + 1))],
    )
}

/// The digits of A are written.
pub fn put_numeral(items: &mut Vec<Item>, radix: Radix, base: u32) -> Result<(), AllocError>
    ensures { OnOk result (items.new.items ≡ items.old.items ++ Numeral.numeral radix base) }
{
    let top = highest(radix);
    for k in 0..top {
        put_find(items, radix, base, k)?;
    }
    put_places(items, radix, base, top)
}

/// The digits of A are written, as a signed number. At `entry` stands the routine that writes it without sign.
pub fn put_decimal(items: &mut Vec<Item>, base: u32, entry: u32) -> Result<(), AllocError>
    ensures { OnOk result (items.new.items ≡ items.old.items ++ decimal entry base) }
{
    put(
        items,
        &[
            jump_below(label(base, 0), Reg::A, power(23)),
            Item::Does(Op::Putc(constant(45))),
        ],
    )?;
    put_negated(items, Reg::A, Reg::B)?;
    put(items, &[Item::Label(label(base, 0)), Item::Jump(entry)])
}

// A byte is written, and the next address taken.
fn put_byte(items: &mut Vec<Item>, again: u32, end: u32) -> Result<(), AllocError>
    ensures { OnOk result (items.new.items ≡ items.old.items ++ byte again end []) }
{
    put(
        items,
        &[
            Item::Label(again),
            Item::Does(Op::Load(Reg::B, Operand::Reg(Reg::A))),
            Item::JumpIf(Cond::Eq, end, Reg::B, constant(0)),
            Item::Does(Op::Putc(Operand::Reg(Reg::B))),
            Item::Does(Op::Add(Reg::A, constant(1))),
            Item::Jump(again),
        ],
    )
}

/// The bytes at the address in A are written, up to the word 0.
pub fn put_text(items: &mut Vec<Item>, base: u32) -> Result<(), AllocError>
    ensures { OnOk result (items.new.items ≡ items.old.items ++ text base) }
{
    let end = label(base, 1);
    put_byte(items, label(base, 0), end)?;
    put(
        items,
        &[
            Item::Label(end),
            Item::Does(Op::Jump(Operand::Reg(Reg::SP))),
        ],
    )
}
