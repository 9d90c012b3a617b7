// The routines, and which of them a program uses.
#![tactic(auto, using(crate::proofs::Codes::codes))]

ghost use Rattle.std.specs.Prelude.{◌≡◌, ◌<◌, ◌++◌, [], ◌∷◌, OnOk};
ghost use Rattle.c_routines.specs.declared.routine.Routine.TheVariants.{Product, Divide, SignedDivide, Both, Some, One, Left, Right, SignedRight, Unsigned, Decimal, Hexadecimal, Text};
ghost use Rattle.c_routines.specs.Routines;

use crate::both::{put_both, put_one, put_some};
use crate::item::Item;
use crate::pieces::{label, put};
use crate::printing::{put_decimal, put_numeral, put_text};
use crate::product::put_product;
use crate::quotient::put_divide;
use crate::radix::Radix;
use crate::shifts::{put_left, put_right};
use crate::signs::{put_signed_divide, put_signed_right};
use std::alloc::AllocError;

/// A routine: operands are in A and B, and the block to come back to in SP.
#[derive(Clone, Copy)]
pub enum Routine {
    /// The product of A and B modulo 2^24 comes to A.
    Product,
    /// The remainder of A by B comes to A, and the quotient to C.
    Divide,
    /// The same of signed words.
    SignedDivide,
    /// The bits that A and B both have come to A.
    Both,
    /// The bits that A or B has come to A.
    Some,
    /// The bits that only one of A and B has come to A.
    One,
    /// A is shifted to the left by B.
    Left,
    /// A is shifted to the right by B, without sign.
    Right,
    /// A is shifted to the right by B, with its sign.
    SignedRight,
    /// The digits of A are written.
    Unsigned,
    /// The digits of A are written, as a signed number.
    Decimal,
    /// The hexadecimal digits of A are written.
    Hexadecimal,
    /// The bytes at the address in A are written, up to the word 0.
    Text,
}

/// Which routines a program uses.
#[derive(Clone, Copy)]
pub struct Used {
    pub product: bool,
    pub divide: bool,
    pub signed_divide: bool,
    pub both: bool,
    pub some: bool,
    pub one: bool,
    pub left: bool,
    pub right: bool,
    pub signed_right: bool,
    pub unsigned: bool,
    pub decimal: bool,
    pub hexadecimal: bool,
    pub text: bool,
}

// The place of a routine in their order.
fn number(routine: Routine) -> u32
    ensures place { result ≡ Routines.number routine }
    ensures few { result < 13 }
{
    match routine {
        Routine::Product => 0,
        Routine::Divide => 1,
        Routine::SignedDivide => 2,
        Routine::Both => 3,
        Routine::Some => 4,
        Routine::One => 5,
        Routine::Left => 6,
        Routine::Right => 7,
        Routine::SignedRight => 8,
        Routine::Unsigned => 9,
        Routine::Decimal => 10,
        Routine::Hexadecimal => 11,
        Routine::Text => 12,
    }
}

/// The label where a routine begins, where the labels of all begin with `base`: each has 64.
pub fn entry(base: u32, routine: Routine) -> u32
    ensures { result ≡ Routines.entry base routine }
{
    label(base, 64 * number(routine))
}

// The label from which on a routine has its own.
fn own_labels(base: u32, routine: Routine) -> u32
    ensures { result ≡ Routines.own base routine }
{
    label(entry(base, routine), 1)
}

impl Used {
    ghost use Rattle.c_routines.specs.Routines.{needs};

    /// Whether this one is used, or one that uses it.
    pub fn needs(self, routine: Routine) -> bool
        ensures { result ≡ needs self routine }
    {
        match routine {
            Routine::Product => self.product,
            Routine::Divide => self.divide || self.signed_divide,
            Routine::SignedDivide => self.signed_divide,
            Routine::Both => self.both || self.some || self.one,
            Routine::Some => self.some,
            Routine::One => self.one,
            Routine::Left => self.left,
            Routine::Right => self.right || self.signed_right,
            Routine::SignedRight => self.signed_right,
            Routine::Unsigned => self.unsigned || self.decimal,
            Routine::Decimal => self.decimal,
            Routine::Hexadecimal => self.hexadecimal,
            Routine::Text => self.text,
        }
    }
}

// A routine's code.
fn put_code(
    items: &mut Vec<Item>,
    routine: Routine,
    base: u32,
    first: u32,
) -> Result<(), AllocError>
    ensures { OnOk result (items.new.items ≡ items.old.items ++ Routines.code_of base first routine) }
{
    let own = own_labels(base, routine);
    match routine {
        Routine::Product => put_product(items, own),
        Routine::Divide => put_divide(items, own, first),
        Routine::SignedDivide => {
            put_signed_divide(items, own, first, entry(base, Routine::Divide))
        }
        Routine::Both => put_both(items, own),
        Routine::Some => put_some(items, own, first, entry(base, Routine::Both)),
        Routine::One => put_one(items, own, first, entry(base, Routine::Both)),
        Routine::Left => put_left(items, own),
        Routine::Right => put_right(items, own),
        Routine::SignedRight => put_signed_right(items, own, first, entry(base, Routine::Right)),
        Routine::Unsigned => put_numeral(items, Radix::Ten, own),
        Routine::Decimal => put_decimal(items, own, entry(base, Routine::Unsigned)),
        Routine::Hexadecimal => put_numeral(items, Radix::Sixteen, own),
        Routine::Text => put_text(items, own),
    }
}

// A routine with the label of its entry, where it is needed.
#[tactic(auto, using(crate::proofs::Codes::codes, crate::proofs::Codes::not_needed, crate::proofs::Codes::needed))]
fn put_routine(
    items: &mut Vec<Item>,
    used: Used,
    routine: Routine,
    base: u32,
    first: u32,
) -> Result<(), AllocError>
    ensures { OnOk result (items.new.items ≡ items.old.items ++ Routines.routine_of used base first routine) }
{
    if used.needs(routine) {
        put(items, &[Item::Label(entry(base, routine))])?;
        put_code(items, routine, base, first)
    } else {
        Ok(())
    }
}

// Products and quotients.
fn put_products(items: &mut Vec<Item>, used: Used, base: u32, first: u32) -> Result<(), AllocError>
    ensures { OnOk result (items.new.items ≡ items.old.items ++ Routines.each_of (Product ∷ Divide ∷ SignedDivide ∷ []) used base first) }
{
    put_routine(items, used, Routine::Product, base, first)?;
    put_routine(items, used, Routine::Divide, base, first)?;
    put_routine(items, used, Routine::SignedDivide, base, first)
}

// Operations on bits.
fn put_bits(items: &mut Vec<Item>, used: Used, base: u32, first: u32) -> Result<(), AllocError>
    ensures { OnOk result (items.new.items ≡ items.old.items ++ Routines.each_of (Both ∷ Some ∷ One ∷ []) used base first) }
{
    put_routine(items, used, Routine::Both, base, first)?;
    put_routine(items, used, Routine::Some, base, first)?;
    put_routine(items, used, Routine::One, base, first)
}

// Shifts.
fn put_shifts(items: &mut Vec<Item>, used: Used, base: u32, first: u32) -> Result<(), AllocError>
    ensures { OnOk result (items.new.items ≡ items.old.items ++ Routines.each_of (Left ∷ Right ∷ SignedRight ∷ []) used base first) }
{
    put_routine(items, used, Routine::Left, base, first)?;
    put_routine(items, used, Routine::Right, base, first)?;
    put_routine(items, used, Routine::SignedRight, base, first)
}

// What is written.
fn put_printing(items: &mut Vec<Item>, used: Used, base: u32, first: u32) -> Result<(), AllocError>
    ensures { OnOk result (items.new.items ≡ items.old.items ++ Routines.each_of (Unsigned ∷ Decimal ∷ Hexadecimal ∷ Text ∷ []) used base first) }
{
    put_routine(items, used, Routine::Unsigned, base, first)?;
    put_routine(items, used, Routine::Decimal, base, first)?;
    put_routine(items, used, Routine::Hexadecimal, base, first)?;
    put_routine(items, used, Routine::Text, base, first)
}

/// The routines that are used, or that a used one needs, in their order. Their 832 labels begin with `base`, and their 26
/// words of the memory with `first`.
pub fn put_routines(
    items: &mut Vec<Item>,
    used: Used,
    base: u32,
    first: u32,
) -> Result<(), AllocError>
    ensures { OnOk result (items.new.items ≡ items.old.items ++ Routines.routines used base first) }
{
    put_products(items, used, base, first)?;
    put_bits(items, used, base, first)?;
    put_shifts(items, used, base, first)?;
    put_printing(items, used, base, first)
}
