// Comparisons whose answer a register becomes.

ghost use Rattle.std.specs.Prelude.{◌≡◌, ◌+◌, ◌-◌, ◌*◌, ◌^◌, ◌<◌, ◌≤◌, true, false, nat_eq, nat_lt, nat_le, cond as choice, OnOk, OnErr};
ghost use Rattle.eir_core.specs.Step.{holds};
ghost use Rattle.bf_tape.specs.Tape.{get, put};
ghost use Rattle.bf_tape.specs.Piece.{joined, Adds};
ghost use Rattle.bf_word.specs.Word.{word_in, with_word};
ghost use Rattle.bf_ops.specs.OpsCode.{tell_code, answer_code, set_if_code};
ghost use Rattle.bf_ops.specs.Frame.{cell_of, value_in, answered, is_otherwise, told_of, told, is_negated, IsFrame};

use crate::arithmetic::{sub, take};
use crate::place::cell_of;
use bf_tape::Frag;
use bf_word::{append, aside, clear_word, lower_once};
use eir_core::{Cond, Operand, Reg};
use std::alloc::AllocError;

/// A comparison that is told where a register stands, of which `Ne`, `Ge` and `Gt` are the negations.
#[derive(Clone, Copy)]
pub enum Told {
    Same,
    Smaller,
    AtMost,
}

// The comparison that is told for one.
fn told_of(test: Cond) -> Told
    ensures { result ≡ told_of test }
{
    match test {
        Cond::Eq | Cond::Ne => Told::Same,
        Cond::Lt | Cond::Ge => Told::Smaller,
        Cond::Le | Cond::Gt => Told::AtMost,
    }
}

// Whether a comparison is told as its negation.
fn is_otherwise(test: Cond) -> bool
    ensures { result ≡ is_otherwise test }
{
    match test {
        Cond::Ne | Cond::Ge | Cond::Gt => true,
        Cond::Eq | Cond::Lt | Cond::Le => false,
    }
}

/// Whether a comparison is the negation of one that tells of two words whether they are the same, or the first is less.
pub fn is_negated(test: Cond) -> bool
    ensures { result ≡ is_negated test }
{
    match test {
        Cond::Ne | Cond::Ge | Cond::Le => true,
        Cond::Eq | Cond::Lt | Cond::Gt => false,
    }
}

// Whether a register is the value: one taken from their difference borrows.
fn tell_same(f: &mut Frag, reg: Reg, operand: Operand) -> Result<(), AllocError>
    ensures code { OnOk result (f.new ≡ joined f.old (tell_code f.old.cell Told.Same reg operand) (cell_of reg + 9)) }
    ensures effect { OnOk result (Adds f.old f.new IsFrame (λ input s. answered s reg (nat_eq (word_in s (cell_of reg)) (value_in s operand))) (3 * 2 ^ 22) (2 ^ 15)) }
    ensures err { OnErr result (f.new ≡ f.old) }
{
    let cell = cell_of(reg);
    let mut piece = aside(f);
    sub(&mut piece, reg, operand)?;
    lower_once(&mut piece, cell)?;
    clear_word(&mut piece, cell)?;
    piece.move_to(cell + 9, cell - 1)?;
    append(f, &piece)
}

// Whether a register is less than the value: taking the value borrows.
fn tell_smaller(f: &mut Frag, reg: Reg, operand: Operand) -> Result<(), AllocError>
    ensures code { OnOk result (f.new ≡ joined f.old (tell_code f.old.cell Told.Smaller reg operand) (cell_of reg + 9)) }
    ensures effect { OnOk result (Adds f.old f.new IsFrame (λ input s. answered s reg (nat_lt (word_in s (cell_of reg)) (value_in s operand))) (3 * 2 ^ 22) (2 ^ 15)) }
    ensures err { OnErr result (f.new ≡ f.old) }
{
    let cell = cell_of(reg);
    let mut piece = aside(f);
    take(&mut piece, reg, operand)?;
    clear_word(&mut piece, cell)?;
    piece.move_to(cell + 9, cell - 1)?;
    append(f, &piece)
}

// Whether a register is the value or less: taking the value and one more borrows once.
fn tell_at_most(f: &mut Frag, reg: Reg, operand: Operand) -> Result<(), AllocError>
    ensures code { OnOk result (f.new ≡ joined f.old (tell_code f.old.cell Told.AtMost reg operand) (cell_of reg + 9)) }
    ensures effect { OnOk result (Adds f.old f.new IsFrame (λ input s. answered s reg (nat_le (word_in s (cell_of reg)) (value_in s operand))) (3 * 2 ^ 22) (2 ^ 15)) }
    ensures err { OnErr result (f.new ≡ f.old) }
{
    let cell = cell_of(reg);
    let mut piece = aside(f);
    take(&mut piece, reg, operand)?;
    piece.move_to(cell + 9, cell - 1)?;
    lower_once(&mut piece, cell)?;
    clear_word(&mut piece, cell)?;
    piece.move_to(cell + 9, cell - 1)?;
    append(f, &piece)
}

// A register becomes 0, and the cell before it 1 where the comparison that is told holds for it and the value.
fn tell(f: &mut Frag, comparison: Told, reg: Reg, operand: Operand) -> Result<(), AllocError>
    ensures code { OnOk result (f.new ≡ joined f.old (tell_code f.old.cell comparison reg operand) (cell_of reg + 9)) }
    ensures effect { OnOk result (Adds f.old f.new IsFrame (λ input s. answered s reg (told comparison (word_in s (cell_of reg)) (value_in s operand))) (3 * 2 ^ 22) (2 ^ 15)) }
    ensures err { OnErr result (f.new ≡ f.old) }
{
    match comparison {
        Told::Same => tell_same(f, reg, operand),
        Told::Smaller => tell_smaller(f, reg, operand),
        Told::AtMost => tell_at_most(f, reg, operand),
    }
}

// The cell before a register that is 0 moved to it.
fn answer_same(f: &mut Frag, reg: Reg) -> Result<(), AllocError>
    ensures code { OnOk result (f.new ≡ joined f.old (answer_code f.old.cell false reg) (cell_of reg - 1)) }
    ensures effect { OnOk result (Adds f.old f.new (λ s. (get s (cell_of reg) ≡ 0) × (get s (cell_of reg - 1) ≤ 1)) (λ input s. put (put s (cell_of reg) (get s (cell_of reg - 1))) (cell_of reg - 1) 0) (2 ^ 19) (2 ^ 11)) }
    ensures err { OnErr result (f.new ≡ f.old) }
{
    let cell = cell_of(reg);
    let mut piece = aside(f);
    piece.move_to(cell - 1, cell)?;
    append(f, &piece)
}

// The negation of the cell before a register that is 0 moved to it.
fn answer_other(f: &mut Frag, reg: Reg) -> Result<(), AllocError>
    ensures code { OnOk result (f.new ≡ joined f.old (answer_code f.old.cell true reg) (cell_of reg - 1)) }
    ensures effect { OnOk result (Adds f.old f.new (λ s. (get s (cell_of reg) ≡ 0) × (get s (cell_of reg - 1) ≤ 1)) (λ input s. put (put s (cell_of reg) (1 - get s (cell_of reg - 1))) (cell_of reg - 1) 0) (2 ^ 19) (2 ^ 11)) }
    ensures err { OnErr result (f.new ≡ f.old) }
{
    let cell = cell_of(reg);
    let mut piece = aside(f);
    piece.add_const(cell, 1)?;
    piece.drain(cell - 1, cell)?;
    append(f, &piece)
}

// The cell before a register that is 0, or its negation, moved to it.
fn answer(f: &mut Frag, otherwise: bool, reg: Reg) -> Result<(), AllocError>
    ensures code { OnOk result (f.new ≡ joined f.old (answer_code f.old.cell otherwise reg) (cell_of reg - 1)) }
    ensures effect { OnOk result (Adds f.old f.new (λ s. (get s (cell_of reg) ≡ 0) × (get s (cell_of reg - 1) ≤ 1)) (λ input s. put (put s (cell_of reg) (choice otherwise (1 - get s (cell_of reg - 1)) (get s (cell_of reg - 1)))) (cell_of reg - 1) 0) (2 ^ 19) (2 ^ 11)) }
    ensures err { OnErr result (f.new ≡ f.old) }
{
    if otherwise {
        return answer_other(f, reg);
    }
    answer_same(f, reg)
}

/// A register becomes 1 where a comparison of it with the value holds, and else 0. It is told where the register stands: the
/// value is taken from it, and a borrow tells.
pub fn set_if(f: &mut Frag, test: Cond, reg: Reg, operand: Operand) -> Result<(), AllocError>
    ensures code { OnOk result (f.new ≡ joined f.old (set_if_code f.old.cell test reg operand) (cell_of reg - 1)) }
    ensures effect { OnOk result (Adds f.old f.new IsFrame (λ input s. with_word s (cell_of reg) (choice (holds test (word_in s (cell_of reg)) (value_in s operand)) 1 0)) (2 ^ 24) (2 ^ 17)) }
    ensures err { OnErr result (f.new ≡ f.old) }
{
    let mut piece = aside(f);
    tell(&mut piece, told_of(test), reg, operand)?;
    answer(&mut piece, is_otherwise(test), reg)?;
    append(f, &piece)
}
