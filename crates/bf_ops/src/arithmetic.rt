// Operations on registers alone.

ghost use Rattle.std.specs.Prelude.{◌≡◌, ◌+◌, ◌-◌, ◌*◌, ◌%◌, ◌^◌, ◌<◌, OnOk, OnErr};
ghost use Rattle.bf_tape.specs.Piece.{joined, Adds};
ghost use Rattle.bf_word.specs.Word.{word_in, with_word, IsCounter, AreDistinct, IsOutside};
ghost use Rattle.bf_ops.specs.OpsCode.{copy_code, mov_code, mov_cell, sum_code, take_code, difference_code};
ghost use Rattle.bf_ops.specs.Frame.{cell_of, before, value_in, lowered, IsFrame};

use crate::place::{bring, cell_of};
use bf_tape::Frag;
use bf_word::{append, aside, clear_word, dup_word, lift_by, lower_by, set};
use eir_core::{Operand, Reg};
use std::alloc::AllocError;

// One register becomes another, which is not the same.
fn copy(f: &mut Frag, to: u32, from: u32) -> Result<(), AllocError>
    requires to { to < 108 }
    requires from { from < 108 }
    requires distinct { AreDistinct from to }
    requires spare { IsOutside (from + 3) to }
    ensures code { OnOk result (f.new ≡ joined f.old (copy_code f.old.cell to from) (from + 3)) }
    ensures effect { OnOk result (Adds f.old f.new (IsCounter from) (λ input s. with_word s to (word_in s from)) (2 ^ 22) (2 ^ 13)) }
    ensures err { OnErr result (f.new ≡ f.old) }
{
    let mut piece = aside(f);
    clear_word(&mut piece, to)?;
    dup_word(&mut piece, from, to, from + 3)?;
    append(f, &piece)
}

/// A register becomes the value.
pub fn mov(f: &mut Frag, reg: Reg, operand: Operand) -> Result<(), AllocError>
    ensures code { OnOk result (f.new ≡ joined f.old (mov_code f.old.cell reg operand) (mov_cell f.old.cell reg operand)) }
    ensures effect { OnOk result (Adds f.old f.new IsFrame (λ input s. with_word s (cell_of reg) (value_in s operand)) (2 ^ 22) (2 ^ 13)) }
    ensures err { OnErr result (f.new ≡ f.old) }
{
    let to = cell_of(reg);
    match operand {
        Operand::Imm(word) => set(f, to, word),
        Operand::Reg(other) => {
            let from = cell_of(other);
            if from == to {
                return Ok(());
            }
            copy(f, to, from)
        }
    }
}

/// A register becomes its sum with the value, modulo 2^24.
pub fn add(f: &mut Frag, reg: Reg, operand: Operand) -> Result<(), AllocError>
    ensures code { OnOk result (f.new ≡ joined f.old (sum_code f.old.cell reg operand) (before reg + 2)) }
    ensures effect { OnOk result (Adds f.old f.new IsFrame (λ input s. with_word s (cell_of reg) ((word_in s (cell_of reg) + value_in s operand) % 2 ^ 24)) (2 ^ 22) (2 ^ 14)) }
    ensures err { OnErr result (f.new ≡ f.old) }
{
    let cell = cell_of(reg);
    let mut piece = aside(f);
    bring(&mut piece, operand, cell - 3)?;
    lift_by(&mut piece, cell, cell - 3)?;
    append(f, &piece)
}

/// The value taken from a register, modulo 2^24. The last cell of its counter, which is 0, becomes 1 where the register was less.
pub(crate) fn take(f: &mut Frag, reg: Reg, operand: Operand) -> Result<(), AllocError>
    ensures code { OnOk result (f.new ≡ joined f.old (take_code f.old.cell reg operand) (before reg + 2)) }
    ensures effect { OnOk result (Adds f.old f.new IsFrame (λ input s. lowered s reg (value_in s operand)) (2 ^ 22) (3 * 2 ^ 12)) }
    ensures err { OnErr result (f.new ≡ f.old) }
{
    let cell = cell_of(reg);
    let mut piece = aside(f);
    bring(&mut piece, operand, cell - 3)?;
    lower_by(&mut piece, cell, cell - 3)?;
    append(f, &piece)
}

/// A register becomes its difference with the value, modulo 2^24.
pub fn sub(f: &mut Frag, reg: Reg, operand: Operand) -> Result<(), AllocError>
    ensures code { OnOk result (f.new ≡ joined f.old (difference_code f.old.cell reg operand) (cell_of reg + 9)) }
    ensures effect { OnOk result (Adds f.old f.new IsFrame (λ input s. with_word s (cell_of reg) ((word_in s (cell_of reg) + (2 ^ 24 - value_in s operand)) % 2 ^ 24)) (2 ^ 23) (2 ^ 14)) }
    ensures err { OnErr result (f.new ≡ f.old) }
{
    let cell = cell_of(reg);
    let mut piece = aside(f);
    take(&mut piece, reg, operand)?;
    piece.clear(cell + 9)?;
    append(f, &piece)
}
