// Memory, input and output.

ghost use Rattle.std.specs.Prelude.{◌≡◌, ◌+◌, ◌*◌, ◌%◌, ◌^◌, OnOk, OnErr};
ghost use Rattle.word24.specs.Word.{number_of};
ghost use Rattle.bf_tape.specs.Piece.{joined, Adds};
ghost use Rattle.bf_word.specs.Word.{word_in};
ghost use Rattle.bf_ops.specs.OpsCode.{ask_load_code, ask_store_code, getc_code, put_constant_code, putc_code, putc_cell};
ghost use Rattle.bf_ops.specs.Frame.{cell_of, value_in, read_into, written, IsFrame};
ghost use Rattle.bf_ops.specs.Ask.{asking};
ghost use Rattle.bf_ops.specs.Ask.Ask.{Loading, Storing};

use crate::place::{bring, cell_of};
use crate::service::{ADDRESS, LOADS, STORES, VALUE};
use bf_tape::Frag;
use bf_word::{append, aside, clear_word, dup_word};
use eir_core::{Operand, Reg};
use std::alloc::AllocError;
use word24::Word;

/// Asks for the word of memory at an address, for a register.
pub fn load(f: &mut Frag, reg: Reg, operand: Operand) -> Result<(), AllocError>
    ensures code { OnOk result (f.new ≡ joined f.old (ask_load_code f.old.cell reg operand) 46) }
    ensures effect { OnOk result (Adds f.old f.new IsFrame (λ input s. asking (Loading reg (value_in s operand)) s) (3 * 2 ^ 20 + 2 ^ 12) (2 ^ 14)) }
    ensures err { OnErr result (f.new ≡ f.old) }
{
    let cell = cell_of(reg);
    let mut piece = aside(f);
    bring(&mut piece, operand, ADDRESS)?;
    piece.add_const(cell + 6, 1)?;
    piece.add_const(LOADS, 1)?;
    append(f, &piece)
}

/// Asks that the word of memory at an address become a register.
pub fn store(f: &mut Frag, reg: Reg, operand: Operand) -> Result<(), AllocError>
    ensures code { OnOk result (f.new ≡ joined f.old (ask_store_code f.old.cell reg operand) 47) }
    ensures effect { OnOk result (Adds f.old f.new IsFrame (λ input s. asking (Storing (value_in s operand) (word_in s (cell_of reg))) s) (3 * 2 ^ 20 + 2 ^ 12) (2 ^ 14)) }
    ensures err { OnErr result (f.new ≡ f.old) }
{
    let cell = cell_of(reg);
    let mut piece = aside(f);
    bring(&mut piece, operand, ADDRESS)?;
    dup_word(&mut piece, cell, VALUE, cell + 3)?;
    piece.add_const(STORES, 1)?;
    append(f, &piece)
}

/// A register becomes the next byte of the input, or 0 past its end.
pub fn getc(f: &mut Frag, reg: Reg) -> Result<(), AllocError>
    ensures code { OnOk result (f.new ≡ joined f.old (getc_code f.old.cell reg) (cell_of reg)) }
    ensures effect { OnOk result (Adds f.old f.new IsFrame (λ input s. read_into input s (cell_of reg)) (2 ^ 13) (2 ^ 12)) }
    ensures err { OnErr result (f.new ≡ f.old) }
{
    let cell = cell_of(reg);
    let mut piece = aside(f);
    clear_word(&mut piece, cell)?;
    piece.read(cell)?;
    append(f, &piece)
}

// Writes the lowest byte of a constant.
fn put_constant(f: &mut Frag, word: Word) -> Result<(), AllocError>
    ensures code { OnOk result (f.new ≡ joined f.old (put_constant_code f.old.cell (number_of word)) 110) }
    ensures effect { OnOk result (Adds f.old f.new IsFrame (λ input s. written s (number_of word % 2 ^ 8)) (2 ^ 11) (2 ^ 11)) }
    ensures err { OnErr result (f.new ≡ f.old) }
{
    let byte = (word.get() % 256) as u8;
    let mut piece = aside(f);
    piece.add_const(110, byte)?;
    piece.write(110)?;
    piece.clear(110)?;
    append(f, &piece)
}

/// Writes the value modulo 256.
pub fn putc(f: &mut Frag, operand: Operand) -> Result<(), AllocError>
    ensures code { OnOk result (f.new ≡ joined f.old (putc_code f.old.cell operand) (putc_cell operand)) }
    ensures effect { OnOk result (Adds f.old f.new IsFrame (λ input s. written s (value_in s operand % 2 ^ 8)) (2 ^ 11) (2 ^ 11)) }
    ensures err { OnErr result (f.new ≡ f.old) }
{
    match operand {
        Operand::Imm(word) => put_constant(f, word),
        Operand::Reg(reg) => f.write(cell_of(reg)),
    }
}
