//! What is read of a line.

ghost use Rattle.std.specs.Prelude.{◌≡◌};
ghost use Rattle.eir_line.specs.declared.line.LineFault.TheVariants.{Memory};

use crate::words::BinaryOp;
use eir_core::{Cond, Reg};
use std::alloc::{AllocError, AllocFailed};

/// Why a line was not read.
#[derive(Drop)]
pub enum LineFault {
    /// The line has no form.
    NoForm,
    Memory,
}

impl From<AllocError> for LineFault {
    ghost from_gives = { λ _ e. e ≡ Memory };

    fn from(_e: AllocError) -> LineFault {
        LineFault::Memory
    }
}

impl<T: Drop> From<AllocFailed<T>> for LineFault {
    ghost from_gives = { λ _ e. e ≡ Memory };

    fn from(_e: AllocFailed<T>) -> LineFault {
        LineFault::Memory
    }
}

/// What stands for a word. Names and digits are pieces of the text.
#[derive(Clone, Copy)]
pub enum ReadTerm<'t> {
    Register(Reg),
    /// Whether a minus stands before it, and its digits.
    Number(bool, &'t [u8]),
    /// A name, and the digits of what is added to it, if anything is.
    Label(&'t [u8], &'t [u8]),
}

/// The statement of a line.
#[derive(Drop)]
pub enum ReadStatement<'t> {
    Nothing,
    Binary(BinaryOp, Reg, ReadTerm<'t>),
    Putc(ReadTerm<'t>),
    Getc(Reg),
    Exit,
    Jump(ReadTerm<'t>),
    JumpIf(Cond, ReadTerm<'t>, Reg, ReadTerm<'t>),
    Dump,
    Text,
    /// The digits of the piece's number, if there are any.
    Data(&'t [u8]),
    Long(ReadTerm<'t>),
    /// The bytes of the string.
    Bytes(Vec<u8>),
    /// `.file` or `.loc`.
    Note,
}

/// A line's labels and its statement.
#[derive(Drop)]
pub struct ReadLine<'t> {
    pub labels: Vec<&'t [u8]>,
    pub statement: ReadStatement<'t>,
}
