// The text of a program.

ghost use Rattle.std.specs.Prelude.{◌≡◌, ◌≤◌, ◌^◌, length, take, drop, MatchResult};
ghost use Rattle.std.specs.List.{prefix_len};
ghost use Rattle.sq_lang.specs.Text.{is_separator, is_other, sq_spells};
ghost use Rattle.sq_lang.specs.Answers.{IsRefusedFor};

use crate::number::cell_of;
use crate::program::SqProgram;
use std::alloc::Global;
use thiserror::Error;

/// Why a text was refused. A place is the index of a byte.
#[derive(Clone, Copy, Debug, PartialEq, Eq, Error)]
pub enum SqFault {
    /// The piece at this place is no number.
    #[error("no number at {0}")]
    BadNumber(u32),
    /// The number at this place is outside signed 64 bits.
    #[error("a number out of range at {0}")]
    NumberRange(u32),
    #[error("out of memory")]
    Memory,
}

// Whether the byte is a space, a tab, a carriage return or a line feed.
fn separates(byte: u8) -> bool
    ensures { result ≡ is_separator byte }
{
    byte == b' ' || byte == b'\t' || byte == b'\r' || byte == b'\n'
}

// How many separators come first.
fn gap_len(bytes: &[u8]) -> usize
    ensures len { result ≡ prefix_len is_separator bytes.now }
    ensures bound { result ≤ length bytes.now }
{
    bytes.iter().take_while(|byte| separates(**byte)).count()
}

// How many bytes come before the first separator.
fn piece_len(bytes: &[u8]) -> usize
    ensures len { result ≡ prefix_len is_other bytes.now }
    ensures bound { result ≤ length bytes.now }
{
    bytes.iter().take_while(|byte| !separates(**byte)).count()
}

// What stands behind the separators that come first.
fn past_gap(bytes: &[u8]) -> &[u8]
    ensures { result.now ≡ drop (prefix_len is_separator bytes.now) bytes.now }
{
    let len = gap_len(bytes);
    &bytes[len..]
}

// The bytes before the first separator, and the rest.
fn first_piece(bytes: &[u8]) -> (&[u8], &[u8])
    ensures piece { result.0.now ≡ take (prefix_len is_other bytes.now) bytes.now }
    ensures rest { result.1.now ≡ drop (prefix_len is_other bytes.now) bytes.now }
{
    bytes.split_at(piece_len(bytes))
}

/// Reads a program: decimal numbers with an optional `-` directly before the digits, parted by blanks and
/// line feeds. They are the cells from address 0 on.
///
/// The lowest piece that is no number, or is one outside signed 64 bits, gives the fault.
pub fn read_sq(alloc: Global, text: &[u8]) -> Result<SqProgram, SqFault>
    requires { length text.now ≤ 2 ^ 29 }
    ensures { MatchResult result (sq_spells text.now) (IsRefusedFor text.now) }
{
    let Ok(mut program) = SqProgram::new(alloc) else {
        return Err(SqFault::Memory);
    };
    let mut left = text;
    loop {
        let front = past_gap(left);
        if front.is_empty() {
            return Ok(program);
        }
        let (piece, rest) = first_piece(front);
        let cell = cell_of(piece, (text.len() - front.len()) as u32)?;
        let Ok(()) = program.push(cell) else {
            return Err(SqFault::Memory);
        };
        left = rest;
    }
}
