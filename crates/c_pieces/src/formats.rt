// Calls of `printf`.

ghost use Rattle.std.specs.Prelude.{◌≡◌, true, false, [], OnOk, IfOk, option_map};
ghost use Rattle.c_code.specs.Code as code;
ghost use Rattle.c_code.specs.Code.{convert_code, pieces, print_code};
ghost use Rattle.c_emitted.specs.Emits.{Emits};
ghost use Rattle.c_pieces.specs.Called.{Passes};

use c_emitted::{Emitter, number_of};
use c_plain::Instruction;
use std::alloc::AllocError;

/// What is left of a call while its format is passed: whether a percent stands before, and how many values.
#[derive(Clone, Copy)]
pub struct Left {
    pub percent: bool,
    pub count: usize,
}

// A conversion, by its letter.
fn convert(out: &mut Emitter<'_>, letter: u8) -> Result<(), AllocError>
    ensures { OnOk result (Emits out.old out.new (convert_code letter) []) }
{
    if letter == 100 {
        out.add(Instruction::Decimal)
    } else if letter == 117 {
        out.add(Instruction::Unsigned)
    } else if letter == 120 {
        out.add(Instruction::Hex)?;
        out.add(Instruction::Digits)
    } else if letter == 99 {
        out.add(Instruction::Character)
    } else {
        out.add(Instruction::Text)
    }
}

// A byte behind a percent: another percent, or the letter of a conversion, which takes a value.
fn behind_percent(out: &mut Emitter<'_>, count: usize, byte: u8) -> Result<Option<Left>, AllocError>
    ensures { IfOk result (λ l. Passes out.old out.new true byte count l) }
{
    if byte == 37 {
        out.add(Instruction::Put(byte))?;
        return Ok(Some(Left {
            percent: false,
            count,
        }));
    }
    if count == 0 {
        out.add(Instruction::Stuck)?;
        return Ok(None);
    }
    convert(out, byte)?;
    Ok(Some(Left {
        percent: false,
        count: count - 1,
    }))
}

// A byte of a format.
fn passed(out: &mut Emitter<'_>, left: Left, byte: u8) -> Result<Option<Left>, AllocError>
    ensures { IfOk result (λ l. Passes out.old out.new left.percent byte left.count l) }
{
    if left.percent {
        return behind_percent(out, left.count, byte);
    }
    if byte == 37 {
        return Ok(Some(Left {
            percent: true,
            count: left.count,
        }));
    }
    out.add(Instruction::Put(byte))?;
    Ok(Some(left))
}

// The characters and conversions of a format, for so many values.
fn pieces(out: &mut Emitter<'_>, format: &[u8], count: usize) -> Result<(), AllocError>
    ensures { OnOk result (Emits out.old out.new (pieces false format.now count) []) }
{
    let mut left = Left {
        percent: false,
        count,
    };
    for byte in format {
        let next = passed(out, left, *byte)?;
        match next {
            Some(behind) => left = behind,
            None => return Ok(()),
        }
    }
    let number = number_of(left.count)?;
    out.add(Instruction::Printed(number))
}

/// A call of `printf` for so many values, with its format where that is a string.
pub fn print(out: &mut Emitter<'_>, format: Option<&[u8]>, count: usize) -> Result<(), AllocError>
    ensures { OnOk result (Emits out.old out.new (print_code (option_map (λ f. f.now) format.entry) count) []) }
{
    match format {
        Some(text) => {
            let number = number_of(count)?;
            out.add(Instruction::Turn(number))?;
            pieces(out, text, count)
        }
        None => out.add(Instruction::Stuck),
    }
}
