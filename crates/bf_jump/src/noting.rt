// The digits of a second number, noted beside those of the next choice.

ghost use Rattle.std.specs.Prelude.{◌≡◌, ◌+◌, ◌*◌, ◌/◌, ◌%◌, ◌^◌, ◌<◌, ◌≤◌, OnOk};
ghost use Rattle.bf_tape.specs.Piece.{joined, Adds, any};
ghost use Rattle.bf_jump.specs.Note.{aim_cell, note_cell, noted, left_open, dropped, taken, IsNoteFree, cell_at, note_code, open_code, take_code, drop_code};

use bf_choice::digit_of;
use bf_tape::Frag;
use std::alloc::AllocError;

// The cell of a noted digit.
fn note_cell(digit: u32) -> u32
    requires { digit < 14 }
    ensures cell { result ≡ note_cell digit }
    ensures low { 54 ≤ result }
    ensures high { result < 76 }
{
    54 + digit + 4 * (digit / 6)
}

/// So many digits of a number are noted. What is added up to an error is left.
pub(crate) fn note(f: &mut Frag, digits: u32, number: u32) -> Result<(), AllocError>
    requires { digits ≤ 14 }
    ensures code { OnOk result (f.new ≡ joined f.old (note_code number f.old.cell digits) (cell_at note_cell f.old.cell digits)) }
    ensures effect { OnOk result (Adds f.old f.new (IsNoteFree digits) (λ input s. noted digits number s) (digits * 1024) (digits * 512)) }
{
    for digit in 0..digits {
        f.add_const(note_cell(digit), digit_of(number, digit))?;
    }
    Ok(())
}

/// No choice is aimed at any more. What is added up to an error is left.
pub(crate) fn leave_open(f: &mut Frag, digits: u32) -> Result<(), AllocError>
    requires { digits ≤ 14 }
    ensures code { OnOk result (f.new ≡ joined f.old (open_code f.old.cell digits) (cell_at aim_cell f.old.cell digits)) }
    ensures effect { OnOk result (Adds f.old f.new any (λ input s. left_open digits s) (digits * 1024) (digits * 512)) }
{
    for digit in 0..digits {
        f.clear(3 * digit + 3)?;
    }
    Ok(())
}

/// The noted digits become those of the next choice. What is added up to an error is left.
pub(crate) fn take_note(f: &mut Frag, digits: u32) -> Result<(), AllocError>
    requires { digits ≤ 14 }
    ensures code { OnOk result (f.new ≡ joined f.old (take_code f.old.cell digits) (cell_at note_cell f.old.cell digits)) }
    ensures effect { OnOk result (Adds f.old f.new any (λ input s. taken digits s) (digits * 2 ^ 18) (digits * 1024)) }
{
    for digit in 0..digits {
        f.move_to(note_cell(digit), 3 * digit + 3)?;
    }
    Ok(())
}

/// The noted digits are dropped. What is added up to an error is left.
pub(crate) fn drop_note(f: &mut Frag, digits: u32) -> Result<(), AllocError>
    requires { digits ≤ 14 }
    ensures code { OnOk result (f.new ≡ joined f.old (drop_code f.old.cell digits) (cell_at note_cell f.old.cell digits)) }
    ensures effect { OnOk result (Adds f.old f.new any (λ input s. dropped digits s) (digits * 1024) (digits * 512)) }
{
    for digit in 0..digits {
        f.clear(note_cell(digit))?;
    }
    Ok(())
}
