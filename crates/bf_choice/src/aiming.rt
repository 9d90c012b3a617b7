// The digits of the next choice.

ghost use Rattle.std.specs.Prelude.{◌≡◌, ◌*◌, ◌/◌, ◌%◌, ◌^◌, ◌<◌, ◌≤◌, OnOk};
ghost use Rattle.bf_tape.specs.Piece.{joined, Adds, any};
ghost use Rattle.bf_choice.specs.Choice.{digit_cell, aim_code, advance_code, aimed, AreFree, advanced};

use bf_tape::Frag;
use std::alloc::AllocError;

/// A binary digit of a number, counted from the lowest.
pub fn digit_of(number: u32, digit: u32) -> u8
    requires { digit < 14 }
    ensures { result ≡ number / 2 ^ digit % 2 }
{
    ((number >> digit) % 2) as u8
}

/// The next choice is to be that of the piece of a number, of so many digits. After an error nothing is said of the piece.
pub fn aim(piece: &mut Frag, digits: u32, number: u32) -> Result<(), AllocError>
    requires { digits ≤ 14 }
    ensures code { OnOk result (piece.new ≡ joined piece.old (aim_code piece.old.cell digits number) (digit_cell piece.old.cell digits)) }
    ensures effect { OnOk result (Adds piece.old piece.new (AreFree digits) (λ input s. aimed digits number s) (digits * 512) (digits * 512)) }
{
    for digit in 0..digits {
        piece.add_const(3 * digit + 3, digit_of(number, digit))?;
    }
    Ok(())
}

/// What was aimed at becomes the choice. After an error nothing is said of the piece.
pub fn advance(piece: &mut Frag, digits: u32) -> Result<(), AllocError>
    requires { digits ≤ 14 }
    ensures code { OnOk result (piece.new ≡ joined piece.old (advance_code piece.old.cell digits) (digit_cell piece.old.cell digits)) }
    ensures effect { OnOk result (Adds piece.old piece.new any (λ input s. advanced digits s) (digits * 2 ^ 18) (digits * 1024)) }
{
    for digit in 0..digits {
        piece.move_to(3 * digit + 3, 3 * digit + 1)?;
    }
    Ok(())
}
