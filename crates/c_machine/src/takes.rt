// Instructions that take a byte.

ghost use Rattle.std.specs.Prelude.{◌≡◌, slice_get};
ghost use Rattle.c_plain.specs.Program.{program_of};
ghost use Rattle.c_plain.specs.Rule.{takes, takes_byte};

use c_plain::{BuiltIn, Instruction, Plain};

// Whether a function that is always known takes a byte.
fn takes_byte(function: BuiltIn) -> bool
    ensures { result ≡ takes_byte function }
{
    matches!(function, BuiltIn::GetChar | BuiltIn::GetByte)
}

/// Whether the instruction of a number takes a byte.
pub fn takes_at(plain: &Plain, at: usize) -> bool
    ensures { result ≡ takes (slice_get (program_of plain.now).instructions at) }
{
    match plain.instruction(at) {
        Some(Instruction::BuiltIn(function, _)) => takes_byte(function),
        _ => false,
    }
}
