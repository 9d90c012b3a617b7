// Instructions that may take a byte or write.

ghost use Rattle.std.specs.Prelude.{◌≡◌, true, MatchOption};
ghost use Rattle.c_machine.specs.Steps.{is_quiet, instruction_of};

use c_plain::{Arguments, BuiltIn, Instruction};

/// An instruction that may take a byte or write.
#[derive(Clone, Copy)]
pub enum Exchange {
    BuiltIn(BuiltIn, Arguments),
    Put(u8),
    Decimal,
    Unsigned,
    Character,
    Digits,
    Text,
}

/// The instruction, where it may take a byte or write.
#[inline(always)]
pub fn exchange_of(i: Instruction) -> Option<Exchange>
    ensures { MatchOption result (is_quiet i ≡ true) (λ x. i ≡ instruction_of x) }
{
    match i {
        Instruction::BuiltIn(function, arguments) => Some(Exchange::BuiltIn(function, arguments)),
        Instruction::Put(byte) => Some(Exchange::Put(byte)),
        Instruction::Decimal => Some(Exchange::Decimal),
        Instruction::Unsigned => Some(Exchange::Unsigned),
        Instruction::Character => Some(Exchange::Character),
        Instruction::Digits => Some(Exchange::Digits),
        Instruction::Text => Some(Exchange::Text),
        _ => None,
    }
}
