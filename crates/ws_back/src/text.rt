// The text of instructions as it grows.
ghost use Rattle.std.specs.Prelude.{◌≡◌, ◌<◌, ◌^◌, ◌++◌, [], ◌∷◌, ℤ, map, OnOk, unsigned_abs};
ghost use Rattle.ws_lang.specs.Spelling.{bit_signs, name_of};
ghost use Rattle.ws_back.specs.Code.{digits, label};
ghost use Rattle.ws_back.specs.Text.{byte_of, number_signs, label_signs, parameter_of, text_of};
ghost use Rattle.ws_back.specs.Commands.{label_number, label_of, instruction_of, IsWritable};

use crate::command::{Command, Place};
use std::alloc::{AllocError, Global};

const SPACE: u8 = b' ';

const TAB: u8 = b'\t';

/// The bytes of some instructions.
#[derive(Drop)]
pub struct Text {
    bytes: Vec<u8>,
}

// The signs that name an instruction.
fn name(command: Command) -> &'static [u8]
    ensures { result.now ≡ map byte_of (name_of (instruction_of command)) }
{
    match command {
        Command::Push(_) => b"  ",
        Command::Add => b"\t   ",
        Command::Subtract => b"\t  \t",
        Command::Multiply => b"\t  \n",
        Command::Divide => b"\t \t ",
        Command::Modulo => b"\t \t\t",
        Command::Store => b"\t\t ",
        Command::Retrieve => b"\t\t\t",
        Command::Mark(_) => b"\n  ",
        Command::Jump(_) => b"\n \n",
        Command::JumpIfZero(_) => b"\n\t ",
        Command::JumpIfNegative(_) => b"\n\t\t",
        Command::End => b"\n\n\n",
        Command::WriteCharacter => b"\t\n  ",
        Command::ReadCharacter => b"\t\n\t ",
    }
}

// The number of the label that marks a place.
fn number(place: Place) -> u32
    requires { label_number place < 2 ^ 25 }
    ensures { result ≡ label_number place }
{
    match place {
        Place::End => 0,
        Place::Dispatch => 1,
        Place::Branch(middle) => 2 * middle + 1,
        Place::Block(k) => 2 * k + 2,
    }
}

impl Text {
    /// The text of no instruction.
    pub fn new(alloc: Global) -> Text
        ensures { result.bytes.items ≡ [] }
    {
        Text {
            bytes: Vec::new(alloc),
        }
    }

    /// The bytes so far.
    pub fn bytes(&self) -> &[u8]
        ensures { result.now ≡ self.now.bytes.items }
    {
        self.bytes.as_slice()
    }

    // Some more signs.
    fn signs(&mut self, signs: &[u8]) -> Result<(), AllocError>
        ensures { OnOk result (self.new.bytes.items ≡ self.old.bytes.items ++ signs.now) }
    {
        self.bytes.extend_from_slice(signs)
    }

    // The binary digits of a number, the highest first.
    fn digits(&mut self, n: u32) -> Result<(), AllocError>
        requires { n < 2 ^ 25 }
        ensures { OnOk result (self.new.bytes.items ≡ self.old.bytes.items ++ map byte_of (bit_signs (digits 25 n))) }
    {
        let mut digits = [0; 25];
        let mut at = 25;
        let mut rest = n;
        while rest > 0 {
            at -= 1;
            digits[at] = if rest % 2 == 1 { TAB } else { SPACE };
            rest /= 2;
        }
        self.signs(&digits[at..])
    }

    // The sign and the digits of a number.
    fn number(&mut self, n: i64) -> Result<(), AllocError>
        requires { unsigned_abs n < 2 ^ 25 }
        ensures { OnOk result (self.new.bytes.items ≡ self.old.bytes.items ++ map byte_of (number_signs n)) }
    {
        self.signs(if n < 0 { b"\t" } else { b" " })?;
        self.digits(n.unsigned_abs() as u32)?;
        self.signs(b"\n")
    }

    // The signs of the label that marks a place.
    fn label(&mut self, place: Place) -> Result<(), AllocError>
        requires { label_number place < 2 ^ 25 }
        ensures { OnOk result (self.new.bytes.items ≡ self.old.bytes.items ++ map byte_of (label_signs (label_of place))) }
    {
        self.digits(number(place))?;
        self.signs(b"\n")
    }

    // What follows the name of an instruction.
    fn parameter(&mut self, command: Command) -> Result<(), AllocError>
        requires { IsWritable command }
        ensures { OnOk result (self.new.bytes.items ≡ self.old.bytes.items ++ map byte_of (parameter_of (instruction_of command))) }
    {
        match command {
            Command::Push(n) => self.number(n),
            Command::Mark(place)
            | Command::Jump(place)
            | Command::JumpIfZero(place)
            | Command::JumpIfNegative(place) => self.label(place),
            _ => Ok(()),
        }
    }

    /// One more instruction.
    pub fn put(&mut self, command: Command) -> Result<(), AllocError>
        requires { IsWritable command }
        ensures { OnOk result (self.new.bytes.items ≡ self.old.bytes.items ++ text_of (instruction_of command ∷ [])) }
    {
        self.signs(name(command))?;
        self.parameter(command)
    }
}
