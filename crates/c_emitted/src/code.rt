// Instructions, one behind the other.

ghost use Rattle.std.specs.Prelude.{◌≡◌, ◌<◌, ◌^◌, ◌++◌, ◌∷◌, [], length, take, drop, suc, OnOk, OnErr};

use c_plain::Instruction;
use std::alloc::{AllocError, Global};
use std::marker::Model;

/// Instructions, of which there are fewer than 2^32.
#[derive(Drop)]
pub struct Code {
    instructions: Vec<Instruction>,
}

impl Model for Code {
    ghost use Rattle.std.specs.Prelude.{◌<◌, ◌^◌, vec_len, List};
    ghost use Rattle.c_plain.specs.declared.instruction.Instruction as plain;

    ghost Value = { List plain.Instruction };

    ghost view = { λ c. c.instructions.items };

    ghost invariant = { λ c. vec_len c.instructions < 2 ^ 32 };
}

impl Code {
    /// No instructions.
    pub fn new(alloc: Global) -> Code
        ensures { result ≡ [] }
    {
        Code {
            instructions: Vec::new(alloc),
        }
    }

    /// How many instructions there are.
    pub fn count(&self) -> u32
        ensures { result ≡ length self.now }
    {
        self.instructions.len() as u32
    }

    /// An instruction more. An error changes nothing.
    pub fn push(&mut self, instruction: Instruction) -> Result<(), AllocError>
        ensures ok { OnOk result (self.new ≡ self.old ++ instruction ∷ []) }
        ensures err { OnErr result (self.new ≡ self.old) }
    {
        if self.instructions.len() >= 4294967295 {
            return Err(AllocError);
        }
        self.instructions.push(instruction)?;
        Ok(())
    }

    /// Another instruction in the place of one.
    pub fn replace(&mut self, at: u32, instruction: Instruction)
        requires { at < length self.old }
        ensures { self.new ≡ take at self.old ++ (instruction ∷ drop (suc at) self.old) }
    {
        self.instructions[at as usize] = instruction;
    }

    /// The instructions.
    pub fn instructions(self) -> Vec<Instruction>
        ensures instructions { result.items ≡ self }
        ensures few { length self < 2 ^ 32 }
    {
        let Code { instructions } = self;
        instructions
    }
}
