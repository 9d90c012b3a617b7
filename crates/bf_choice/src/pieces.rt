// Pieces to choose among.

ghost use Rattle.std.specs.Prelude.{◌≡◌, ◌++◌, ◌≤◌, [], ◌∷◌, List, IfOk, OnOk, OnErr};
ghost use Rattle.bf_lang.specs.declared.command.Command.{Command};
ghost use Rattle.bf_choice.specs.Choice.{tree_code, codes, AreBalanced};

use crate::choice::choose;
use bf_lang::Command;
use bf_tape::Frag;
use std::alloc::{AllocError, Global};
use std::marker::Model;

/// Pieces that begin and end at cell 0, numbered in their order. A clause sees their commands.
#[derive(Drop)]
pub struct Pieces {
    alloc: Global,
    arms: Vec<Vec<Command>>,
}

impl Model for Pieces {
    ghost Value = { List (List Command) };

    ghost view = { λ p. codes p.arms.items };

    ghost invariant = { λ p. AreBalanced (codes p.arms.items) };
}

// The same commands.
fn copied(alloc: Global, commands: &[Command]) -> Result<Vec<Command>, AllocError>
    ensures { IfOk result (λ copy. copy.items ≡ commands.now) }
{
    let mut copy = Vec::new(alloc);
    copy.extend_from_slice(commands)?;
    Ok(copy)
}

impl Pieces {
    /// No pieces. It takes no memory.
    pub fn new(alloc: Global) -> Pieces
        ensures { result ≡ [] }
    {
        Pieces {
            alloc,
            arms: Vec::new(alloc),
        }
    }

    /// One more, with the next number.
    pub fn push(&mut self, piece: &Frag) -> Result<(), AllocError>
        ensures ok { OnOk result (self.new ≡ self.old ++ piece.now.commands ∷ []) }
        ensures err { OnErr result (self.new ≡ self.old) }
    {
        let commands = piece.commands();
        let arm = copied(self.alloc, commands)?;
        self.arms.push(arm)?;
        Ok(())
    }

    /// The choice of one of the pieces by so many digits of its number. It begins and ends at cell 0.
    pub fn choose(&self, digits: u32) -> Result<Frag, AllocError>
        requires { digits ≤ 14 }
        ensures { IfOk result (λ piece. piece ≡ record { commands = tree_code digits self.now; cell = 0 }) }
    {
        choose(self.alloc, digits, &self.arms)
    }
}
