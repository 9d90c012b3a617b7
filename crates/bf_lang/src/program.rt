// A program.

ghost use Rattle.std.specs.Prelude.{◌≡◌, ◌≤◌, ◌^◌, length};
ghost use Rattle.bf_lang.specs.Balance.{IsBalanced};

use crate::command::Command;
use std::marker::Model;

/// The commands of a program, in order. Each bracket has its partner, and there are at most 2^29 commands. A clause
/// sees the list of them.
#[derive(Drop)]
pub struct BfProgram {
    commands: Vec<Command>,
}

impl Model for BfProgram {
    ghost use Rattle.std.specs.Prelude.{List};
    ghost use Rattle.bf_lang.specs.declared.command.Command.{Command};
    ghost use Rattle.bf_lang.specs.Inside.{IsProgram};

    ghost Value = { List Command };

    ghost view = { λ p. p.commands.items };

    ghost invariant = { λ p. IsProgram p.commands.items };
}

impl BfProgram {
    /// The program of these commands.
    pub(crate) fn of(commands: Vec<Command>) -> BfProgram
        requires balanced { IsBalanced commands.items }
        requires few { length commands.items ≤ 2 ^ 29 }
        ensures { result ≡ commands.items }
    {
        BfProgram { commands }
    }

    /// The commands of the program.
    pub(crate) fn commands(&self) -> &[Command]
        ensures commands { result.now ≡ self.now }
        ensures balanced { IsBalanced self.now }
        ensures few { length self.now ≤ 2 ^ 29 }
    {
        self.commands.as_slice()
    }
}
