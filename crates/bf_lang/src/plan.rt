// A program with what begins at each of its places.

ghost use Rattle.std.specs.Prelude.{◌≡◌, ◌≤◌, ◌<◌, ◌^◌, length, slice_get, Some, IfOk};
ghost use Rattle.bf_lang.specs.Fold.{AreFolds, IsFold, target_of};
ghost use Rattle.bf_lang.specs.Balance.{IsBalanced};

use crate::command::Command;
use crate::fold::Fold;
use crate::joining::join;
use crate::pairing::partners;
use crate::program::BfProgram;
use std::alloc::{AllocError, Global};
use std::marker::Model;

/// A program, with what begins at each of its places. A clause sees the list of its commands.
#[derive(Drop)]
pub(crate) struct Plan {
    program: BfProgram,
    folds: Vec<Fold>,
}

impl Model for Plan {
    ghost use Rattle.std.specs.Prelude.{List};
    ghost use Rattle.bf_lang.specs.declared.command.Command.{Command};
    ghost use Rattle.bf_lang.specs.Fold.{AreFolds};

    ghost Value = { List Command };

    ghost view = { λ p. p.program };

    ghost invariant = { λ p. AreFolds p.program p.folds.items };
}

impl Plan {
    /// The plan of a program.
    pub(crate) fn of(alloc: Global, program: BfProgram) -> Result<Plan, AllocError>
        ensures { IfOk result (λ p. p ≡ program) }
    {
        let mut folds = partners(alloc, program.commands())?;
        join(&mut folds, program.commands());
        Ok(Plan { program, folds })
    }

    /// How many commands there are.
    pub(crate) fn len(&self) -> usize
        ensures len { result ≡ length self.now }
        ensures few { result ≤ 2 ^ 29 }
    {
        self.program.commands().len()
    }

    /// The command at a place.
    pub(crate) fn command(&self, place: u32) -> Option<Command>
        ensures command { result ≡ slice_get self.now place }
        ensures few { length self.now ≤ 2 ^ 29 }
    {
        self.program.commands().get(place as usize).copied()
    }

    /// What begins at each place.
    pub(crate) fn folds(&self) -> &[Fold]
        ensures folds { AreFolds self.now result.now }
        ensures few { length self.now ≤ 2 ^ 29 }
    {
        let _commands = self.program.commands();
        self.folds.as_slice()
    }

    /// Where a jump from a bracket leads.
    pub(crate) fn target(&self, place: u32) -> u32
        requires { place < length self.now }
        ensures { result ≡ target_of self.now place (slice_get self.now place) }
    {
        match self.folds()[place as usize] {
            Fold::Open(to) => to,
            Fold::Close(to) => to,
            Fold::Clear => place + 3,
            _ => place + 1,
        }
    }
}
