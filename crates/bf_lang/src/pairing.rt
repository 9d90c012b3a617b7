// The partners of a program's brackets.

ghost use Rattle.std.specs.Prelude.{◌≡◌, ◌≤◌, ◌<◌, ◌+◌, ◌^◌, ℕ, [], length, IfOk, OnOk, Some, slice_get};
ghost use Rattle.bf_lang.specs.declared.command.Command.TheVariants.{Close};
ghost use Rattle.bf_lang.specs.Balance.{IsBalanced};
ghost use Rattle.bf_lang.specs.Fold.{AreFolds};
ghost use Rattle.bf_lang.specs.Pairing.{ArePaired};

use crate::command::Command;
use crate::fold::Fold;
use std::alloc::{AllocError, Global};

// The `]` at a place closes the innermost `[` that is still open.
fn close(
    commands: &[Command],
    place: u32,
    folds: &mut Vec<Fold>,
    waiting: &mut Vec<u32>,
) -> Result<(), AllocError>
    requires here { slice_get commands.now place ≡ Some Close }
    requires balanced { IsBalanced commands.now }
    requires few { length commands.now ≤ 2 ^ 29 }
    requires before { ArePaired commands.now place folds.old.items waiting.old.items }
    ensures { OnOk result (ArePaired commands.now (place + 1) folds.new.items waiting.new.items) }
{
    let Some(start) = waiting.pop() else {
        unreachable!()
    };
    folds[start as usize] = Fold::Open(place + 1);
    folds.push(Fold::Close(start + 1))?;
    Ok(())
}

// Goes on by the command at a place: with the folds of those before it, and the places of the `[` that are still open,
// the innermost last.
fn pair(
    commands: &[Command],
    place: u32,
    folds: &mut Vec<Fold>,
    waiting: &mut Vec<u32>,
) -> Result<(), AllocError>
    requires here { place < length commands.now }
    requires balanced { IsBalanced commands.now }
    requires few { length commands.now ≤ 2 ^ 29 }
    requires before { ArePaired commands.now place folds.old.items waiting.old.items }
    ensures { OnOk result (ArePaired commands.now (place + 1) folds.new.items waiting.new.items) }
{
    match commands[place as usize] {
        Command::Right => folds.push(Fold::Right(1))?,
        Command::Left => folds.push(Fold::Left(1))?,
        Command::Plus => folds.push(Fold::Plus(1))?,
        Command::Minus => folds.push(Fold::Minus(1))?,
        Command::Write => folds.push(Fold::Other)?,
        Command::Read => folds.push(Fold::Other)?,
        Command::Open => {
            waiting.push(place)?;
            folds.push(Fold::Other)?;
        }
        Command::Close => close(commands, place, folds, waiting)?,
    }
    Ok(())
}

/// What each command is by itself, with the partners of brackets, and nothing at the end.
pub(crate) fn partners(alloc: Global, commands: &[Command]) -> Result<Vec<Fold>, AllocError>
    requires balanced { IsBalanced commands.now }
    requires few { length commands.now ≤ 2 ^ 29 }
    ensures { IfOk result (λ folds. AreFolds commands.now folds.items) }
{
    let mut folds = Vec::new(alloc);
    let mut waiting = Vec::new(alloc);
    for k in 0..commands.len() {
        pair(commands, k as u32, &mut folds, &mut waiting)?;
    }
    folds.push(Fold::Other)?;
    Ok(folds)
}
