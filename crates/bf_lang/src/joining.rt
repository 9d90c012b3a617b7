// Like commands in a row, and `[-]`.

ghost use Rattle.std.specs.Prelude.{◌≡◌, ◌≤◌, ◌<◌, ◌+◌, ◌^◌, ℕ, length, List};
ghost use Rattle.bf_lang.specs.declared.command.Command.{Command};
ghost use Rattle.bf_lang.specs.Fold.{AreFolds, IsFold};

use crate::command::Command;
use crate::fold::Fold;

// What begins at a place, where this much of it is known, and what begins at the next.
fn joined(first: Fold, next: Fold) -> Fold
    ensures { (code : List Command) (k : ℕ) → IsFold code k first → IsFold code (k + 1) next → IsFold code k result }
{
    match (first, next) {
        (Fold::Right(_), Fold::Right(n)) => Fold::Right(n.saturating_add(1)),
        (Fold::Left(_), Fold::Left(n)) => Fold::Left(n.saturating_add(1)),
        (Fold::Plus(_), Fold::Plus(n)) => Fold::Plus(n.saturating_add(1)),
        (Fold::Minus(_), Fold::Minus(n)) => Fold::Minus(n.saturating_add(1)),
        (_, _) => first,
    }
}

// The loop `[-]`, where it begins at a place.
fn cleared(commands: &[Command], k: usize, fold: Fold) -> Fold
    requires { k < length commands.now }
    ensures { IsFold commands.now k fold → IsFold commands.now k result }
{
    match &commands[k..] {
        [Command::Open, Command::Minus, Command::Close, ..] => Fold::Clear,
        _ => fold,
    }
}

/// Joins like commands in a row, from the last on.
pub(crate) fn join(folds: &mut [Fold], commands: &[Command])
    requires { AreFolds commands.now folds.old }
    ensures { AreFolds commands.now folds.new }
{
    for k in (0..commands.len()).rev() {
        folds[k] = cleared(commands, k, joined(folds[k], folds[k + 1]));
    }
}
