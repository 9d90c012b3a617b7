// What holds of the definitions.

ghost use Rattle.std.specs.Prelude.{ℕ, List, Bool};
ghost use Rattle.bf_lang.specs.declared.command.Command.{Command};
ghost use Rattle.bf_tape.specs.Tape.{Tape};
ghost use Rattle.bf_tape.specs.Laws.{IsMoved};
ghost use Rattle.bf_tape.specs.Piece.{Walks};

/// After t turns of a loop with shifts the base has moved by t times as many cells as one shift has, and the cell on which
/// it loops is 0.
pub fn walks_move_the_base()
    ensures { (input : List ℕ) (body : List Command) (c by : ℕ) (right : Bool) (s t : Tape) (turns most : ℕ) →
        Walks input body c by right s t turns most → IsMoved s t c by right turns }
{}
