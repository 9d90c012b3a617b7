// Pieces that are made aside, so that a call that finds no memory leaves what it was given as it was.

ghost use Rattle.std.specs.Prelude.{◌≡◌, ◌<◌, [], OnOk, OnErr};
ghost use Rattle.bf_tape.specs.Piece.{joined};

use bf_tape::Frag;
use std::alloc::AllocError;

/// No commands, with the head where a piece leaves it.
pub fn aside(f: &Frag) -> Frag
    ensures piece { result ≡ record { commands = []; cell = f.now.cell } }
    ensures below { f.now.cell < 256 }
{
    f.begin(f.cell())
}

/// One piece behind another.
pub fn append(f: &mut Frag, piece: &Frag) -> Result<(), AllocError>
    ensures ok { OnOk result (f.new ≡ joined f.old piece.now.commands piece.now.cell) }
    ensures err { OnErr result (f.new ≡ f.old) }
{
    f.join(piece.commands(), piece.cell())
}
