// Words copied and moved, byte by byte.

ghost use Rattle.std.specs.Prelude.{◌≡◌, ◌≢◌, ◌+◌, ◌-◌, ◌*◌, ◌^◌, ◌<◌, OnOk, OnErr};
ghost use Rattle.bf_tape.specs.Tape.{get};
ghost use Rattle.bf_tape.specs.Piece.{joined, Adds, any};
ghost use Rattle.bf_word.specs.WordCode.{dup_word_code, move_word_code, drain_word_code, clear_word_code};
ghost use Rattle.bf_word.specs.Word.{word_in, with_word, carried_word, AreDistinct, IsOutside};

use crate::joining::{append, aside};
use bf_tape::Frag;
use std::alloc::AllocError;

/// Sets a word that is 0 to another one, by a cell to spare that is 0 before and afterwards.
pub fn dup_word(f: &mut Frag, from: u32, to: u32, spare: u32) -> Result<(), AllocError>
    requires from { from < 254 }
    requires to { to < 254 }
    requires spare { spare < 256 }
    requires distinct { AreDistinct from to }
    requires from_spare { IsOutside spare from }
    requires to_spare { IsOutside spare to }
    ensures code { OnOk result (f.new ≡ joined f.old (dup_word_code f.old.cell from to spare) spare) }
    ensures effect { OnOk result (Adds f.old f.new (λ s. (word_in s to ≡ 0) × (get s spare ≡ 0)) (λ input s. with_word s to (word_in s from)) (3 * 2 ^ 20) (3 * 2 ^ 11)) }
    ensures err { OnErr result (f.new ≡ f.old) }
{
    let mut piece = aside(f);
    piece.dup(from, to, spare)?;
    piece.dup(from + 1, to + 1, spare)?;
    piece.dup(from + 2, to + 2, spare)?;
    append(f, &piece)
}

/// Moves a word to where 0 is.
pub fn move_word(f: &mut Frag, from: u32, to: u32) -> Result<(), AllocError>
    requires from { from < 254 }
    requires to { to < 254 }
    requires distinct { AreDistinct from to }
    ensures code { OnOk result (f.new ≡ joined f.old (move_word_code f.old.cell from to) (from + 2)) }
    ensures effect { OnOk result (Adds f.old f.new (λ s. word_in s to ≡ 0) (λ input s. carried_word from to s) (3 * 2 ^ 18) (3 * 2 ^ 10)) }
    ensures err { OnErr result (f.new ≡ f.old) }
{
    let mut piece = aside(f);
    piece.move_to(from, to)?;
    piece.move_to(from + 1, to + 1)?;
    piece.move_to(from + 2, to + 2)?;
    append(f, &piece)
}

/// Takes a word from one that is 2^24 - 1, and clears it.
pub fn drain_word(f: &mut Frag, from: u32, to: u32) -> Result<(), AllocError>
    requires from { from < 254 }
    requires to { to < 254 }
    requires distinct { AreDistinct from to }
    ensures code { OnOk result (f.new ≡ joined f.old (drain_word_code f.old.cell from to) (from + 2)) }
    ensures effect { OnOk result (Adds f.old f.new (λ s. word_in s to ≡ 2 ^ 24 - 1)
        (λ input s. with_word (with_word s to (2 ^ 24 - 1 - word_in s from)) from 0) (3 * 2 ^ 18) (3 * 2 ^ 10)) }
    ensures err { OnErr result (f.new ≡ f.old) }
{
    let mut piece = aside(f);
    piece.drain(from, to)?;
    piece.drain(from + 1, to + 1)?;
    piece.drain(from + 2, to + 2)?;
    append(f, &piece)
}

/// A word becomes 0.
pub fn clear_word(f: &mut Frag, w: u32) -> Result<(), AllocError>
    requires { w < 254 }
    ensures code { OnOk result (f.new ≡ joined f.old (clear_word_code f.old.cell w) (w + 2)) }
    ensures effect { OnOk result (Adds f.old f.new any (λ input s. with_word s w 0) (3 * 2 ^ 10) (3 * 2 ^ 9)) }
    ensures err { OnErr result (f.new ≡ f.old) }
{
    let mut piece = aside(f);
    piece.clear(w)?;
    piece.clear(w + 1)?;
    piece.clear(w + 2)?;
    append(f, &piece)
}
