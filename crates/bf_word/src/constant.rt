// Whether a counter is a constant.

ghost use Rattle.std.specs.Prelude.{◌≡◌, ◌+◌, ◌^◌, ◌<◌, nat_eq, cond, OnOk, OnErr};
ghost use Rattle.word24.specs.Word.{number_of};
ghost use Rattle.bf_tape.specs.Tape.{get, put};
ghost use Rattle.bf_tape.specs.Piece.{joined, Adds, any};
ghost use Rattle.bf_word.specs.WordCode.{add_bytes_code, equals_code};
ghost use Rattle.bf_word.specs.Word.{word_in, with_word, bytes_raised, IsCounter, IsBeyond};

use crate::counter::{lift_once, lower_once};
use crate::joining::{append, aside};
use bf_tape::Frag;
use std::alloc::AllocError;
use word24::Word;

// Adds to each byte of a word by itself, modulo 256.
fn add_bytes(f: &mut Frag, w: u32, low: u8, mid: u8, high: u8) -> Result<(), AllocError>
    requires { w < 254 }
    ensures code { OnOk result (f.new ≡ joined f.old (add_bytes_code f.old.cell w low mid high) (w + 2)) }
    ensures effect { OnOk result (Adds f.old f.new any (λ input s. with_word s w (bytes_raised (word_in s w) low mid high)) 1536 1536) }
    ensures err { OnErr result (f.new ≡ f.old) }
{
    let mut piece = aside(f);
    piece.add_const(w, low)?;
    piece.add_const(w + 1, mid)?;
    piece.add_const(w + 2, high)?;
    append(f, &piece)
}

/// A flag that is 0 becomes 1 where a counter is a constant. Nothing is copied: each byte becomes less by the constant's, one is
/// taken from what is left, which borrows where that is 0, and all of it goes back.
pub fn equals(f: &mut Frag, counter: u32, v: Word, flag: u32) -> Result<(), AllocError>
    requires counter { counter < 247 }
    requires flag { flag < 256 }
    requires beyond { IsBeyond flag counter }
    ensures code { OnOk result (f.new ≡ joined f.old (equals_code f.old.cell counter (number_of v) flag) (counter + 2)) }
    ensures effect { OnOk result (Adds f.old f.new (λ s. IsCounter counter s × (get s flag ≡ 0)) (λ input s. put s flag (cond (nat_eq (word_in s counter) (number_of v)) 1 0)) (2 ^ 19) (2 ^ 13)) }
    ensures err { OnErr result (f.new ≡ f.old) }
{
    let number = v.get();
    let low = number % 256;
    let mid = number / 256 % 256;
    let high = number / 65536 % 256;
    let mut piece = aside(f);
    add_bytes(
        &mut piece,
        counter,
        ((256 - low) % 256) as u8,
        ((256 - mid) % 256) as u8,
        ((256 - high) % 256) as u8,
    )?;
    lower_once(&mut piece, counter)?;
    piece.move_to(counter + 9, flag)?;
    lift_once(&mut piece, counter)?;
    add_bytes(&mut piece, counter, low as u8, mid as u8, high as u8)?;
    append(f, &piece)
}
