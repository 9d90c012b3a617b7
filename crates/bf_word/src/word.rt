// Operations on words.

ghost use Rattle.std.specs.Prelude.{◌≡◌, ◌+◌, ◌-◌, ◌*◌, ◌%◌, ◌^◌, ◌<◌, nat_eq, nat_lt, cond, OnOk, OnErr};
ghost use Rattle.word24.specs.Word.{number_of};
ghost use Rattle.bf_tape.specs.Tape.{put};
ghost use Rattle.bf_tape.specs.Piece.{joined, Adds, any};
ghost use Rattle.bf_word.specs.WordCode.{set_code, subtract_code, less_code, equal_code, sum_word_code, difference_word_code, flip_code, dec_code};
ghost use Rattle.bf_word.specs.Word.{word_in, with_word, compared, IsClear, AreDistinct};

use crate::carry::{clear_word, drain_word, dup_word, move_word};
use crate::counter::{lift_by, lower_by, lower_once};
use crate::joining::{append, aside};
use bf_tape::Frag;
use std::alloc::AllocError;
use word24::Word;

// The word that a piece uses up, the cell to spare for copies, and the counter with the cell of its borrow.
const OPERAND: u32 = 110;

const SPARE: u32 = 113;

const COUNTER: u32 = 114;

const BORROW: u32 = 123;

/// A word becomes a constant.
pub fn set(f: &mut Frag, w: u32, v: Word) -> Result<(), AllocError>
    requires { w < 254 }
    ensures code { OnOk result (f.new ≡ joined f.old (set_code f.old.cell w (number_of v)) (w + 2)) }
    ensures effect { OnOk result (Adds f.old f.new any (λ input s. with_word s w (number_of v)) (2 ^ 13) (2 ^ 12)) }
    ensures err { OnErr result (f.new ≡ f.old) }
{
    let number = v.get();
    let mut piece = aside(f);
    piece.clear(w)?;
    piece.add_const(w, (number % 256) as u8)?;
    piece.clear(w + 1)?;
    piece.add_const(w + 1, (number / 256 % 256) as u8)?;
    piece.clear(w + 2)?;
    piece.add_const(w + 2, (number / 65536 % 256) as u8)?;
    append(f, &piece)
}

/// Adds a word to another modulo 2^24.
pub fn add(f: &mut Frag, to: u32, from: u32) -> Result<(), AllocError>
    requires to { to < 108 }
    requires from { from < 108 }
    requires distinct { AreDistinct to from }
    ensures code { OnOk result (f.new ≡ joined f.old (sum_word_code f.old.cell to from) 116) }
    ensures effect { OnOk result (Adds f.old f.new IsClear (λ input s. with_word s to ((word_in s to + word_in s from) % 2 ^ 24)) (2 ^ 23) (2 ^ 14)) }
    ensures err { OnErr result (f.new ≡ f.old) }
{
    let mut piece = aside(f);
    dup_word(&mut piece, from, OPERAND, SPARE)?;
    move_word(&mut piece, to, COUNTER)?;
    lift_by(&mut piece, COUNTER, OPERAND)?;
    move_word(&mut piece, COUNTER, to)?;
    append(f, &piece)
}

/// Takes a word from another modulo 2^24.
pub fn sub(f: &mut Frag, to: u32, from: u32) -> Result<(), AllocError>
    requires to { to < 108 }
    requires from { from < 108 }
    requires distinct { AreDistinct to from }
    ensures code { OnOk result (f.new ≡ joined f.old (difference_word_code f.old.cell to from) 116) }
    ensures effect { OnOk result (Adds f.old f.new IsClear (λ input s. with_word s to ((word_in s to + (2 ^ 24 - word_in s from)) % 2 ^ 24)) (2 ^ 23) (2 ^ 15)) }
    ensures err { OnErr result (f.new ≡ f.old) }
{
    let mut piece = aside(f);
    dup_word(&mut piece, from, OPERAND, SPARE)?;
    move_word(&mut piece, to, COUNTER)?;
    lower_by(&mut piece, COUNTER, OPERAND)?;
    piece.clear(BORROW)?;
    move_word(&mut piece, COUNTER, to)?;
    append(f, &piece)
}

// The counter becomes the difference of two words, and the cell of its borrow tells whether the first was less.
fn subtract(f: &mut Frag, a: u32, b: u32) -> Result<(), AllocError>
    requires a { a < 108 }
    requires b { b < 108 }
    ensures code { OnOk result (f.new ≡ joined f.old (subtract_code f.old.cell a b) 112) }
    ensures effect { OnOk result (Adds f.old f.new IsClear (λ input s. compared s a b) (7 * 2 ^ 20) (2 ^ 14)) }
    ensures err { OnErr result (f.new ≡ f.old) }
{
    let mut piece = aside(f);
    dup_word(&mut piece, a, COUNTER, SPARE)?;
    dup_word(&mut piece, b, OPERAND, SPARE)?;
    lower_by(&mut piece, COUNTER, OPERAND)?;
    append(f, &piece)
}

/// A flag becomes 1 where a word is less than another, both counted without sign, and else 0.
pub fn less(f: &mut Frag, a: u32, b: u32, flag: u32) -> Result<(), AllocError>
    requires a { a < 108 }
    requires b { b < 108 }
    requires flag { flag < 110 }
    ensures code { OnOk result (f.new ≡ joined f.old (less_code f.old.cell a b flag) 123) }
    ensures effect { OnOk result (Adds f.old f.new IsClear (λ input s. put s flag (cond (nat_lt (word_in s a) (word_in s b)) 1 0)) (2 ^ 23) (2 ^ 15)) }
    ensures err { OnErr result (f.new ≡ f.old) }
{
    let mut piece = aside(f);
    subtract(&mut piece, a, b)?;
    clear_word(&mut piece, COUNTER)?;
    piece.clear(flag)?;
    piece.move_to(BORROW, flag)?;
    append(f, &piece)
}

/// A flag becomes 1 where two words are equal, and else 0.
pub fn equal(f: &mut Frag, a: u32, b: u32, flag: u32) -> Result<(), AllocError>
    requires a { a < 108 }
    requires b { b < 108 }
    requires flag { flag < 110 }
    ensures code { OnOk result (f.new ≡ joined f.old (equal_code f.old.cell a b flag) 123) }
    ensures effect { OnOk result (Adds f.old f.new IsClear (λ input s. put s flag (cond (nat_eq (word_in s a) (word_in s b)) 1 0)) (2 ^ 23) (2 ^ 15)) }
    ensures err { OnErr result (f.new ≡ f.old) }
{
    let mut piece = aside(f);
    subtract(&mut piece, a, b)?;
    piece.clear(BORROW)?;
    lower_once(&mut piece, COUNTER)?;
    clear_word(&mut piece, COUNTER)?;
    piece.clear(flag)?;
    piece.move_to(BORROW, flag)?;
    append(f, &piece)
}

/// A word becomes 2^24 - 1 less itself.
pub fn flip(f: &mut Frag, w: u32) -> Result<(), AllocError>
    requires { w < 108 }
    ensures code { OnOk result (f.new ≡ joined f.old (flip_code f.old.cell w) 116) }
    ensures effect { OnOk result (Adds f.old f.new IsClear (λ input s. with_word s w (2 ^ 24 - 1 - word_in s w)) (2 ^ 21) (2 ^ 14)) }
    ensures err { OnErr result (f.new ≡ f.old) }
{
    let mut piece = aside(f);
    move_word(&mut piece, w, COUNTER)?;
    set(&mut piece, w, Word::wrap(16777215))?;
    drain_word(&mut piece, COUNTER, w)?;
    append(f, &piece)
}

/// Takes one from a word modulo 2^24.
pub fn dec(f: &mut Frag, w: u32) -> Result<(), AllocError>
    requires { w < 108 }
    ensures code { OnOk result (f.new ≡ joined f.old (dec_code f.old.cell w) 116) }
    ensures effect { OnOk result (Adds f.old f.new IsClear (λ input s. with_word s w ((word_in s w + (2 ^ 24 - 1)) % 2 ^ 24)) (2 ^ 21) (2 ^ 14)) }
    ensures err { OnErr result (f.new ≡ f.old) }
{
    let mut piece = aside(f);
    move_word(&mut piece, w, COUNTER)?;
    lower_once(&mut piece, COUNTER)?;
    piece.clear(BORROW)?;
    move_word(&mut piece, COUNTER, w)?;
    append(f, &piece)
}
