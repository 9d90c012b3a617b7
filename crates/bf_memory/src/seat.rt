// An address at record -1.

ghost use Rattle.std.specs.Prelude.{◌≡◌, ◌^◌, ◌<◌, IfOk, OnOk, OnErr};
ghost use Rattle.bf_tape.specs.Tape.{put};
ghost use Rattle.bf_tape.specs.Piece.{joined, Adds};
ghost use Rattle.bf_word.specs.Word.{word_in, with_word, IsClear};
ghost use Rattle.bf_memory.specs.Row.{near, side};
ghost use Rattle.bf_memory.specs.MemoryCode.{over_code, seat_code};
ghost use Rattle.bf_memory.specs.Walk.{TurnsOver};

use bf_tape::Frag;
use bf_word::{append, aside, clear_word, drain_word, dup_word, lower_by, move_word, set};
use std::alloc::AllocError;
use word24::Word;

// An address of the upper half is counted from the other end, and the side is told.
fn turn_over(f: &Frag) -> Result<Frag, AllocError>
    ensures home { IfOk result (λ body. body.cell ≡ 123) }
    ensures code { IfOk result (λ body. body ≡ record { commands = over_code; cell = 123 }) }
    ensures turn { IfOk result (λ body. TurnsOver body) }
{
    let mut body = f.begin(123);
    body.add_const(149, 1)?;
    move_word(&mut body, 136, 114)?;
    set(&mut body, 136, Word::wrap(16777215))?;
    drain_word(&mut body, 114, 136)?;
    body.goto(123)?;
    Ok(body)
}

/// Record -1 gets how near an address is to an end of the range, and its side.
pub(crate) fn seat(f: &mut Frag, addr: u32) -> Result<(), AllocError>
    requires { addr < 108 }
    ensures code { OnOk result (f.new ≡ joined f.old (seat_code f.old.cell addr) 123) }
    ensures effect { OnOk result (Adds f.old f.new IsClear (λ input s. put (with_word s 136 (near (word_in s addr))) 149 (side (word_in s addr))) (2 ^ 23) (2 ^ 15)) }
    ensures err { OnErr result (f.new ≡ f.old) }
{
    let over = turn_over(f)?;
    let mut piece = aside(f);
    piece.add_const(116, 127)?;
    piece.dup(addr + 2, 112, 113)?;
    lower_by(&mut piece, 114, 110)?;
    clear_word(&mut piece, 114)?;
    dup_word(&mut piece, addr, 136, 113)?;
    piece.times(123, over)?;
    append(f, &piece)
}
