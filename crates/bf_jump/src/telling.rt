// What is told of two words that were posed.

ghost use Rattle.std.specs.Prelude.{◌≡◌, OnOk};
ghost use Rattle.bf_tape.specs.Piece.{joined};
ghost use Rattle.bf_jump.specs.Tell.{same_code, tell_code, TellsSame, Tells};

use crate::posing::{ANSWER, FIRST, SAMENESS, SECOND};
use bf_tape::Frag;
use bf_word::{clear_word, lower_by, lower_once, move_word};
use std::alloc::AllocError;

// The counter on which the words are compared, and the cell of its borrow.
const COUNTER: u32 = 114;

const BORROW: u32 = 123;

// Where the words are compared by equality, the counter tells whether it is 0. What is added up to an error is left.
fn tell_same(f: &mut Frag) -> Result<(), AllocError>
    ensures code { OnOk result (f.new ≡ joined f.old (same_code f.old.cell) 47) }
    ensures effect { OnOk result (TellsSame f.old f.new) }
{
    let mut body = f.begin(SAMENESS);
    body.clear(BORROW)?;
    lower_once(&mut body, COUNTER)?;
    body.goto(SAMENESS)?;
    f.times(SAMENESS, body)?;
    Ok(())
}

/// The cell 49, which is 0 where what is told of the words is not so. The words become 0. What is added up to an error is left.
pub(crate) fn tell(f: &mut Frag) -> Result<(), AllocError>
    ensures code { OnOk result (f.new ≡ joined f.old (tell_code f.old.cell) 123) }
    ensures effect { OnOk result (Tells f.old f.new) }
{
    move_word(f, FIRST, COUNTER)?;
    lower_by(f, COUNTER, SECOND)?;
    tell_same(f)?;
    clear_word(f, COUNTER)?;
    f.drain(BORROW, ANSWER)?;
    Ok(())
}
