// The block that a word names.

ghost use Rattle.std.specs.Prelude.{◌≡◌, ◌*◌, ◌^◌, ◌≤◌, ◌++◌, OnOk, length};
ghost use Rattle.bf_tape.specs.Piece.{joined, Adds};
ghost use Rattle.bf_word.specs.WordCode.{once_code};
ghost use Rattle.bf_turn.specs.Lookup.{IsCounted, IsCounting, counted_once, counted, LooksUp};
ghost use Rattle.bf_turn.specs.Code.{find_code, count_cell, count_code, look_code};

use bf_choice::aim;
use bf_tape::Frag;
use bf_word::{clear_word, lower_once};
use std::alloc::AllocError;

// Takes one from the counter at cell 114. Where it was 0, the operation of a number is aimed at. What is added up to an
// error is left.
fn count_once(f: &mut Frag, digits: u32, number: u32) -> Result<(), AllocError>
    requires { digits ≤ 14 }
    ensures code { OnOk result (f.new ≡ joined f.old (once_code f.old.cell 114 ++ find_code digits number) 123) }
    ensures effect { OnOk result (Adds f.old f.new (IsCounting digits) (λ input s. counted_once digits number s) (2 ^ 14) 8704) }
{
    lower_once(f, 114)?;
    let mut body = f.begin(123);
    aim(&mut body, digits, number)?;
    body.goto(123)?;
    f.times(123, body)?;
    Ok(())
}

// Takes one from that counter for each number, and aims at the operation of the number at which it was 0. What is added
// up to an error is left.
fn count(f: &mut Frag, digits: u32, numbers: &[u32]) -> Result<(), AllocError>
    requires digits { digits ≤ 14 }
    requires few { length numbers.now ≤ 2 ^ 22 }
    ensures code { OnOk result (f.new ≡ joined f.old (count_code f.old.cell digits numbers.now (length numbers.now)) (count_cell f.old.cell (length numbers.now))) }
    ensures effect { OnOk result (Adds f.old f.new (IsCounted digits) (λ input s. counted digits numbers.now s) (length numbers.now * 2 ^ 14) (length numbers.now * 8704)) }
{
    for number in numbers {
        count_once(f, digits, *number)?;
    }
    Ok(())
}

/// Where the block of a register is the goal, its first operation becomes the goal; these are the numbers of the first
/// operations of all blocks. What is added up to an error is left.
pub(crate) fn look_up(f: &mut Frag, digits: u32, numbers: &[u32]) -> Result<(), AllocError>
    requires digits { digits ≤ 14 }
    requires few { length numbers.now ≤ 2 ^ 22 }
    ensures code { OnOk result (f.new ≡ joined f.old (look_code f.old.cell digits numbers.now) 44) }
    ensures cell { OnOk result (f.new.cell ≡ 44) }
    ensures effect { OnOk result (LooksUp f.old f.new digits numbers.now) }
{
    let mut body = f.begin(44);
    count(&mut body, digits, numbers)?;
    clear_word(&mut body, 114)?;
    body.goto(44)?;
    f.times(44, body)?;
    Ok(())
}
