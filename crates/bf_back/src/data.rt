// The data words.

ghost use Rattle.std.specs.Prelude.{◌≡◌, ◌+◌, ◌*◌, ◌^◌, ◌≤◌, OnOk, length, map};
ghost use Rattle.word24.specs.Word.{number_of};
ghost use Rattle.bf_tape.specs.Piece.{joined, Adds, any};
ghost use Rattle.bf_memory.specs.Walk.{framed};
ghost use Rattle.bf_back.specs.Data.{laid, back_by};
ghost use Rattle.bf_back.specs.Code.{words_code, back_code, lay_code};

use bf_tape::Frag;
use bf_word::set;
use std::alloc::AllocError;
use word24::Word;

// Sets the first word of each record, from the one on at which the frame begins, and goes to the record behind them. What is
// added up to an error is left.
fn set_words(f: &mut Frag, words: &[Word]) -> Result<(), AllocError>
    ensures code { OnOk result (f.old.cell ≡ 0 → f.new ≡ joined f.old (words_code words.now) 0) }
    ensures effect { OnOk result (Adds f.old f.new any (λ input s. framed (laid 16 (map number_of words.now) s) (22 * length words.now)) (length words.now * 2 ^ 14) (length words.now * 5120)) }
{
    for word in words {
        set(f, 16, *word)?;
        f.shift(22, true)?;
    }
    Ok(())
}

// Goes so many records back. What is added up to an error is left.
fn go_back(f: &mut Frag, records: usize) -> Result<(), AllocError>
    ensures code { OnOk result (f.old.cell ≡ 0 → f.new ≡ joined f.old (back_code records) 0) }
    ensures effect { OnOk result (Adds f.old f.new (λ s. 22 * records ≤ s.base) (λ input s. back_by s (22 * records)) (records * 512) (records * 512)) }
{
    for walked in 0..records {
        f.shift(22, false)?;
    }
    Ok(())
}

/// Lays words down from address 0 on, and goes to cell 0. What is added up to an error is left.
pub(crate) fn lay(f: &mut Frag, words: &[Word]) -> Result<(), AllocError>
    ensures code { OnOk result (f.new ≡ joined f.old (lay_code f.old.cell words.now) 0) }
    ensures cell { OnOk result (f.new.cell ≡ 0) }
    ensures effect { OnOk result (Adds f.old f.new any (λ input s. laid 174 (map number_of words.now) s) (length words.now * 2 ^ 15 + 2 ^ 11) (length words.now * 5632 + 2 ^ 11)) }
{
    f.goto(158)?;
    f.rename(0);
    set_words(f, words)?;
    f.goto(0)?;
    go_back(f, words.len())?;
    f.goto(0)?;
    f.rename(158);
    f.goto(0)?;
    Ok(())
}
