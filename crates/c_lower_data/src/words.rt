// Words of the first memory, behind others.

ghost use Rattle.std.specs.Prelude.{◌≡◌, ◌++◌, ◌∷◌, [], ℕ, replicate, OnOk};
ghost use Rattle.c_lowered.specs.Operations.{wrapped};
ghost use Rattle.c_lowered.specs.Whole.{words_from};
ghost use Rattle.c_counted.specs.Numbers.{IsNumber};

use std::alloc::AllocError;
use word24::Word;

// The word that a number is.
fn word(number: u64) -> Word
    ensures { result ≡ wrapped number }
{
    Word::wrap(number)
}

/// The word that a number is, behind others.
pub fn add_number(number: u32, words: &mut Vec<Word>) -> Result<(), AllocError>
    ensures { (n : ℕ) → IsNumber number n → OnOk result (words.new.items ≡ words.old.items ++ words_from (n ∷ [])) }
{
    words.push(word(u64::from(number)))?;
    Ok(())
}

/// A word for each byte, behind others.
pub fn add_bytes(bytes: &[u8], words: &mut Vec<Word>) -> Result<(), AllocError>
    ensures { OnOk result (words.new.items ≡ words.old.items ++ words_from bytes.now) }
{
    for byte in bytes {
        words.push(word(u64::from(*byte)))?;
    }
    Ok(())
}

/// So many words that are 0, behind others.
pub fn add_zeros(count: usize, words: &mut Vec<Word>) -> Result<(), AllocError>
    ensures { OnOk result (words.new.items ≡ words.old.items ++ words_from (replicate count 0)) }
{
    for _index in 0..count {
        words.push(word(0))?;
    }
    Ok(())
}
