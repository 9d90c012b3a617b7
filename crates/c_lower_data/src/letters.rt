// String literals in the memory: each has a word for each of its bytes, and one for its zero.

ghost use Rattle.std.specs.Prelude.{◌≡◌, ◌+◌, ◌++◌, ℕ, length, IfOk, OnOk};
ghost use Rattle.std.specs.List.{flat_map};
ghost use Rattle.c_types.specs.Table.{texts};
ghost use Rattle.c_lowered.specs.Whole.{letter_words, words_from};
ghost use Rattle.c_counted.specs.Numbers.{IsNumber};
ghost use Rattle.c_lower_data.specs.Letters.{AddsAddresses};

use crate::words::{add_bytes, add_number};
use c_counted::{next, plus};
use std::alloc::AllocError;
use word24::Word;

// The words of one literal, behind others.
fn add_text(text: &[u8], words: &mut Vec<Word>) -> Result<(), AllocError>
    ensures { OnOk result (words.new.items ≡ words.old.items ++ words_from (letter_words text.now)) }
{
    add_bytes(text, words)?;
    add_number(0, words)
}

/// The words of literals, one behind the other, behind others.
pub fn add_letters(literals: &[&[u8]], words: &mut Vec<Word>) -> Result<(), AllocError>
    ensures { OnOk result (words.new.items ≡ words.old.items ++ words_from (flat_map letter_words (texts literals.now))) }
{
    for text in literals {
        add_text(text, words)?;
    }
    Ok(())
}

// A number of words, modulo 2^24.
fn low(count: usize) -> u32
    ensures { IsNumber result count }
{
    Word::wrap(count as u64).get()
}

// The address behind a literal at an address.
fn address_behind(address: u32, text: &[u8]) -> u32
    ensures { (k : ℕ) → IsNumber address k → IsNumber result (k + length text.now + 1) }
{
    next(plus(address, low(text.len())))
}

/// The addresses of literals that lie one behind the other from one on, behind others, and the address behind them.
pub fn add_addresses(
    literals: &[&[u8]],
    from: u32,
    addresses: &mut Vec<u32>,
) -> Result<u32, AllocError>
    ensures { (a : ℕ) → IsNumber from a → IfOk result (λ end. AddsAddresses addresses.old.items addresses.new.items end a (texts literals.now)) }
{
    let mut address = from;
    for text in literals {
        addresses.push(address)?;
        address = address_behind(address, text);
    }
    Ok(address)
}
