//! The data pieces.

ghost use Rattle.std.specs.Prelude.{◌≡◌, ℕ, ◌+◌, ◌-◌, ◌≤◌, ◌<◌, ◌^◌, ◌≢◌, List, [], ◌∷◌, ◌++◌, map, min, IfOk, IfErr, OnOk, MatchOption};
ghost use Rattle.std.specs.List.{flat_map};
ghost use Rattle.eir_line.specs.Reading.{statement_of};
ghost use Rattle.eir_text.specs.declared.fault.EirFault.TheVariants.{Memory, TooLarge};
ghost use Rattle.eir_text.specs.Names.{defined_after};
ghost use Rattle.eir_text.specs.Sections.{data_lines};
ghost use Rattle.eir_text.specs.Layout.{by_number, word_count, data_end, data_labels};
ghost use Rattle.eir_text.specs.Spells.{wrapped, words_for};
ghost use Rattle.eir_text.specs.Reading.{places, piece_of, piece_lines, number_at, value_in};

use crate::fault::EirFault;
use crate::lines::PlacedLine;
use crate::section::Section;
use crate::values::{Values, define, word_of, wrapped};
use eir_line::ReadStatement;
use indexmap::IndexMap;
use std::alloc::Global;
use word24::Word;

/// The largest size of a program.
const LIMIT: usize = 2097152;

// The lines of the data sections in file order, with the numbers of their pieces.
fn data_lines<'a, 't>(
    alloc: Global,
    lines: &'a [PlacedLine<'t>],
) -> Result<Vec<(u32, &'a PlacedLine<'t>)>, EirFault>
    ensures lines { IfOk result (λ v. map piece_of v.items ≡ data_lines (places lines.now)) }
    ensures memory { IfErr result (λ e. e ≡ Memory) }
{
    let mut data = Vec::new(alloc);
    for line in lines {
        if let Section::Data(number) = line.section {
            data.push((number, line))?;
        }
    }
    Ok(data)
}

// The lines of the data sections as they are laid out, with the numbers of their pieces.
pub fn pieces_of<'a, 't>(
    alloc: Global,
    lines: &'a [PlacedLine<'t>],
) -> Result<Vec<(u32, &'a PlacedLine<'t>)>, EirFault>
    ensures lines { IfOk result (λ v. map piece_of v.items ≡ by_number (data_lines (places lines.now))) }
    ensures memory { IfErr result (λ e. e ≡ Memory) }
{
    let mut data = data_lines(alloc, lines)?;
    data.sort_by_key(|line| line.0)?;
    Ok(data)
}

// How many words a statement lays out, up to the last value of a `usize`.
fn word_count(statement: &ReadStatement<'_>) -> usize
    ensures { result ≡ min (word_count (statement_of statement.now)) (2 ^ 64 - 1) }
{
    match statement {
        ReadStatement::Long(_) => 1,
        ReadStatement::Bytes(bytes) => bytes.len().saturating_add(1),
        _ => 0,
    }
}

// The address behind a statement at this one, if so many words make no program too large.
fn address_behind(address: u32, statement: &ReadStatement<'_>) -> Option<u32>
    ensures { let behind = address + word_count (statement_of statement.now) in MatchOption result (2 ^ 21 < behind) (λ n. (n ≡ behind) × (n ≤ 2 ^ 21)) }
{
    let behind = word_count(statement).saturating_add(address as usize);
    if behind > LIMIT {
        return None;
    }
    Some(behind as u32)
}

// Gives the labels of the data their addresses; the first address past the data.
pub fn define_data<'t>(
    numbers: &mut IndexMap<&'t [u8], u32>,
    pieces: &[(u32, &PlacedLine<'t>)],
) -> Result<u32, EirFault>
    ensures end { IfOk result (λ end. end ≡ data_end (piece_lines pieces.now)) }
    ensures defined { OnOk result ((name : List ℕ) → number_at numbers.new name ≡ defined_after (number_at numbers.old name) (data_labels 0 (piece_lines pieces.now)) name) }
    ensures refused { IfErr result (λ e. e ≢ Memory → (e ≡ TooLarge) × (2 ^ 21 < data_end (piece_lines pieces.now))) }
{
    let mut address = 0u32;
    for (_, line) in pieces {
        define(numbers, &line.line.labels, address)?;
        let Some(behind) = address_behind(address, &line.line.statement) else {
            return Err(EirFault::TooLarge);
        };
        address = behind;
    }
    Ok(address)
}

// Adds bytes, a word each.
fn push_bytes(words: &mut Vec<Word>, bytes: &[u8]) -> Result<(), EirFault>
    ensures words { OnOk result (words.new.items ≡ words.old.items ++ map wrapped bytes.now) }
    ensures memory { IfErr result (λ e. e ≡ Memory) }
{
    for b in bytes {
        words.push(wrapped(u64::from(*b)))?;
    }
    Ok(())
}

// Adds bytes, a word each, and a zero word.
fn push_string(words: &mut Vec<Word>, bytes: &[u8]) -> Result<(), EirFault>
    ensures words { OnOk result (words.new.items ≡ words.old.items ++ (map wrapped bytes.now ++ wrapped 0 ∷ [])) }
    ensures memory { IfErr result (λ e. e ≡ Memory) }
{
    push_bytes(words, bytes)?;
    words.push(wrapped(0))?;
    Ok(())
}

// Adds the words that a line lays out.
fn push_words(
    values: &Values<'_>,
    words: &mut Vec<Word>,
    line: &PlacedLine<'_>,
) -> Result<(), EirFault>
    ensures words { OnOk result (words.new.items ≡ words.old.items ++ words_for (value_in values.now) (statement_of line.now.line.statement)) }
    ensures memory { IfErr result (λ e. e ≡ Memory) }
{
    match &line.line.statement {
        ReadStatement::Long(term) => words.push(word_of(values, *term))?,
        ReadStatement::Bytes(bytes) => push_string(words, bytes)?,
        _ => (),
    }
    Ok(())
}

// The words of the data.
pub fn words_of(
    alloc: Global,
    values: &Values<'_>,
    pieces: &[(u32, &PlacedLine<'_>)],
) -> Result<Vec<Word>, EirFault>
    ensures words { IfOk result (λ v. v.items ≡ flat_map (λ line. words_for (value_in values.now) line.statement) (piece_lines pieces.now)) }
    ensures memory { IfErr result (λ e. e ≡ Memory) }
{
    let mut words = Vec::new(alloc);
    for (_, line) in pieces {
        push_words(values, &mut words, line)?;
    }
    Ok(words)
}
