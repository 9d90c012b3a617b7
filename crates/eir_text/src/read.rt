//! Reading a text.

ghost use Rattle.std.specs.Prelude.{◌≡◌, ◌≢◌, ℕ, ◌≤◌, ◌<◌, ◌^◌, ◌⊎◌, List, length, map, vec_len, Some, unwrap_or, codes, IfOk, IfErr, IsErrOf};
ghost use Rattle.eir_core.specs.Eir.{Eir, HasGoodBlocks, program_of, size_of};
ghost use Rattle.eir_text.specs.declared.fault.EirFault.TheVariants.{Memory, TooLarge};
ghost use Rattle.eir_text.specs.Layout.{by_number, data_end, laid_out};
ghost use Rattle.eir_text.specs.Sections.{data_lines};
ghost use Rattle.eir_text.specs.Spells.{name_value, program_said, Spells, refusal_of, IsRefusedBy};
ghost use Rattle.eir_text.specs.Reading.{places, piece_of, number_at, value_in, Refuses};

use crate::blocks::{blocks_of, define_blocks};
use crate::data::{define_data, pieces_of, words_of};
use crate::fault::EirFault;
use crate::lines::PlacedLine;
use crate::names::check_names;
use crate::placing::lines_read;
use crate::values::Values;
use eir_core::{Op, Program};
use indexmap::IndexMap;
use std::alloc::Global;
use word24::Word;

/// The name of the label at which a program starts.
const MAIN: &[u8] = b"main";

// The program of these parts, where they make one that is not too large.
fn program(blocks: Vec<Vec<Op>>, words: Vec<Word>, start: u32) -> Result<Program, EirFault>
    requires good { HasGoodBlocks (program_of blocks.items words.items start) }
    requires start { start ≤ vec_len blocks }
    ensures program { IfOk result (λ p. p ≡ program_of blocks.items words.items start) }
    ensures small { IfOk result (λ p. size_of p ≤ 2 ^ 21) }
    ensures refused { IfErr result (λ e. (e ≡ TooLarge) × (2 ^ 21 < size_of (program_of blocks.items words.items start))) }
{
    if blocks.len() > 2097152 {
        return Err(EirFault::TooLarge);
    }
    match Program::new(blocks, words, start) {
        Ok(program) => Ok(program),
        Err(_) => Err(EirFault::TooLarge),
    }
}

// The number of the block at the label `main`, or 0.
fn start_of(numbers: &IndexMap<&[u8], u32>) -> u32
    ensures { result ≡ unwrap_or (number_at numbers.now (codes "main")) 0 }
{
    numbers.get(&MAIN).copied().unwrap_or(0)
}

// What names stand for, and the number of the block that comes first.
fn values_of<'t>(
    alloc: Global,
    lines: &[PlacedLine<'t>],
    pieces: &[(u32, &PlacedLine<'t>)],
) -> Result<(Values<'t>, u32), EirFault>
    requires few { length lines.now ≤ 2 ^ 30 }
    requires pieces { map piece_of pieces.now ≡ by_number (data_lines (places lines.now)) }
    ensures values { IfOk result (λ r. (name : List ℕ) → value_in r.0 name ≡ name_value (places lines.now) name) }
    ensures start { IfOk result (λ r. r.1 ≡ (program_said (places lines.now)).start) }
    ensures refused { IfErr result (λ e. e ≢ Memory → (e ≡ TooLarge) × (2 ^ 21 < data_end (laid_out (data_lines (places lines.now))))) }
{
    let mut numbers = IndexMap::new(alloc);
    define_blocks(&mut numbers, lines)?;
    let start = start_of(&numbers);
    let other = define_data(&mut numbers, pieces)?;
    Ok((Values { numbers, other }, start))
}

// The program that lines say.
fn assembled(alloc: Global, lines: &[PlacedLine<'_>]) -> Result<Program, EirFault>
    requires { length lines.now ≤ 2 ^ 30 }
    ensures program { IfOk result (λ p. p ≡ program_said (places lines.now)) }
    ensures small { IfOk result (λ p. size_of p ≤ 2 ^ 21) }
    ensures refused { IfErr result (λ e. e ≢ Memory → (e ≡ TooLarge) × (2 ^ 21 < size_of (program_said (places lines.now)))) }
{
    let pieces = pieces_of(alloc, lines)?;
    let (values, start) = values_of(alloc, lines, &pieces)?;
    let blocks = blocks_of(alloc, &values, lines)?;
    let words = words_of(alloc, &values, &pieces)?;
    program(blocks, words, start)
}

// The program that a text spells, or the refusal that comes first.
fn read(alloc: Global, text: &[u8]) -> Result<Program, EirFault>
    requires { length text.now ≤ 2 ^ 29 }
    ensures program { IfOk result (λ p. Spells text.now p) }
    ensures small { IfOk result (λ p. size_of p ≤ 2 ^ 21) }
    ensures fault { IfErr result (λ e. Refuses e (refusal_of text.now)) }
{
    let lines = lines_read(alloc, text)?;
    check_names(alloc, &lines)?;
    assembled(alloc, &lines)
}

/// Reads a text of EIR: the program that it spells, or the refusal that comes first.
///
/// A text that spells no program, or one of a size above 2^21, is refused. `Memory` alone says nothing of the text.
pub fn read_eir(alloc: Global, text: &[u8]) -> Result<Program, EirFault>
    requires { length text.now ≤ 2 ^ 29 }
    ensures ok { IfOk result (λ p. Spells text.now p) }
    ensures refused { (e : EirFault) → result ≡ Err e → IsRefusedBy e text.now }
    ensures spelled { (p : Eir) → Spells text.now p → size_of p ≤ 2 ^ 21 → (result ≡ Ok p) ⊎ IsErrOf result Memory }
    ensures refusal { (e : EirFault) → refusal_of text.now ≡ Some e → IsErrOf result e ⊎ IsErrOf result Memory }
{
    read(alloc, text)
}
