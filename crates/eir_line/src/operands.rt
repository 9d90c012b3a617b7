//! Statements.

ghost use Rattle.std.specs.Prelude.{◌≡◌, Some};
ghost use Rattle.eir_line.specs.Grammar.{inside_at, mnemonic_at, operands_at, statement_at};
ghost use Rattle.eir_line.specs.Reading.{Finds, Gives, statement_of};

use crate::bytes::{digits_at, ends, is_blank, name_at, past, past_blanks, past_comma, past_gap};
use crate::line::{LineFault, ReadStatement};
use crate::strings::string_at;
use crate::terms::{constant_at, register_at, term_at};
use crate::words::{BinaryOp, Mnemonic, mnemonic_of};
use eir_core::Cond;
use std::alloc::Global;

// A register and a value.
#[tactic(auto, unfolding(crate::specs::Grammar::operands_at))]
fn binary_at(op: BinaryOp, bytes: &[u8]) -> Option<(ReadStatement<'_>, &[u8])>
    ensures { Finds (λ x. (statement_of x.0, x.1.now)) result (operands_at (Mnemonic.Binary op) bytes.now) }
{
    let (register, rest) = register_at(past_gap(bytes)?)?;
    let (term, rest) = term_at(past_comma(rest)?)?;
    Some((ReadStatement::Binary(op, register, term), rest))
}

// A value.
#[tactic(auto, unfolding(crate::specs::Grammar::operands_at))]
fn putc_at(bytes: &[u8]) -> Option<(ReadStatement<'_>, &[u8])>
    ensures { Finds (λ x. (statement_of x.0, x.1.now)) result (operands_at Mnemonic.Putc bytes.now) }
{
    let (term, rest) = term_at(past_gap(bytes)?)?;
    Some((ReadStatement::Putc(term), rest))
}

// A register.
#[tactic(auto, unfolding(crate::specs::Grammar::operands_at))]
fn getc_at(bytes: &[u8]) -> Option<(ReadStatement<'_>, &[u8])>
    ensures { Finds (λ x. (statement_of x.0, x.1.now)) result (operands_at Mnemonic.Getc bytes.now) }
{
    let (register, rest) = register_at(past_gap(bytes)?)?;
    Some((ReadStatement::Getc(register), rest))
}

// A target.
#[tactic(auto, unfolding(crate::specs::Grammar::operands_at))]
fn jump_at(bytes: &[u8]) -> Option<(ReadStatement<'_>, &[u8])>
    ensures { Finds (λ x. (statement_of x.0, x.1.now)) result (operands_at Mnemonic.Jump bytes.now) }
{
    let (target, rest) = term_at(past_gap(bytes)?)?;
    Some((ReadStatement::Jump(target), rest))
}

// A target, a register and a value.
#[tactic(auto, unfolding(crate::specs::Grammar::operands_at))]
fn jump_if_at(test: Cond, bytes: &[u8]) -> Option<(ReadStatement<'_>, &[u8])>
    ensures { Finds (λ x. (statement_of x.0, x.1.now)) result (operands_at (Mnemonic.JumpIf test) bytes.now) }
{
    let (target, rest) = term_at(past_gap(bytes)?)?;
    let (register, rest) = register_at(past_comma(rest)?)?;
    let (term, rest) = term_at(past_comma(rest)?)?;
    Some((ReadStatement::JumpIf(test, target, register, term), rest))
}

// The number of a piece, or nothing.
#[tactic(auto, unfolding(crate::specs::Grammar::operands_at, crate::specs::Grammar::number_at))]
fn data_at(bytes: &[u8]) -> Option<(ReadStatement<'_>, &[u8])>
    ensures { Finds (λ x. (statement_of x.0, x.1.now)) result (operands_at Mnemonic.Data bytes.now) }
{
    if ends(bytes) {
        return Some((ReadStatement::Data(&[]), bytes));
    }
    let (digits, rest) = digits_at(past_gap(bytes)?)?;
    Some((ReadStatement::Data(digits), rest))
}

// A number or a label's value.
#[tactic(auto, unfolding(crate::specs::Grammar::operands_at))]
fn long_at(bytes: &[u8]) -> Option<(ReadStatement<'_>, &[u8])>
    ensures { Finds (λ x. (statement_of x.0, x.1.now)) result (operands_at Mnemonic.Long bytes.now) }
{
    let (term, rest) = constant_at(past_gap(bytes)?)?;
    Some((ReadStatement::Long(term), rest))
}

// What stands behind a blank and a quote.
fn inside_at(bytes: &[u8]) -> Option<&[u8]>
    ensures { Finds (λ x. x.now) result (inside_at bytes.now) }
{
    past(b'"', past_gap(bytes)?)
}

// A string.
#[tactic(auto, unfolding(crate::specs::Grammar::operands_at))]
fn bytes_at(alloc: Global, bytes: &[u8]) -> Result<(ReadStatement<'_>, &[u8]), LineFault>
    ensures { Gives (λ x. (statement_of x.0, x.1.now)) result (operands_at Mnemonic.Bytes bytes.now) }
{
    match inside_at(bytes) {
        Some(inside) => {
            let (string, rest) = string_at(alloc, inside)?;
            Ok((ReadStatement::Bytes(string), rest))
        }
        None => Err(LineFault::NoForm),
    }
}

// What stands behind a blank, up to the line's end.
#[tactic(auto, unfolding(crate::specs::Grammar::operands_at))]
fn note_at(bytes: &[u8]) -> (ReadStatement<'_>, &[u8])
    ensures { operands_at Mnemonic.Note bytes.now ≡ Some (statement_of result.0, result.1.now) }
{
    match bytes {
        [b, ..] if is_blank(*b) => (ReadStatement::Note, &[]),
        _ => (ReadStatement::Note, bytes),
    }
}

// What stands behind a mnemonic, and what follows that.
#[tactic(auto, unfolding(crate::specs::Grammar::operands_at))]
fn operands_of(
    alloc: Global,
    mnemonic: Mnemonic,
    bytes: &[u8],
) -> Result<(ReadStatement<'_>, &[u8]), LineFault>
    ensures { Gives (λ x. (statement_of x.0, x.1.now)) result (operands_at mnemonic bytes.now) }
{
    let found = match mnemonic {
        Mnemonic::Binary(op) => binary_at(op, bytes),
        Mnemonic::Putc => putc_at(bytes),
        Mnemonic::Getc => getc_at(bytes),
        Mnemonic::Exit => Some((ReadStatement::Exit, bytes)),
        Mnemonic::Dump => Some((ReadStatement::Dump, bytes)),
        Mnemonic::Jump => jump_at(bytes),
        Mnemonic::JumpIf(test) => jump_if_at(test, bytes),
        Mnemonic::Text => Some((ReadStatement::Text, bytes)),
        Mnemonic::Data => data_at(bytes),
        Mnemonic::Long => long_at(bytes),
        Mnemonic::Bytes => return bytes_at(alloc, bytes),
        Mnemonic::Note => Some(note_at(bytes)),
    };
    found.ok_or(LineFault::NoForm)
}

// The mnemonic at the front, and what follows it.
fn mnemonic_at(bytes: &[u8]) -> Option<(Mnemonic, &[u8])>
    ensures { Finds (λ x. (x.0, x.1.now)) result (mnemonic_at bytes.now) }
{
    let (word, rest) = name_at(past_blanks(bytes))?;
    let mnemonic = mnemonic_of(word)?;
    Some((mnemonic, rest))
}

// A statement, or nothing, and what follows it.
#[tactic(auto, unfolding(crate::specs::Grammar::statement_at))]
pub fn statement_read(alloc: Global, bytes: &[u8]) -> Result<(ReadStatement<'_>, &[u8]), LineFault>
    ensures { Gives (λ x. (statement_of x.0, x.1.now)) result (statement_at bytes.now) }
{
    if ends(bytes) {
        return Ok((ReadStatement::Nothing, bytes));
    }
    match mnemonic_at(bytes) {
        Some((mnemonic, rest)) => operands_of(alloc, mnemonic, rest),
        None => Err(LineFault::NoForm),
    }
}
