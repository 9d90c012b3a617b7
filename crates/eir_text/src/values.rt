//! Names, what they stand for, and the operations that use them.

ghost use Rattle.std.specs.Prelude.{◌≡◌, ℕ, ◌-◌, ◌<◌, ◌^◌, List, map, IsTrue, IfErr, OnOk, if◌then◌else◌};
ghost use Rattle.eir_line.specs.Line.{term_fits, is_in_range};
ghost use Rattle.eir_line.specs.Reading.{term_of, statement_of};
ghost use Rattle.eir_text.specs.declared.fault.EirFault.TheVariants.{Memory};
ghost use Rattle.eir_text.specs.Names.{defined_after};
ghost use Rattle.eir_text.specs.Spells.{wrapped, number_for, operand_for, op_for};

use crate::fault::EirFault;
use crate::statements::number_of;
use eir_core::{Op, Operand, Reg};
use eir_line::{BinaryOp, ReadStatement, ReadTerm};
use indexmap::IndexMap;
use word24::Word;

/// What names stand for: a number for some, and one for all others.
#[derive(Drop)]
pub struct Values<'t> {
    pub numbers: IndexMap<&'t [u8], u32>,
    pub other: u32,
}

ghost use Rattle.eir_text.specs.Reading.{texts, number_at, value_in};

// Gives each of the labels this number.
pub fn define<'t>(
    numbers: &mut IndexMap<&'t [u8], u32>,
    labels: &[&'t [u8]],
    number: u32,
) -> Result<(), EirFault>
    ensures defined { OnOk result ((name : List ℕ) → number_at numbers.new name ≡ defined_after (number_at numbers.old name) (map (λ label. (label, number)) (texts labels.now)) name) }
    ensures memory { IfErr result (λ e. e ≡ Memory) }
{
    for label in labels {
        numbers.insert(*label, number)?;
    }
    Ok(())
}

// What a name stands for.
fn value_of(values: &Values<'_>, name: &[u8]) -> u32
    ensures { result ≡ value_in values.now name.now }
{
    values.numbers.get(&name).copied().unwrap_or(values.other)
}

// The word that a number is modulo 2^24.
pub fn wrapped(number: u64) -> Word
    ensures { result ≡ wrapped number }
{
    Word::wrap(number)
}

// The word of a number with a minus or without.
fn signed_word(minus: bool, number: u32) -> Word
    requires { number < 2 ^ 24 }
    ensures { result ≡ wrapped (if minus then 2 ^ 24 - number else number) }
{
    if minus {
        wrapped(u64::from(16777216 - number))
    } else {
        wrapped(u64::from(number))
    }
}

// The word of a term that is no register.
pub fn word_of(values: &Values<'_>, term: ReadTerm<'_>) -> Word
    requires { IsTrue (term_fits (term_of term)) }
    ensures { result ≡ wrapped (number_for (value_in values.now) (term_of term.entry)) }
{
    match term {
        ReadTerm::Register(_) => wrapped(0),
        ReadTerm::Number(minus, digits) => signed_word(minus, number_of(digits)),
        ReadTerm::Label(name, digits) => {
            wrapped(u64::from(value_of(values, name)) + u64::from(number_of(digits)))
        }
    }
}

// The operand that a term is.
fn operand_of(values: &Values<'_>, term: ReadTerm<'_>) -> Operand
    requires { IsTrue (term_fits (term_of term)) }
    ensures { result ≡ operand_for (value_in values.now) (term_of term.entry) }
{
    match term {
        ReadTerm::Register(r) => Operand::Reg(r),
        _ => Operand::Imm(word_of(values, term)),
    }
}

ghost use Rattle.eir_text.specs.Operations.{binary_of};

// The operation of this kind on a register and an operand.
fn binary_of(kind: BinaryOp, r: Reg, operand: Operand) -> Op
    ensures { result ≡ binary_of kind r operand }
{
    match kind {
        BinaryOp::Mov => Op::Mov(r, operand),
        BinaryOp::Add => Op::Add(r, operand),
        BinaryOp::Sub => Op::Sub(r, operand),
        BinaryOp::Load => Op::Load(r, operand),
        BinaryOp::Store => Op::Store(r, operand),
        BinaryOp::Set(cond) => Op::Set(cond, r, operand),
    }
}

// The operation that a statement is, if it is one.
pub fn op_of(values: &Values<'_>, statement: &ReadStatement<'_>) -> Option<Op>
    requires { IsTrue (is_in_range (statement_of statement.now)) }
    ensures { result ≡ op_for (value_in values.now) (statement_of statement.now) }
{
    match statement {
        ReadStatement::Binary(kind, r, term) => {
            Some(binary_of(*kind, *r, operand_of(values, *term)))
        }
        ReadStatement::Putc(term) => Some(Op::Putc(operand_of(values, *term))),
        ReadStatement::Getc(r) => Some(Op::Getc(*r)),
        ReadStatement::Exit => Some(Op::Exit),
        ReadStatement::Jump(target) => Some(Op::Jump(operand_of(values, *target))),
        ReadStatement::JumpIf(cond, target, r, term) => Some(Op::JumpIf(
            *cond,
            operand_of(values, *target),
            *r,
            operand_of(values, *term),
        )),
        _ => None,
    }
}
