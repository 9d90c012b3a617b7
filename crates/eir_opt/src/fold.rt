// Folding: the operations of a block, with the constants that are known where they stand.
ghost use Rattle.std.specs.Prelude.{◌≡◌, cond, IfOk};
ghost use Rattle.word24.specs.Word.{number_of, sum_word, difference_word};
ghost use Rattle.eir_core.specs.Step.{holds};
ghost use Rattle.eir_opt.specs.Folding.{constant_in, operand_in, made, told, mov_or, folded_op, constant_of, known_after, folded};

use crate::by_register::ByRegister;
use eir_core::{Cond, Op, Operand, Reg};
use std::alloc::{AllocError, Global};
use word24::Word;

// The word that each register is known to hold, if any.
type Known = ByRegister<Option<Word>>;

// Whether a comparison holds.
fn compare(test: Cond, x: Word, y: Word) -> bool
    ensures { result ≡ holds test (number_of x) (number_of y) }
{
    match test {
        Cond::Eq => x.get() == y.get(),
        Cond::Ne => x.get() != y.get(),
        Cond::Lt => x.get() < y.get(),
        Cond::Gt => y.get() < x.get(),
        Cond::Le => x.get() <= y.get(),
        Cond::Ge => y.get() <= x.get(),
    }
}

// The sum of two words, where both are known.
fn sum(x: Option<Word>, y: Option<Word>) -> Option<Word>
    ensures { result ≡ made sum_word x y }
{
    Some(x?.add(y?))
}

// Their difference.
fn difference(x: Option<Word>, y: Option<Word>) -> Option<Word>
    ensures { result ≡ made difference_word x y }
{
    Some(x?.sub(y?))
}

// 1 or 0.
fn bit(holds: bool) -> Word
    ensures { number_of result ≡ cond holds 1 0 }
{
    Word::wrap(if holds { 1 } else { 0 })
}

// 1 where they compare so, else 0.
fn outcome(test: Cond, x: Option<Word>, y: Option<Word>) -> Option<Word>
    ensures { result ≡ made (told test) x y }
{
    Some(bit(compare(test, x?, y?)))
}

// The word that an operand is known to stand for, if any.
fn constant(known: &Known, v: Operand) -> Option<Word>
    ensures { result ≡ constant_in known.now v }
{
    match v {
        Operand::Reg(r) => known.get(r),
        Operand::Imm(w) => Some(w),
    }
}

// An operand, with its constant in place of a register that is known.
fn operand(known: &Known, v: Operand) -> Operand
    ensures { result ≡ operand_in known.now v }
{
    match constant(known, v) {
        Some(w) => Operand::Imm(w),
        None => v,
    }
}

// A `Mov` of the result where it is known, and else the operation.
fn mov_or(r: Reg, result_known: Option<Word>, op: Op) -> Op
    ensures { result ≡ mov_or r result_known op }
{
    match result_known {
        Some(w) => Op::Mov(r, Operand::Imm(w)),
        None => op,
    }
}

// An operation where these registers are known.
fn fold_op(known: &Known, op: Op) -> Op
    ensures { result ≡ folded_op known.now op }
{
    match op {
        Op::Mov(r, v) => Op::Mov(r, operand(known, v)),
        Op::Add(r, v) => mov_or(
            r,
            sum(known.get(r), constant(known, v)),
            Op::Add(r, operand(known, v)),
        ),
        Op::Sub(r, v) => mov_or(
            r,
            difference(known.get(r), constant(known, v)),
            Op::Sub(r, operand(known, v)),
        ),
        Op::Load(r, v) => Op::Load(r, operand(known, v)),
        Op::Store(r, v) => Op::Store(r, operand(known, v)),
        Op::Putc(v) => Op::Putc(operand(known, v)),
        Op::Getc(r) => Op::Getc(r),
        Op::Exit => Op::Exit,
        Op::Set(test, r, v) => mov_or(
            r,
            outcome(test, known.get(r), constant(known, v)),
            Op::Set(test, r, operand(known, v)),
        ),
        Op::Jump(target) => Op::Jump(operand(known, target)),
        Op::JumpIf(test, target, r, v) => {
            Op::JumpIf(test, operand(known, target), r, operand(known, v))
        }
    }
}

// The constant that an operand is, if it is one.
fn constant_of(v: Operand) -> Option<Word>
    ensures { result ≡ constant_of v }
{
    match v {
        Operand::Reg(_) => None,
        Operand::Imm(w) => Some(w),
    }
}

// Goes on to what is known after an operation.
fn learn(known: &mut Known, op: Op)
    ensures { known.new ≡ known_after known.old op }
{
    match op {
        Op::Mov(r, v) => known.set(r, constant_of(v)),
        Op::Add(r, _) | Op::Sub(r, _) | Op::Load(r, _) | Op::Getc(r) | Op::Set(_, r, _) => {
            known.set(r, None)
        }
        Op::Store(..) | Op::Putc(_) | Op::Exit | Op::Jump(_) | Op::JumpIf(..) => {}
    }
}

/// The operations of a block with its constants folded. It fails where memory runs out.
pub fn fold(alloc: Global, ops: &[Op]) -> Result<Vec<Op>, AllocError>
    ensures { IfOk result (λ made. made.items ≡ folded ops.now) }
{
    let mut known = ByRegister::all(None);
    let mut made = Vec::with_capacity(alloc, ops.len())?;
    for old in ops {
        let op = fold_op(&known, *old);
        learn(&mut known, op);
        made.push(op)?;
    }
    Ok(made)
}
