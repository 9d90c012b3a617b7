// Trimming: the operations of a block without those that make no difference.
ghost use Rattle.std.specs.Prelude.{◌≡◌, not, ◌&&◌, ◌||◌, IfOk};
ghost use Rattle.eir_core.specs.declared.ops.Reg.{Reg};
ghost use Rattle.eir_opt.specs.ByRegister.{at};
ghost use Rattle.eir_opt.specs.Trimming.{is_same, is_register, is_zero, reads, overwrites, changes_nothing, sets_only, trimmed};

use crate::by_register::ByRegister;
use eir_core::{Op, Operand, Reg};
use std::alloc::{AllocError, Global};

// Whether each register is overwritten by the operations that are kept, and not read before.
type Overwritten = ByRegister<bool>;

// Whether two registers are one.
fn is_same(r: Reg, x: Reg) -> bool
    ensures { result ≡ is_same r x }
{
    r as u8 == x as u8
}

// Whether an operand is this register.
fn is_register(v: Operand, x: Reg) -> bool
    ensures { result ≡ is_register v x }
{
    match v {
        Operand::Reg(r) => is_same(r, x),
        Operand::Imm(_) => false,
    }
}

// Whether an operand is the constant 0.
fn is_zero(v: Operand) -> bool
    ensures { result ≡ is_zero v }
{
    match v {
        Operand::Reg(_) => false,
        Operand::Imm(w) => w.get() == 0,
    }
}

// Whether an operation reads a register.
fn reads(op: Op, x: Reg) -> bool
    ensures { result ≡ reads op x }
{
    match op {
        Op::Mov(_, v) | Op::Load(_, v) | Op::Putc(v) | Op::Jump(v) => is_register(v, x),
        Op::Add(r, v) | Op::Sub(r, v) | Op::Store(r, v) | Op::Set(_, r, v) => {
            is_same(r, x) || is_register(v, x)
        }
        Op::Getc(_) | Op::Exit => false,
        Op::JumpIf(_, target, r, v) => {
            is_register(target, x) || is_same(r, x) || is_register(v, x)
        }
    }
}

// Whether an operation overwrites a register.
fn overwrites(op: Op, x: Reg) -> bool
    ensures { result ≡ overwrites op x }
{
    match op {
        Op::Mov(r, _) | Op::Load(r, _) | Op::Getc(r) => is_same(r, x),
        _ => false,
    }
}

// Whether a register is overwritten from an operation on, where this is so behind it.
fn overwritten_from(op: Op, x: Reg, behind: bool) -> bool
    ensures { result ≡ (not (reads op x) && (overwrites op x || behind)) }
{
    !reads(op, x) && (overwrites(op, x) || behind)
}

// The same for each register.
fn all_overwritten_from(op: Op, behind: &Overwritten) -> Overwritten
    ensures { (x : Reg) → at result x ≡ (not (reads op x) && (overwrites op x || at behind.now x)) }
{
    ByRegister {
        a: overwritten_from(op, Reg::A, behind.a),
        b: overwritten_from(op, Reg::B, behind.b),
        c: overwritten_from(op, Reg::C, behind.c),
        d: overwritten_from(op, Reg::D, behind.d),
        sp: overwritten_from(op, Reg::SP, behind.sp),
        bp: overwritten_from(op, Reg::BP, behind.bp),
    }
}

// Whether an operation leaves everything as it was.
fn changes_nothing(op: Op) -> bool
    ensures { result ≡ changes_nothing op }
{
    match op {
        Op::Mov(r, v) => is_register(v, r),
        Op::Add(_, v) | Op::Sub(_, v) => is_zero(v),
        _ => false,
    }
}

// Whether an operation does nothing but set a register of which this is true.
fn sets_only(set: &Overwritten, op: Op) -> bool
    ensures { result ≡ sets_only (at set.now) op }
{
    match op {
        Op::Mov(r, _) | Op::Add(r, _) | Op::Sub(r, _) | Op::Load(r, _) | Op::Set(_, r, _) => {
            set.get(r)
        }
        _ => false,
    }
}

// Whether an operation is dropped, which others may follow.
fn is_dropped(op: Op, is_followed: bool, overwritten: &Overwritten) -> bool
    ensures { result ≡ (is_followed && (changes_nothing op || sets_only (at overwritten.now) op)) }
{
    is_followed && (changes_nothing(op) || sets_only(overwritten, op))
}

/// The operations of a block that make a difference. It fails where memory runs out.
pub fn trim(alloc: Global, ops: &[Op]) -> Result<Vec<Op>, AllocError>
    ensures { IfOk result (λ kept. kept.items ≡ trimmed ops.now) }
{
    let mut kept = Vec::new(alloc);
    let mut overwritten = ByRegister::all(false);
    for k in (0..ops.len()).rev() {
        let op = ops[k];
        if !is_dropped(op, k + 1 < ops.len(), &overwritten) {
            overwritten = all_overwritten_from(op, &overwritten);
            kept.push(op)?;
        }
    }
    kept.reverse();
    Ok(kept)
}
