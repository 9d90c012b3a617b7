// The code of operations.
#![tactic(auto, using(crate::proofs::Pieces::pieces))]

ghost use Rattle.std.specs.Prelude.{◌≡◌, ◌<◌, ◌≤◌, ◌^◌, ◌++◌, ◌∷◌, [], OnOk};
ghost use Rattle.wasm_bin.specs.declared.module.Instr.TheVariants.{Load, LocalGet, LocalSet, Store};
ghost use Rattle.wasm_code.specs.Emitted.{register_local, goal_local, value_code, wrapped_code, place_code, whole_word, test_code, flag_code, goal_code, op_code, ops_code};

use eir_core::{Cond, Op, Operand, Reg};
use std::alloc::AllocError;
use wasm_bin::{Instr, MemArg};

/// The local of the number of the block that a jump goes to.
pub const GOAL: u32 = 6;

/// The greatest word.
const GREATEST: i32 = 16777215;

/// An access to the four bytes of a word.
const WHOLE_WORD: MemArg = MemArg {
    align: 2,
    offset: 0,
};

/// Puts an instruction behind the others.
pub fn put(code: &mut Vec<Instr>, instr: Instr) -> Result<(), AllocError>
    ensures { OnOk result (code.new.items ≡ code.old.items ++ instr ∷ []) }
{
    code.push(instr)?;
    Ok(())
}

// The local of a register's word.
fn register_local(r: Reg) -> u32
    ensures { result ≡ register_local r }
{
    match r {
        Reg::A => 0,
        Reg::B => 1,
        Reg::C => 2,
        Reg::D => 3,
        Reg::SP => 4,
        Reg::BP => 5,
    }
}

// Pushes the word of an operand.
fn put_value(code: &mut Vec<Instr>, v: Operand) -> Result<(), AllocError>
    ensures { OnOk result (code.new.items ≡ code.old.items ++ value_code v) }
{
    match v {
        Operand::Reg(r) => put(code, Instr::LocalGet(register_local(r))),
        Operand::Imm(w) => put(code, Instr::Const(w.get() as i32)),
    }
}

// Puts the value on top into a register.
fn put_set(code: &mut Vec<Instr>, r: Reg) -> Result<(), AllocError>
    ensures { OnOk result (code.new.items ≡ code.old.items ++ LocalSet (register_local r) ∷ []) }
{
    put(code, Instr::LocalSet(register_local(r)))
}

// Turns the number on top into a word, and puts it into a register.
fn put_wrapped(code: &mut Vec<Instr>, r: Reg) -> Result<(), AllocError>
    ensures { OnOk result (code.new.items ≡ code.old.items ++ wrapped_code r) }
{
    put(code, Instr::Const(GREATEST))?;
    put(code, Instr::And)?;
    put_set(code, r)
}

// Pushes the place in memory of the word at an address.
fn put_place(code: &mut Vec<Instr>, v: Operand) -> Result<(), AllocError>
    ensures { OnOk result (code.new.items ≡ code.old.items ++ place_code v) }
{
    put_value(code, v)?;
    put(code, Instr::Const(2))?;
    put(code, Instr::Shl)
}

// The comparison of the two values on top, without sign.
fn test_code(test: Cond) -> Instr
    ensures { result ≡ test_code test }
{
    match test {
        Cond::Eq => Instr::Eq,
        Cond::Ne => Instr::Ne,
        Cond::Lt => Instr::LtU,
        Cond::Gt => Instr::GtU,
        Cond::Le => Instr::LeU,
        Cond::Ge => Instr::GeU,
    }
}

// Pushes 1 where the comparison of a register with a value holds, else 0.
fn put_flag(code: &mut Vec<Instr>, test: Cond, r: Reg, v: Operand) -> Result<(), AllocError>
    ensures { OnOk result (code.new.items ≡ code.old.items ++ flag_code test r v) }
{
    put(code, Instr::LocalGet(register_local(r)))?;
    put_value(code, v)?;
    put(code, test_code(test))
}

// Sets the number of the block to go to.
fn put_goal(code: &mut Vec<Instr>, target: Operand) -> Result<(), AllocError>
    ensures { OnOk result (code.new.items ≡ code.old.items ++ goal_code target) }
{
    put_value(code, target)?;
    put(code, Instr::LocalSet(GOAL))
}

// A register and a word make a new word of the register.
fn put_arithmetic(code: &mut Vec<Instr>, r: Reg, v: Operand, instr: Instr) -> Result<(), AllocError>
    ensures { OnOk result (code.new.items ≡ code.old.items ++ LocalGet (register_local r) ∷ (value_code v ++ instr ∷ wrapped_code r)) }
{
    put(code, Instr::LocalGet(register_local(r)))?;
    put_value(code, v)?;
    put(code, instr)?;
    put_wrapped(code, r)
}

// The word at an address becomes that of a register.
fn put_load(code: &mut Vec<Instr>, r: Reg, v: Operand) -> Result<(), AllocError>
    ensures { OnOk result (code.new.items ≡ code.old.items ++ (place_code v ++ Load whole_word ∷ LocalSet (register_local r) ∷ [])) }
{
    put_place(code, v)?;
    put(code, Instr::Load(WHOLE_WORD))?;
    put_set(code, r)
}

// The word of a register becomes that at an address.
fn put_store(code: &mut Vec<Instr>, r: Reg, v: Operand) -> Result<(), AllocError>
    ensures { OnOk result (code.new.items ≡ code.old.items ++ (place_code v ++ LocalGet (register_local r) ∷ Store whole_word ∷ [])) }
{
    put_place(code, v)?;
    put(code, Instr::LocalGet(register_local(r)))?;
    put(code, Instr::Store(WHOLE_WORD))
}

// The code of an operation, where the loop lies so many labels out.
fn put_op(code: &mut Vec<Instr>, out: u32, op: Op) -> Result<(), AllocError>
    ensures { OnOk result (code.new.items ≡ code.old.items ++ op_code out op) }
{
    match op {
        Op::Mov(r, v) => {
            put_value(code, v)?;
            put_set(code, r)
        }
        Op::Add(r, v) => put_arithmetic(code, r, v, Instr::Add),
        Op::Sub(r, v) => put_arithmetic(code, r, v, Instr::Sub),
        Op::Load(r, v) => put_load(code, r, v),
        Op::Store(r, v) => put_store(code, r, v),
        Op::Putc(v) => {
            put_value(code, v)?;
            put(code, Instr::Call(1))
        }
        Op::Getc(r) => {
            put(code, Instr::Call(0))?;
            put_set(code, r)
        }
        Op::Exit => put(code, Instr::Return),
        Op::Set(test, r, v) => {
            put_flag(code, test, r, v)?;
            put_set(code, r)
        }
        Op::Jump(target) => {
            put_goal(code, target)?;
            put(code, Instr::Br(out))
        }
        Op::JumpIf(test, target, r, v) => {
            put_goal(code, target)?;
            put_flag(code, test, r, v)?;
            put(code, Instr::BrIf(out))
        }
    }
}

/// The code of operations, one after the other, where the loop lies so many labels out.
pub fn put_ops(code: &mut Vec<Instr>, out: u32, ops: &[Op]) -> Result<(), AllocError>
    ensures { OnOk result (code.new.items ≡ code.old.items ++ ops_code out ops.now) }
{
    for op in ops {
        put_op(code, out, *op)?;
    }
    Ok(())
}
