// The code of operations.
#![tactic(auto, using(crate::proofs::Texts::texts))]

ghost use Rattle.std.specs.Prelude.{◌≡◌, ◌+◌, ◌*◌, ◌<◌, ◌≤◌, ◌^◌, ◌++◌, ◌∷◌, [], pos, OnOk};
ghost use Rattle.eir_core.specs.declared.ops.Operand.TheVariants.{Reg as register};
ghost use Rattle.eir_core.specs.declared.ops.Op.TheVariants.{Jump, JumpIf};
ghost use Rattle.ws_lang.specs.Instruction.{Push, Add, Subtract, Divide, Modulo, Store, Retrieve};
ghost use Rattle.ws_back.specs.Code.{address, wanted, push_modulus, goal_label, value_code, reaches_code, at_least_code, above_code, flag_code, negated, target_code, target_label, op_code};
ghost use Rattle.ws_back.specs.Text.{text_of};
ghost use Rattle.ws_back.specs.Commands.{label_number, label_of, instruction_of, IsWritable};

use crate::command::{Command, Place};
use crate::text::Text;
use eir_core::{Cond, Op, Operand, Reg};
use std::alloc::AllocError;

/// The number of words.
const MODULUS: u32 = 16777216;

/// The address of the number of the block that is looked up.
const WANTED: i64 = -7;

// The address of a register's word.
fn address(r: Reg) -> i64
    ensures { result ≡ address r }
{
    match r {
        Reg::A => -1,
        Reg::B => -2,
        Reg::C => -3,
        Reg::D => -4,
        Reg::SP => -5,
        Reg::BP => -6,
    }
}

// The comparison that holds where this one doesn't.
fn negated(test: Cond) -> Cond
    ensures { result ≡ negated test }
{
    match test {
        Cond::Eq => Cond::Ne,
        Cond::Ne => Cond::Eq,
        Cond::Lt => Cond::Ge,
        Cond::Gt => Cond::Le,
        Cond::Le => Cond::Gt,
        Cond::Ge => Cond::Lt,
    }
}

/// The place of a block, of so many, or else the end.
pub fn goal(count: u32, k: u32) -> Place
    ensures label { label_of result ≡ goal_label count k }
    ensures number { label_number result < 2 * count + 2 }
{
    if k < count {
        Place::Block(k)
    } else {
        Place::End
    }
}

// Where a jump leads.
fn target_place(count: u32, target: Operand) -> Place
    ensures label { label_of result ≡ target_label count target }
    ensures number { label_number result < 2 * count + 2 }
{
    match target {
        Operand::Reg(_) => Place::Dispatch,
        Operand::Imm(w) => goal(count, w.get()),
    }
}

// Pushes the address of a register's word.
fn put_address(text: &mut Text, r: Reg) -> Result<(), AllocError>
    ensures { OnOk result (text.new.bytes.items ≡ text.old.bytes.items ++ text_of (Push (address r) ∷ [])) }
{
    text.put(Command::Push(address(r)))
}

// Pushes the word of an operand.
fn put_value(text: &mut Text, v: Operand) -> Result<(), AllocError>
    ensures { OnOk result (text.new.bytes.items ≡ text.old.bytes.items ++ text_of (value_code v)) }
{
    match v {
        Operand::Reg(r) => {
            put_address(text, r)?;
            text.put(Command::Retrieve)
        }
        Operand::Imm(w) => text.put(Command::Push(i64::from(w.get()))),
    }
}

// Pushes the word of an operand plus a number.
fn put_sum(text: &mut Text, x: Operand, n: u32) -> Result<(), AllocError>
    requires { n ≤ 2 ^ 24 }
    ensures { OnOk result (text.new.bytes.items ≡ text.old.bytes.items ++ text_of (value_code x ++ Push (pos n) ∷ Add ∷ [])) }
{
    put_value(text, x)?;
    text.put(Command::Push(i64::from(n)))?;
    text.put(Command::Add)
}

// How often 2^24 goes into the difference.
fn put_quotient(text: &mut Text) -> Result<(), AllocError>
    ensures { OnOk result (text.new.bytes.items ≡ text.old.bytes.items ++ text_of (Subtract ∷ push_modulus ∷ Divide ∷ [])) }
{
    text.put(Command::Subtract)?;
    text.put(Command::Push(i64::from(MODULUS)))?;
    text.put(Command::Divide)
}

// Pushes 1 if the first word plus a number is at least 2^24 above the second, else 0.
fn put_reaches(text: &mut Text, n: u32, x: Operand, y: Operand) -> Result<(), AllocError>
    requires { n ≤ 2 ^ 24 }
    ensures { OnOk result (text.new.bytes.items ≡ text.old.bytes.items ++ text_of (reaches_code n x y)) }
{
    put_sum(text, x, n)?;
    put_value(text, y)?;
    put_quotient(text)
}

// Pushes 1 if a comparison holds, else 0.
fn put_flag(text: &mut Text, test: Cond, x: Operand, y: Operand) -> Result<(), AllocError>
    ensures { OnOk result (text.new.bytes.items ≡ text.old.bytes.items ++ text_of (flag_code test x y)) }
{
    match test {
        Cond::Eq => {
            put_reaches(text, MODULUS, x, y)?;
            put_reaches(text, MODULUS, y, x)?;
            text.put(Command::Multiply)
        }
        Cond::Ne => {
            put_reaches(text, MODULUS - 1, x, y)?;
            put_reaches(text, MODULUS - 1, y, x)?;
            text.put(Command::Add)
        }
        Cond::Lt => put_reaches(text, MODULUS - 1, y, x),
        Cond::Gt => put_reaches(text, MODULUS - 1, x, y),
        Cond::Le => put_reaches(text, MODULUS, y, x),
        Cond::Ge => put_reaches(text, MODULUS, x, y),
    }
}

// Pushes the address of a register's word, that word and the word of an operand.
fn put_operands(text: &mut Text, r: Reg, v: Operand) -> Result<(), AllocError>
    ensures { OnOk result (text.new.bytes.items ≡ text.old.bytes.items ++ text_of (Push (address r) ∷ (value_code (register r) ++ value_code v))) }
{
    put_address(text, r)?;
    put_value(text, Operand::Reg(r))?;
    put_value(text, v)
}

// Stores a number modulo 2^24.
fn put_wrapped(text: &mut Text) -> Result<(), AllocError>
    ensures { OnOk result (text.new.bytes.items ≡ text.old.bytes.items ++ text_of (push_modulus ∷ Modulo ∷ Store ∷ [])) }
{
    text.put(Command::Push(i64::from(MODULUS)))?;
    text.put(Command::Modulo)?;
    text.put(Command::Store)
}

// A register and a word make a new word of the register, modulo 2^24.
fn put_arithmetic(text: &mut Text, r: Reg, v: Operand, command: Command) -> Result<(), AllocError>
    requires { IsWritable command }
    ensures { OnOk result (text.new.bytes.items ≡ text.old.bytes.items
        ++ text_of (Push (address r) ∷ (value_code (register r) ++ (value_code v ++ instruction_of command ∷ push_modulus ∷ Modulo ∷ Store ∷ [])))) }
{
    put_operands(text, r, v)?;
    text.put(command)?;
    put_wrapped(text)
}

// The word at an address becomes that of a register.
fn put_load(text: &mut Text, r: Reg, v: Operand) -> Result<(), AllocError>
    ensures { OnOk result (text.new.bytes.items ≡ text.old.bytes.items ++ text_of (Push (address r) ∷ (value_code v ++ Retrieve ∷ Store ∷ []))) }
{
    put_address(text, r)?;
    put_value(text, v)?;
    text.put(Command::Retrieve)?;
    text.put(Command::Store)
}

/// Pushes the number of the block that is wanted.
pub fn put_wanted(text: &mut Text) -> Result<(), AllocError>
    ensures { OnOk result (text.new.bytes.items ≡ text.old.bytes.items ++ text_of (Push wanted ∷ Retrieve ∷ [])) }
{
    text.put(Command::Push(WANTED))?;
    text.put(Command::Retrieve)
}

// Stores the number of the block that is wanted, where a register has it.
fn put_target(text: &mut Text, target: Operand) -> Result<(), AllocError>
    ensures { OnOk result (text.new.bytes.items ≡ text.old.bytes.items ++ text_of (target_code target)) }
{
    match target {
        Operand::Reg(_) => {
            text.put(Command::Push(WANTED))?;
            put_value(text, target)?;
            text.put(Command::Store)
        }
        Operand::Imm(_) => Ok(()),
    }
}

// Goes to the block of a number.
fn put_jump(text: &mut Text, count: u32, target: Operand) -> Result<(), AllocError>
    requires { count ≤ 2 ^ 21 }
    ensures { OnOk result (text.new.bytes.items ≡ text.old.bytes.items ++ text_of (op_code count (Jump target))) }
{
    put_target(text, target)?;
    text.put(Command::Jump(target_place(count, target)))
}

// Goes to the block of a number where a comparison holds.
fn put_jump_if(
    text: &mut Text,
    count: u32,
    test: Cond,
    target: Operand,
    r: Reg,
    v: Operand,
) -> Result<(), AllocError>
    requires { count ≤ 2 ^ 21 }
    ensures { OnOk result (text.new.bytes.items ≡ text.old.bytes.items ++ text_of (op_code count (JumpIf test target r v))) }
{
    put_target(text, target)?;
    put_flag(text, negated(test), Operand::Reg(r), v)?;
    text.put(Command::JumpIfZero(target_place(count, target)))
}

/// The code of an operation, in a program of so many blocks.
pub fn put_op(text: &mut Text, count: u32, op: Op) -> Result<(), AllocError>
    requires { count ≤ 2 ^ 21 }
    ensures { OnOk result (text.new.bytes.items ≡ text.old.bytes.items ++ text_of (op_code count op)) }
{
    match op {
        Op::Mov(r, v) => {
            put_address(text, r)?;
            put_value(text, v)?;
            text.put(Command::Store)
        }
        Op::Add(r, v) => put_arithmetic(text, r, v, Command::Add),
        Op::Sub(r, v) => put_arithmetic(text, r, v, Command::Subtract),
        Op::Load(r, v) => put_load(text, r, v),
        Op::Store(r, v) => {
            put_value(text, v)?;
            put_value(text, Operand::Reg(r))?;
            text.put(Command::Store)
        }
        Op::Set(test, r, v) => {
            put_address(text, r)?;
            put_flag(text, test, Operand::Reg(r), v)?;
            text.put(Command::Store)
        }
        Op::Putc(v) => {
            put_value(text, v)?;
            text.put(Command::WriteCharacter)
        }
        Op::Getc(r) => {
            put_address(text, r)?;
            text.put(Command::ReadCharacter)
        }
        Op::Exit => text.put(Command::Jump(Place::End)),
        Op::Jump(target) => put_jump(text, count, target),
        Op::JumpIf(test, target, r, v) => put_jump_if(text, count, test, target, r, v),
    }
}
