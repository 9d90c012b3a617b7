// Operations.
#![tactic(auto, using(crate::proofs::Codes::codes))]

ghost use Rattle.std.specs.Prelude.{◌≡◌, ◌<◌, ◌≤◌, ◌^◌, ◌++◌, ◌∷◌, [], OnOk};
ghost use Rattle.eir_core.specs.declared.ops.Operand.TheVariants.{Reg as register};
ghost use Rattle.piet_lane.specs.declared.command.Command.TheVariants.{Add, Subtract, Modulo};
ghost use Rattle.piet_stack.specs.Code.{number_code, block_lane as block_lane_of, clamp_code, target_code, choose_code, put_reg_code, value_code, place_code, op_code, second_code};

use crate::memory::{put_load, put_place, put_store};
use crate::number::{put, put_number, put_pick, put_roll, put_swap};
use crate::registers::{put_flag, put_reg, put_value};
use eir_core::{Op, Operand, Reg};
use piet_lane::Command;
use std::alloc::AllocError;

// The number of no lane.
const NO_LANE: u32 = 32767;

/// What an operation's lane has to know: how many blocks there are, the lane of what comes next, the operation's second
/// lane, and the lane that sees to the pairs. Each is below 2^15.
#[derive(Clone, Copy)]
pub struct Ways {
    pub blocks: u32,
    pub on: u32,
    pub second: u32,
    pub ensure: u32,
}

/// The lane of a block, of so many: its own number, or that of no lane.
pub fn block_lane(blocks: u32, k: u32) -> u32
    requires { blocks < 2 ^ 15 }
    ensures lane { result ≡ block_lane_of blocks k }
    ensures small { result < 2 ^ 15 }
{
    if k < blocks { k } else { NO_LANE }
}

// Puts the lane of a block in the place of its number.
fn put_clamp(code: &mut Vec<Command>, blocks: u32) -> Result<(), AllocError>
    requires { blocks < 2 ^ 15 }
    ensures { OnOk result (code.new.items ≡ code.old.items ++ clamp_code blocks) }
{
    put_number(code, blocks)?;
    put_pick(code, 1)?;
    code.extend_from_slice(&[Command::Greater, Command::Duplicate, Command::Not])?;
    put_number(code, NO_LANE)?;
    put(code, Command::Multiply)?;
    put_roll(code, 3, 1)?;
    code.extend_from_slice(&[Command::Multiply, Command::Add])
}

// Pushes the lane of the block that an operand names, with so many values above the number of pairs.
fn put_target(
    code: &mut Vec<Command>,
    blocks: u32,
    above: u32,
    target: Operand,
) -> Result<(), AllocError>
    requires blocks { blocks < 2 ^ 15 }
    requires above { above < 10 }
    ensures { OnOk result (code.new.items ≡ code.old.items ++ target_code blocks above target) }
{
    match target {
        Operand::Reg(_) => {
            put_value(code, above, target)?;
            put_clamp(code, blocks)
        }
        Operand::Imm(w) => put_number(code, block_lane(blocks, w.get())),
    }
}

// In the place of 1 the lane of the block that an operand names, and in that of 0 the lane of this number.
fn put_choose(
    code: &mut Vec<Command>,
    blocks: u32,
    on: u32,
    target: Operand,
) -> Result<(), AllocError>
    requires blocks { blocks < 2 ^ 15 }
    requires on { on < 2 ^ 15 }
    ensures { OnOk result (code.new.items ≡ code.old.items ++ choose_code blocks on target) }
{
    code.extend_from_slice(&[Command::Duplicate, Command::Not])?;
    put_number(code, on)?;
    put(code, Command::Multiply)?;
    put_swap(code)?;
    put_target(code, blocks, 2, target)?;
    code.extend_from_slice(&[Command::Multiply, Command::Add])
}

// Puts the value on top into a register, and pushes a lane.
fn put_reg_on(code: &mut Vec<Command>, r: Reg, on: u32) -> Result<(), AllocError>
    requires { on < 2 ^ 15 }
    ensures { OnOk result (code.new.items ≡ code.old.items ++ (put_reg_code r ++ number_code on)) }
{
    put_reg(code, r)?;
    put_number(code, on)
}

// Puts the number on top modulo 2^24 into a register, and pushes a lane.
fn put_wrapped(code: &mut Vec<Command>, r: Reg, on: u32) -> Result<(), AllocError>
    requires { on < 2 ^ 15 }
    ensures { OnOk result (code.new.items ≡ code.old.items ++ (number_code (2 ^ 24) ++ Modulo ∷ (put_reg_code r ++ number_code on))) }
{
    put_number(code, 16777216)?;
    put(code, Command::Modulo)?;
    put_reg_on(code, r, on)
}

// A register and a value are added.
fn put_add(code: &mut Vec<Command>, r: Reg, v: Operand, on: u32) -> Result<(), AllocError>
    requires { on < 2 ^ 15 }
    ensures { OnOk result (code.new.items ≡ code.old.items ++ (value_code 0 (register r) ++ (value_code 1 v ++ Add ∷ (number_code (2 ^ 24) ++ Modulo ∷ (put_reg_code r ++ number_code on))))) }
{
    put_value(code, 0, Operand::Reg(r))?;
    put_value(code, 1, v)?;
    put(code, Command::Add)?;
    put_wrapped(code, r, on)
}

// A value is subtracted from a register.
fn put_sub(code: &mut Vec<Command>, r: Reg, v: Operand, on: u32) -> Result<(), AllocError>
    requires { on < 2 ^ 15 }
    ensures { OnOk result (code.new.items ≡ code.old.items
        ++ (value_code 0 (register r) ++ (number_code (2 ^ 24) ++ Add ∷ (value_code 1 v ++ Subtract ∷ (number_code (2 ^ 24) ++ Modulo ∷ (put_reg_code r ++ number_code on)))))) }
{
    put_value(code, 0, Operand::Reg(r))?;
    put_number(code, 16777216)?;
    put(code, Command::Add)?;
    put_value(code, 1, v)?;
    put(code, Command::Subtract)?;
    put_wrapped(code, r, on)
}

// The place of an address, the lane that goes on with it, and the one that sees to the pairs.
fn put_access(code: &mut Vec<Command>, v: Operand, ways: Ways) -> Result<(), AllocError>
    requires second { ways.second < 2 ^ 15 }
    requires ensure { ways.ensure < 2 ^ 15 }
    ensures { OnOk result (code.new.items ≡ code.old.items ++ (value_code 0 v ++ (place_code ++ (number_code ways.second ++ number_code ways.ensure)))) }
{
    put_value(code, 0, v)?;
    put_place(code)?;
    put_number(code, ways.second)?;
    put_number(code, ways.ensure)
}

/// Appends the commands of an operation's lane.
pub fn put_op(code: &mut Vec<Command>, op: Op, ways: Ways) -> Result<(), AllocError>
    requires blocks { ways.blocks < 2 ^ 15 }
    requires on { ways.on < 2 ^ 15 }
    requires second { ways.second < 2 ^ 15 }
    requires ensure { ways.ensure < 2 ^ 15 }
    ensures { OnOk result (code.new.items ≡ code.old.items ++ op_code ways op) }
{
    match op {
        Op::Mov(r, v) => {
            put_value(code, 0, v)?;
            put_reg_on(code, r, ways.on)
        }
        Op::Add(r, v) => put_add(code, r, v, ways.on),
        Op::Sub(r, v) => put_sub(code, r, v, ways.on),
        Op::Load(_, v) | Op::Store(_, v) => put_access(code, v, ways),
        Op::Putc(v) => {
            put_value(code, 0, v)?;
            put(code, Command::OutChar)?;
            put_number(code, ways.on)
        }
        Op::Getc(r) => {
            put(code, Command::InChar)?;
            put_reg_on(code, r, ways.on)
        }
        Op::Exit => put_number(code, NO_LANE),
        Op::Set(test, r, v) => {
            put_flag(code, test, r, v)?;
            put_reg_on(code, r, ways.on)
        }
        Op::Jump(target) => put_target(code, ways.blocks, 0, target),
        Op::JumpIf(test, target, r, v) => {
            put_flag(code, test, r, v)?;
            put_choose(code, ways.blocks, ways.on, target)
        }
    }
}

/// Appends the commands of an operation's second lane, which a load or a store goes on with; that of another one is empty.
pub fn put_second(code: &mut Vec<Command>, op: Op, ways: Ways) -> Result<(), AllocError>
    requires { ways.on < 2 ^ 15 }
    ensures { OnOk result (code.new.items ≡ code.old.items ++ second_code ways op) }
{
    match op {
        Op::Load(r, _) => {
            put_load(code, r)?;
            put_number(code, ways.on)
        }
        Op::Store(r, _) => {
            put_store(code, r)?;
            put_number(code, ways.on)
        }
        _ => Ok(()),
    }
}
