// Reads the instructions of a text.
ghost use Rattle.std.specs.Prelude.{◌≡◌, ◌≤◌, ◌<◌, ◌^◌, Some, OnOk, IfOk, MatchResult, IsTrue, length};
ghost use Rattle.ws_lang.specs.Instruction.{IsInRange};
ghost use Rattle.mach_core.specs.Integer.{is_in_range};
ghost use Rattle.ws_lang.specs.Decode.{bits_in, number_in, instruction_after, instruction_in};
ghost use Rattle.ws_lang.specs.Cursor.{left, Follows};
ghost use Rattle.ws_lang.specs.Reading.{NumberRefused, LabelRefused, FoundRefused};
ghost use Rattle.ws_lang.specs.OpInstruction.{instruction_of};

use crate::command::Command;
use crate::cursor::Cursor;
use crate::fault::WsFault;
use crate::instruction::Op;
use crate::number::number;
use std::alloc::Global;

// Reads a label, of an instruction that begins at `start`.
fn read_label(alloc: Global, cursor: &mut Cursor, start: u32) -> Result<Vec<bool>, WsFault>
    ensures follows { OnOk result (Follows cursor.old cursor.new) }
    ensures answer { MatchResult result (λ label. bits_in (left cursor.old) ≡ Some (label.items, left cursor.new)) (LabelRefused (left cursor.old) start) }
{
    match cursor.bits(alloc)? {
        Some(label) => Ok(label),
        None => Err(WsFault::BadForm(start)),
    }
}

// Reads a number, of an instruction that begins at `start`.
fn read_number(alloc: Global, cursor: &mut Cursor, start: u32) -> Result<i64, WsFault>
    ensures follows { OnOk result (Follows cursor.old cursor.new) }
    ensures answer { MatchResult result (λ n. (number_in (left cursor.old) ≡ Some (n, left cursor.new)) × IsTrue (is_in_range n)) (NumberRefused (left cursor.old) start) }
{
    let bits = read_label(alloc, cursor, start)?;
    let Some((negative, digits)) = bits.split_first() else {
        return Err(WsFault::BadForm(start));
    };
    match number(*negative, digits) {
        Some(n) => Ok(n),
        None => Err(WsFault::NumberRange(start)),
    }
}

// Reads the rest of an instruction that begins at `start`, after its command.
fn read_parameter(
    alloc: Global,
    cursor: &mut Cursor,
    start: u32,
    command: Command,
) -> Result<Op, WsFault>
    ensures follows { OnOk result (Follows cursor.old cursor.new) }
    ensures answer { MatchResult result (λ op. (instruction_after command (left cursor.old) ≡ Some (instruction_of op, left cursor.new)) × IsInRange (instruction_of op)) (FoundRefused (instruction_after command (left cursor.old)) start) }
{
    Ok(match command {
        Command::Push => Op::Push(read_number(alloc, cursor, start)?),
        Command::Duplicate => Op::Duplicate,
        Command::Swap => Op::Swap,
        Command::Discard => Op::Discard,
        Command::Copy => Op::Copy(read_number(alloc, cursor, start)?),
        Command::Slide => Op::Slide(read_number(alloc, cursor, start)?),
        Command::Add => Op::Add,
        Command::Subtract => Op::Subtract,
        Command::Multiply => Op::Multiply,
        Command::Divide => Op::Divide,
        Command::Modulo => Op::Modulo,
        Command::Store => Op::Store,
        Command::Retrieve => Op::Retrieve,
        Command::Mark => Op::Mark(read_label(alloc, cursor, start)?),
        Command::Call => Op::Call(read_label(alloc, cursor, start)?),
        Command::Jump => Op::Jump(read_label(alloc, cursor, start)?),
        Command::JumpIfZero => Op::JumpIfZero(read_label(alloc, cursor, start)?),
        Command::JumpIfNegative => Op::JumpIfNegative(read_label(alloc, cursor, start)?),
        Command::Return => Op::Return,
        Command::End => Op::End,
        Command::WriteCharacter => Op::WriteCharacter,
        Command::WriteNumber => Op::WriteNumber,
        Command::ReadCharacter => Op::ReadCharacter,
        Command::ReadNumber => Op::ReadNumber,
    })
}

/// Reads the instruction that begins at `start`, where the cursor stands.
pub fn read_op(alloc: Global, cursor: &mut Cursor, start: u32) -> Result<Op, WsFault>
    ensures follows { OnOk result (Follows cursor.old cursor.new) }
    ensures moves { OnOk result (cursor.old.at < cursor.new.at) }
    ensures answer { MatchResult result (λ op. (instruction_in (left cursor.old) ≡ Some (instruction_of op, left cursor.new)) × IsInRange (instruction_of op)) (FoundRefused (instruction_in (left cursor.old)) start) }
{
    match cursor.command() {
        Some(command) => read_parameter(alloc, cursor, start, command),
        None => Err(WsFault::BadForm(start)),
    }
}
