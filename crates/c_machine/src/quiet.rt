// What an instruction does that neither takes nor writes.

ghost use Rattle.std.specs.Prelude.{◌≡◌, ◌<◌, ◌^◌, ℕ, true, false};
ghost use Rattle.c_plain.specs.Program.{program_of};
ghost use Rattle.c_plain.specs.Rule.{step};
ghost use Rattle.c_parts.specs.Parts.{machine_of, ComesQuietly};
ghost use Rattle.c_machine.specs.Steps.{is_quiet, is_control};

use c_parts::{Halt, Parts, assign, blocks, calls, fill, hex, leaves};
use c_plain::{Instruction, Plain};
use c_store::{Act, Value};

// Pushes a constant.
#[inline(always)]
fn push_constant(parts: &mut Parts, plain: &Plain, number: u32) -> Result<(), Halt>
    requires { parts.old.at < 2 ^ 32 }
    ensures { (byte : ℕ) → ComesQuietly (machine_of parts.old) (machine_of parts.new) result (step (program_of plain.now) byte (Instruction.Push number) (machine_of parts.old)) }
{
    match plain.constant(number) {
        Some(v) => parts.push(v),
        None => Err(Halt::Act(Act::HelperLimit)),
    }
}

// So many values on top come to stand the other way round.
#[inline(always)]
fn turn(parts: &mut Parts, plain: &Plain, count: u32) -> Result<(), Halt>
    requires { parts.old.at < 2 ^ 32 }
    ensures { (byte : ℕ) → ComesQuietly (machine_of parts.old) (machine_of parts.new) result (step (program_of plain.now) byte (Instruction.Turn count) (machine_of parts.old)) }
{
    parts.turn(count);
    Ok(())
}

// An instruction that jumps, calls, returns, or enters or leaves a block or a loop.
#[inline(always)]
fn control(parts: &mut Parts, plain: &Plain, i: Instruction) -> Result<(), Halt>
    requires here { parts.old.at < 2 ^ 32 }
    requires control { is_control i ≡ true }
    ensures { (byte : ℕ) → ComesQuietly (machine_of parts.old) (machine_of parts.new) result (step (program_of plain.now) byte i (machine_of parts.old)) }
{
    match i {
        Instruction::JumpUnless(count) => blocks::jump_unless(parts, count),
        Instruction::Jump(count) => blocks::jump(parts, count),
        Instruction::Back(count) => blocks::jump_back(parts, count),
        Instruction::JumpAt(word, count) => blocks::jump_at(parts, word, count),
        Instruction::Pay => blocks::pay(parts),
        Instruction::Call(function, arguments) => calls::call(parts, plain, function, arguments),
        Instruction::CallThrough(arguments) => calls::call_through(parts, plain, arguments),
        Instruction::Return => calls::return_top(parts),
        Instruction::Enter(lengths) => blocks::enter_block(parts, plain.lengths(lengths)),
        Instruction::Leave => blocks::leave_block(parts),
        Instruction::Loop(again, past) => blocks::open_loop(parts, again, past),
        Instruction::Switch(past) => blocks::open_switch(parts, past),
        Instruction::Done => blocks::done(parts),
        Instruction::Break => leaves::break_off(parts),
        Instruction::Continue => leaves::continue_on(parts),
        Instruction::End => Err(Halt::Ended),
        _ => unreachable!(),
    }
}

/// An instruction that neither takes nor writes.
#[inline(always)]
pub fn quiet_step(parts: &mut Parts, plain: &Plain, i: Instruction) -> Result<(), Halt>
    requires here { parts.old.at < 2 ^ 32 }
    requires quiet { is_quiet i ≡ true }
    ensures { (byte : ℕ) → ComesQuietly (machine_of parts.old) (machine_of parts.new) result (step (program_of plain.now) byte i (machine_of parts.old)) }
{
    let literals = &plain.literals;
    match i {
        Instruction::PushWord(word) => parts.push(Value::Word(word)),
        Instruction::Push(number) => push_constant(parts, plain, number),
        Instruction::Pop => parts.pop(),
        Instruction::Slot(slot) => assign::push_slot(parts, slot),
        Instruction::Nowhere => Err(Halt::Act(Act::OutsideObject)),
        Instruction::Unary(unary) => parts.make(literals, unary),
        Instruction::Operate(operation) => parts.operate(literals, operation),
        Instruction::Step(step) => assign::step_place(parts, literals, step),
        Instruction::Assign(kind) => assign::assign(parts, literals, kind),
        Instruction::Update(kind, operation) => assign::update(parts, literals, kind, operation),
        Instruction::Hex => hex::hex(parts),
        Instruction::Turn(count) => turn(parts, plain, count),
        Instruction::Printed(count) => parts.put(count, Value::Missing),
        Instruction::Stuck => Err(Halt::Act(Act::OtherKind)),
        Instruction::First(first, kind) => assign::set_one(parts, literals, first, kind),
        Instruction::Clear(first, kinds) => fill::clear(parts, literals, first, plain.kinds(kinds)),
        Instruction::Spell(first, bytes) => fill::spell(parts, literals, first, plain.bytes(bytes)),
        _ => control(parts, plain, i),
    }
}
