// What the next instruction does.

ghost use Rattle.std.specs.Prelude.{◌≡◌, ◌<◌, ◌^◌, ℕ, true, false, cond, drop, Some};
ghost use Rattle.c_store.specs.Shown.{value_of};
ghost use Rattle.c_plain.specs.Machine.{At, quiet, pushed};
ghost use Rattle.c_plain.specs.Program.{program_of};
ghost use Rattle.c_plain.specs.Rule.{character, step, takes, takes_byte, wants_in};
ghost use Rattle.c_parts.specs.Parts.{machine_of, Comes};
ghost use Rattle.c_machine.specs.Steps.{instruction_of, is_quiet, step_fed, TakesAs};

use crate::exchange::{Exchange, exchange_of};
use crate::quiet::quiet_step;
use c_parts::{Halt, Parts, calls, output};
use c_plain::{Arguments, BuiltIn, Instruction, Plain};
use c_store::{Act, Value};
use mach_core::Moved;
use word24::Word;

// The word of a byte, or -1 where it is 0.
fn character(byte: u8) -> Value
    ensures { value_of result ≡ character byte }
{
    if byte == 0 {
        return Value::Word(Word::wrap(16777215));
    }
    Value::Word(Word::wrap(u64::from(byte)))
}

// A byte was taken: its value comes in place of so many.
fn take(parts: &mut Parts, count: u32, v: Value) -> Result<Moved, Halt>
    requires { parts.old.at < 2 ^ 32 }
    ensures comes { Comes (machine_of parts.old) (machine_of parts.new) result (quiet (pushed (machine_of parts.old) (drop count (machine_of parts.old).values.mine) (value_of v))) }
    ensures took { TakesAs result true }
{
    match parts.put(count, v) {
        Ok(()) => Ok(Moved::Took),
        Err(_) => Err(Halt::Memory),
    }
}

// A function that is always known.
fn built_in(
    parts: &mut Parts,
    plain: &Plain,
    fed: u8,
    function: BuiltIn,
    arguments: Arguments,
) -> Result<Moved, Halt>
    requires { parts.old.at < 2 ^ 32 }
    ensures comes { Comes (machine_of parts.old) (machine_of parts.new) result (step (program_of plain.now) (cond (takes_byte function) fed 0) (Instruction.BuiltIn function arguments) (machine_of parts.old)) }
    ensures took { TakesAs result (takes_byte function) }
{
    match function {
        BuiltIn::GetChar => take(parts, arguments.count, character(fed)),
        BuiltIn::GetByte => {
            let byte = Value::Word(Word::wrap(u64::from(fed)));
            take(parts, arguments.count, byte)
        }
        BuiltIn::PutChar => calls::put_character(parts, plain, arguments),
        BuiltIn::Exit => Err(calls::exit(parts, plain, arguments)),
        BuiltIn::Other => Err(Halt::Act(Act::OtherKind)),
    }
}

// Writes a byte.
fn put(parts: &mut Parts, plain: &Plain, byte: u8) -> Result<Moved, Halt>
    requires { parts.old.at < 2 ^ 32 }
    ensures comes { Comes (machine_of parts.old) (machine_of parts.new) result (step (program_of plain.now) 0 (Instruction.Put byte) (machine_of parts.old)) }
    ensures took { TakesAs result false }
{
    parts.at += 1;
    Ok(Moved::Wrote(byte))
}

// An instruction that may take a byte, which is then this one, or write.
#[inline(never)]
fn exchange(parts: &mut Parts, plain: &Plain, fed: u8, x: Exchange) -> Result<Moved, Halt>
    requires { parts.old.at < 2 ^ 32 }
    ensures comes { Comes (machine_of parts.old) (machine_of parts.new) result (step (program_of plain.now) (cond (takes (Some (instruction_of x))) fed 0) (instruction_of x) (machine_of parts.old)) }
    ensures took { TakesAs result (takes (Some (instruction_of x))) }
{
    match x {
        Exchange::BuiltIn(function, arguments) => built_in(parts, plain, fed, function, arguments),
        Exchange::Put(byte) => put(parts, plain, byte),
        Exchange::Decimal => output::decimal(parts),
        Exchange::Unsigned => output::unsigned(parts),
        Exchange::Character => output::character(parts),
        Exchange::Digits => output::digit(parts),
        Exchange::Text => output::letter(parts, &plain.literals),
    }
}

// An instruction that neither takes nor writes.
fn quietly(parts: &mut Parts, plain: &Plain, i: Instruction) -> Result<Moved, Halt>
    requires here { parts.old.at < 2 ^ 32 }
    requires quiet { is_quiet i ≡ true }
    ensures comes { (byte : ℕ) → Comes (machine_of parts.old) (machine_of parts.new) result (step (program_of plain.now) byte i (machine_of parts.old)) }
    ensures took { TakesAs result (takes (Some i)) }
{
    match quiet_step(parts, plain, i) {
        Ok(()) => Ok(Moved::Quiet),
        Err(halt) => Err(halt),
    }
}

/// The next instruction, which is fed a byte. Where memory is wanted nothing is done.
pub fn execute(parts: &mut Parts, plain: &Plain, fed: u8) -> Result<Moved, Halt>
    ensures comes { Comes (machine_of parts.old) (machine_of parts.new) result (step_fed (program_of plain.now) fed (machine_of parts.old)) }
    ensures took { TakesAs result (wants_in (program_of plain.now) (At (machine_of parts.old))) }
{
    let Some(i) = plain.instruction(parts.at) else {
        return Err(Halt::Act(Act::HelperLimit));
    };
    match exchange_of(i) {
        Some(x) => exchange(parts, plain, fed, x),
        None => quietly(parts, plain, i),
    }
}
