// Calls and returns.

ghost use Rattle.std.specs.Prelude.{◌≡◌, ◌∷◌, ◌<◌, ◌^◌, ◌+◌, ◌≤◌, ◌++◌, [], true, false, nat_le, length, map, take, drop, replicate, vec_len, Some, MatchOption, Err, OnOk, OnErr, IfOk, IfErr, ◌%◌};
ghost use Rattle.c_store.specs.Values.{Missing};
ghost use Rattle.c_store.specs.Words.{entered_values};
ghost use Rattle.c_store.specs.Shown.{value_of};
ghost use Rattle.c_plain.specs.Machine.{ended, on_top, paid, pushed, unless_act, wrote};
ghost use Rattle.c_plain.specs.Calls.{all_converted, most_charge, pointers_from, called, resumed, returned};
ghost use Rattle.c_plain.specs.Program.{program_of};
ghost use Rattle.c_plain.specs.Rule.{arguments_of, called_through, entry_of, with_one};
ghost use Rattle.mach_core.specs.Moved.{is_took};
ghost use Rattle.c_plain.specs.Operators.{number_in};
ghost use Rattle.c_parts.specs.Piles.{kind_at};
ghost use Rattle.c_parts.specs.Opens.{open_of};
ghost use Rattle.c_parts.specs.Parts.{machine_of, Comes, ComesQuietly, NoArgument};

use crate::halt::Halt;
use crate::opened::{Caller, Open};
use crate::parts::Parts;
use crate::words::{converted, word_in};
use c_plain::{Arguments, Entry, Plain};
use c_store::{Act, Kind, Value};
use mach_core::Moved;
use std::alloc::AllocError;

// The kind to which an argument converts; one without a kind stays.
#[inline(always)]
fn kind_at(kinds: &[Kind], index: usize) -> Kind
    ensures { result ≡ kind_at kinds.now index }
{
    match kinds.get(index) {
        Some(kind) => *kind,
        None => Kind::Number,
    }
}

// Arguments as they convert.
#[inline(always)]
fn gather(kinds: &[Kind], values: &[Value], out: &mut Vec<Value>) -> Result<(), AllocError>
    ensures { OnOk result (map value_of out.new.items ≡ all_converted kinds.now (map value_of values.now)) }
{
    out.clear();
    for (index, value) in values.iter().enumerate() {
        out.push(converted(kind_at(kinds, index), *value))?;
    }
    Ok(())
}

// The arguments on top, as they convert.
#[inline(always)]
fn gather_top(parts: &mut Parts, plain: &Plain, arguments: Arguments) -> Result<(), Halt>
    ensures same { machine_of parts.new ≡ machine_of parts.old }
    ensures ok { OnOk result (map value_of parts.new.arguments.items ≡ arguments_of (program_of plain.now) arguments (machine_of parts.old).values.mine) }
    ensures err { IfErr result (λ e. e ≡ Halt.Memory) }
{
    let kinds = plain.kinds(arguments.kinds);
    match gather(
        kinds,
        parts.values.arguments(arguments.count),
        &mut parts.arguments,
    ) {
        Ok(()) => Ok(()),
        Err(AllocError) => Err(Halt::Memory),
    }
}

// The charge with that of one call more, where it is within the limit.
#[inline(always)]
fn charge_with(charge: u32, more: u32) -> Option<u32>
    ensures { MatchOption result (nat_le (charge + more) most_charge ≡ false) (λ sum. (nat_le (charge + more) most_charge ≡ true) × (sum ≡ charge + more)) }
{
    let sum = u64::from(charge) + u64::from(more);
    if sum > 4193280 {
        return None;
    }
    Some(sum as u32)
}

// What a call opens, with slots and objects for so many of the arguments that were gathered, and so many empty slots. An error
// changes nothing.
#[inline(always)]
fn open_call(parts: &mut Parts, caller: Caller, used: usize, empty: u32) -> Result<(), AllocError>
    requires { used ≤ vec_len parts.old.arguments }
    ensures ok { OnOk result (machine_of parts.new ≡ record (machine_of parts.old) {
      slots = record { mine = pointers_from parts.old.store.next (replicate used 1) ++ replicate empty Missing; below = parts.old.slots.below ++ parts.old.slots.mine };
      opened = open_of (Open.Call caller) ∷ parts.old.opened;
      memory = entered_values (map value_of (take used parts.old.arguments.items)) parts.old.store;
    }) }
    ensures err { OnErr result (machine_of parts.new ≡ machine_of parts.old) }
{
    let number = parts.store.next();
    let place = parts.store.count();
    let base = parts.slots.callers();
    parts.opened.push(Open::Call(caller))?;
    if parts.slots.open(used, empty, number, place).is_err() {
        let _ = parts.opened.pop();
        return Err(AllocError);
    }
    if parts.store.enter_values(&parts.arguments[..used]).is_err() {
        let _ = parts.opened.pop();
        parts.slots.close(base);
        return Err(AllocError);
    }
    Ok(())
}

/// A function begins with the arguments that were gathered, in place of so many values.
#[inline(always)]
pub fn begin(parts: &mut Parts, entry: Entry, count: usize) -> Result<(), Halt>
    requires { parts.old.at < 2 ^ 32 }
    ensures { ComesQuietly (machine_of parts.old) (machine_of parts.new) result (called (machine_of parts.old) (Some entry) (drop count (machine_of parts.old).values.mine) (map value_of parts.old.arguments.items)) }
{
    let Some(charge) = charge_with(parts.charge, entry.charge) else {
        return Err(Halt::Act(Act::ChargeLimit));
    };
    let used = parts.arguments.len().min(entry.params as usize);
    let empty = entry.params - used as u32;
    let caller = Caller {
        back: parts.at + 1,
        values: parts.values.callers(),
        slots: parts.slots.callers(),
        result: entry.result,
        first: parts.store.next(),
        charge: parts.charge,
    };
    match open_call(parts, caller, used, empty) {
        Ok(()) => {}
        Err(AllocError) => return Err(Halt::Memory),
    }
    parts.values.drop_many(count);
    let _ = parts.values.open();
    parts.at = entry.at as usize;
    parts.charge = charge;
    Ok(())
}

/// The caller goes on with a result.
#[inline(always)]
pub fn resume(parts: &mut Parts, caller: Caller, v: Value)
    requires { 0 < length parts.old.values.mine }
    ensures { machine_of parts.new ≡ resumed (machine_of parts.old) caller.back caller.values caller.slots caller.result caller.first caller.charge (machine_of parts.old).opened (value_of v) }
{
    parts
        .values
        .close(caller.values, converted(caller.result, v));
    parts.slots.close(caller.slots);
    parts.store.leave(caller.first);
    parts.at = caller.back;
    parts.charge = caller.charge;
}

/// Returns the value on top.
#[inline(always)]
pub fn return_top(parts: &mut Parts) -> Result<(), Halt>
    ensures { ComesQuietly (machine_of parts.old) (machine_of parts.new) result (on_top (machine_of parts.old).values.mine (λ v rest. returned (machine_of parts.old).opened v (machine_of parts.old))) }
{
    let Some(v) = parts.values.top() else {
        return Err(Halt::Act(Act::HelperLimit));
    };
    while let Some(open) = parts.opened.pop() {
        match open {
            Open::Block(block) => parts.store.leave(block.first),
            Open::Loop(_) => {}
            Open::Switch(_) => {}
            Open::Call(caller) => {
                resume(parts, caller, v);
                return Ok(());
            }
        }
    }
    Err(Halt::Act(Act::HelperLimit))
}

// A function of a number is called with arguments, in place of so many values.
#[inline(always)]
fn call_at(
    parts: &mut Parts,
    plain: &Plain,
    function: u32,
    count: usize,
    arguments: Arguments,
) -> Result<(), Halt>
    requires { parts.old.at < 2 ^ 32 }
    ensures { ComesQuietly (machine_of parts.old) (machine_of parts.new) result (paid (machine_of parts.old) (λ d. called d (entry_of (program_of plain.now) function) (drop count (machine_of parts.old).values.mine) (arguments_of (program_of plain.now) arguments (machine_of parts.old).values.mine))) }
{
    if parts.left == 0 {
        return Err(Halt::Exhausted);
    }
    match gather_top(parts, plain, arguments) {
        Ok(()) => {}
        Err(_) => return Err(Halt::Memory),
    }
    let Some(entry) = plain.entry(function) else {
        return Err(Halt::Act(Act::OutsideObject));
    };
    begin_paid(parts, entry, count)
}

// Spends a unit, and begins.
#[inline(always)]
fn begin_paid(parts: &mut Parts, entry: Entry, count: usize) -> Result<(), Halt>
    requires here { parts.old.at < 2 ^ 32 }
    requires some { 0 < parts.old.left }
    ensures { ComesQuietly (machine_of parts.old) (machine_of parts.new) result (paid (machine_of parts.old) (λ d. called d (Some entry) (drop count (machine_of parts.old).values.mine) (map value_of parts.old.arguments.items))) }
{
    parts.left -= 1;
    match begin(parts, entry, count) {
        Ok(()) => Ok(()),
        Err(Halt::Memory) => {
            parts.left += 1;
            Err(Halt::Memory)
        }
        Err(halt) => Err(halt),
    }
}

/// Spends a unit, and calls the function of a number.
#[inline(always)]
pub fn call(
    parts: &mut Parts,
    plain: &Plain,
    function: u32,
    arguments: Arguments,
) -> Result<(), Halt>
    requires { parts.old.at < 2 ^ 32 }
    ensures { ComesQuietly (machine_of parts.old) (machine_of parts.new) result (paid (machine_of parts.old) (λ d. called d (entry_of (program_of plain.now) function) (drop arguments.count (machine_of parts.old).values.mine) (arguments_of (program_of plain.now) arguments (machine_of parts.old).values.mine))) }
{
    call_at(parts, plain, function, arguments.count as usize, arguments)
}

/// Spends a unit, and calls the function to which the value below the arguments points.
#[inline(always)]
pub fn call_through(parts: &mut Parts, plain: &Plain, arguments: Arguments) -> Result<(), Halt>
    requires { parts.old.at < 2 ^ 32 }
    ensures { ComesQuietly (machine_of parts.old) (machine_of parts.new) result (on_top (drop arguments.count (machine_of parts.old).values.mine) (λ v rest. paid (machine_of parts.old) (λ d. called_through (program_of plain.now) d v rest (arguments_of (program_of plain.now) arguments (machine_of parts.old).values.mine)))) }
{
    let Some(v) = parts.values.below(arguments.count) else {
        return Err(Halt::Act(Act::HelperLimit));
    };
    if parts.left == 0 {
        return Err(Halt::Exhausted);
    }
    match v {
        Value::Function(function) => {
            call_at(
                parts,
                plain,
                function,
                arguments.count as usize + 1,
                arguments,
            )
        }
        Value::Null => Err(Halt::Act(Act::NullCall)),
        _ => Err(Halt::Act(Act::OtherKind)),
    }
}

// The first of the arguments on top, as it converts.
#[inline(always)]
fn first_argument(parts: &mut Parts, plain: &Plain, arguments: Arguments) -> Result<Value, Halt>
    ensures same { machine_of parts.new ≡ machine_of parts.old }
    ensures value { IfOk result (λ v. arguments_of (program_of plain.now) arguments (machine_of parts.old).values.mine ≡ value_of v ∷ drop 1 (arguments_of (program_of plain.now) arguments (machine_of parts.old).values.mine)) }
    ensures err { IfErr result (λ e. NoArgument e (arguments_of (program_of plain.now) arguments (machine_of parts.old).values.mine)) }
{
    match gather_top(parts, plain, arguments) {
        Ok(()) => {}
        Err(_) => return Err(Halt::Memory),
    }
    if parts.arguments.is_empty() {
        return Err(Halt::Act(Act::OtherKind));
    }
    Ok(parts.arguments[0])
}

/// Writes the first of the arguments, which is the result.
pub fn put_character(parts: &mut Parts, plain: &Plain, arguments: Arguments) -> Result<Moved, Halt>
    requires { parts.old.at < 2 ^ 32 }
    ensures comes { Comes (machine_of parts.old) (machine_of parts.new) result (with_one (arguments_of (program_of plain.now) arguments (machine_of parts.old).values.mine) (λ v. unless_act (number_in v) (λ n. wrote (pushed (machine_of parts.old) (drop arguments.count (machine_of parts.old).values.mine) v) (n % 2 ^ 8 ∷ [])))) }
    ensures took { IfOk result (λ moved. is_took moved ≡ false) }
{
    let v = match first_argument(parts, plain, arguments) {
        Ok(v) => v,
        Err(halt) => return Err(halt),
    };
    let word = match word_in(v) {
        Ok(word) => word,
        Err(act) => return Err(Halt::Act(act)),
    };
    match parts.put(arguments.count, v) {
        Ok(()) => Ok(Moved::Wrote((word.get() % 256) as u8)),
        Err(_) => Err(Halt::Memory),
    }
}

/// Ends the run, where there is an argument, which is a word.
pub fn exit(parts: &mut Parts, plain: &Plain, arguments: Arguments) -> Halt
    ensures { Comes (machine_of parts.old) (machine_of parts.new) (Err result) (with_one (arguments_of (program_of plain.now) arguments (machine_of parts.old).values.mine) (λ v. unless_act (number_in v) (λ n. ended))) }
{
    let v = match first_argument(parts, plain, arguments) {
        Ok(v) => v,
        Err(halt) => return halt,
    };
    match word_in(v) {
        Ok(_) => Halt::Ended,
        Err(act) => Halt::Act(act),
    }
}
