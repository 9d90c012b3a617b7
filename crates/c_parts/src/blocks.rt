// Instructions on blocks, loops and jumps.

ghost use Rattle.std.specs.Prelude.{◌≡◌, ◌∷◌, ◌<◌, ◌^◌, ◌+◌, ◌-◌, suc, ◌==◌, if◌then◌else◌};
ghost use Rattle.word24.specs.Word.{number_of};
ghost use Rattle.c_store.specs.Words.{is_true};
ghost use Rattle.c_plain.specs.Machine.{Loop, Switch, quiet, unless_act, onward, with_values, on_top, paid};
ghost use Rattle.c_plain.specs.Operators.{number_in};
ghost use Rattle.c_plain.specs.Calls.{left_block, closed};
ghost use Rattle.c_plain.specs.Rule.{entered_block};
ghost use Rattle.c_parts.specs.Parts.{machine_of, ComesQuietly};

use crate::halt::Halt;
use crate::opened::{Block, Open, Turn};
use crate::parts::Parts;
use crate::words::word_in;
use c_store::{Act, is_true};
use std::alloc::AllocError;
use word24::Word;

/// Jumps so far where the value on top isn't true.
#[inline(always)]
pub fn jump_unless(parts: &mut Parts, count: u32) -> Result<(), Halt>
    requires { parts.old.at < 2 ^ 32 }
    ensures { ComesQuietly (machine_of parts.old) (machine_of parts.new) result (on_top (machine_of parts.old).values.mine (λ v rest. quiet (record (with_values (machine_of parts.old) rest) { at = if is_true v then suc (machine_of parts.old).at else suc (machine_of parts.old).at + count }))) }
{
    let Some(v) = parts.values.pop() else {
        return Err(Halt::Act(Act::HelperLimit));
    };
    parts.at = if is_true(v) {
        parts.at + 1
    } else {
        parts.at + 1 + count as usize
    };
    Ok(())
}

/// Jumps so far.
#[inline(always)]
pub fn jump(parts: &mut Parts, count: u32) -> Result<(), Halt>
    requires { parts.old.at < 2 ^ 32 }
    ensures { ComesQuietly (machine_of parts.old) (machine_of parts.new) result (quiet (record (machine_of parts.old) { at = suc (machine_of parts.old).at + count })) }
{
    parts.at = parts.at + 1 + count as usize;
    Ok(())
}

/// Jumps back so far.
#[inline(always)]
pub fn jump_back(parts: &mut Parts, count: u32) -> Result<(), Halt>
    requires { parts.old.at < 2 ^ 32 }
    ensures { ComesQuietly (machine_of parts.old) (machine_of parts.new) result (quiet (record (machine_of parts.old) { at = suc (machine_of parts.old).at - count })) }
{
    parts.at = (parts.at + 1).saturating_sub(count as usize);
    Ok(())
}

/// Jumps so far where the value on top is a word, which is then dropped.
#[inline(always)]
pub fn jump_at(parts: &mut Parts, word: Word, count: u32) -> Result<(), Halt>
    requires { parts.old.at < 2 ^ 32 }
    ensures { ComesQuietly (machine_of parts.old) (machine_of parts.new) result (on_top (machine_of parts.old).values.mine (λ v rest. unless_act (number_in v) (λ x. quiet (if number_of word == x then record (with_values (machine_of parts.old) rest) { at = suc (machine_of parts.old).at + count } else onward (machine_of parts.old))))) }
{
    let Some(v) = parts.values.top() else {
        return Err(Halt::Act(Act::HelperLimit));
    };
    let x = match word_in(v) {
        Ok(x) => x,
        Err(act) => return Err(Halt::Act(act)),
    };
    if word.get() != x.get() {
        parts.at += 1;
        return Ok(());
    }
    parts.values.drop_many(1);
    parts.at = parts.at + 1 + count as usize;
    Ok(())
}

/// Spends a unit of fuel.
#[inline(always)]
pub fn pay(parts: &mut Parts) -> Result<(), Halt>
    requires { parts.old.at < 2 ^ 32 }
    ensures { ComesQuietly (machine_of parts.old) (machine_of parts.new) result (paid (machine_of parts.old) (λ d. quiet (onward d))) }
{
    if parts.left == 0 {
        return Err(Halt::Exhausted);
    }
    parts.left -= 1;
    parts.at += 1;
    Ok(())
}

/// Enters a block with unset objects of these lengths, which get the next slots.
#[inline(always)]
pub fn enter_block(parts: &mut Parts, lengths: &[u32]) -> Result<(), Halt>
    requires { parts.old.at < 2 ^ 32 }
    ensures { ComesQuietly (machine_of parts.old) (machine_of parts.new) result (quiet (entered_block (machine_of parts.old) lengths.now)) }
{
    let first = parts.store.next();
    let slots = parts.slots.count();
    let place = parts.store.count();
    if parts.slots.add_objects(lengths, first, place).is_err() {
        return Err(Halt::Memory);
    }
    if parts
        .opened
        .push(Open::Block(Block { first, slots }))
        .is_err()
    {
        parts.slots.keep(slots);
        return Err(Halt::Memory);
    }
    if parts.store.enter(lengths).is_err() {
        parts.slots.keep(slots);
        let _ = parts.opened.pop();
        return Err(Halt::Memory);
    }
    parts.at += 1;
    Ok(())
}

/// Leaves a block.
#[inline(always)]
pub fn leave_block(parts: &mut Parts) -> Result<(), Halt>
    requires { parts.old.at < 2 ^ 32 }
    ensures { ComesQuietly (machine_of parts.old) (machine_of parts.new) result (left_block (machine_of parts.old).opened (machine_of parts.old)) }
{
    match parts.opened.pop() {
        Some(Open::Block(block)) => {
            parts.store.leave(block.first);
            parts.slots.keep(block.slots);
            parts.at += 1;
            Ok(())
        }
        _ => Err(Halt::Act(Act::HelperLimit)),
    }
}

/// Opens a loop: so far away a `continue` and a `break` go.
#[inline(always)]
pub fn open_loop(parts: &mut Parts, again: u32, past: u32) -> Result<(), Halt>
    requires { parts.old.at < 2 ^ 32 }
    ensures { ComesQuietly (machine_of parts.old) (machine_of parts.new) result (quiet (record (machine_of parts.old) { at = suc (machine_of parts.old).at; opened = Loop (suc (machine_of parts.old).at + again) (suc (machine_of parts.old).at + past) ∷ (machine_of parts.old).opened })) }
{
    let next = parts.at + 1;
    let turn = Turn {
        again: next + again as usize,
        past: next + past as usize,
    };
    match parts.opened.push(Open::Loop(turn)) {
        Ok(()) => {
            parts.at = next;
            Ok(())
        }
        Err(AllocError) => Err(Halt::Memory),
    }
}

/// Opens a `switch`: so far away a `break` goes.
#[inline(always)]
pub fn open_switch(parts: &mut Parts, past: u32) -> Result<(), Halt>
    requires { parts.old.at < 2 ^ 32 }
    ensures { ComesQuietly (machine_of parts.old) (machine_of parts.new) result (quiet (record (machine_of parts.old) { at = suc (machine_of parts.old).at; opened = Switch (suc (machine_of parts.old).at + past) ∷ (machine_of parts.old).opened })) }
{
    let next = parts.at + 1;
    match parts.opened.push(Open::Switch(next + past as usize)) {
        Ok(()) => {
            parts.at = next;
            Ok(())
        }
        Err(AllocError) => Err(Halt::Memory),
    }
}

/// Closes a loop or a `switch`.
#[inline(always)]
pub fn done(parts: &mut Parts) -> Result<(), Halt>
    requires { parts.old.at < 2 ^ 32 }
    ensures { ComesQuietly (machine_of parts.old) (machine_of parts.new) result (quiet (record (machine_of parts.old) { at = suc (machine_of parts.old).at; opened = closed (machine_of parts.old).opened })) }
{
    parts.opened.close();
    parts.at += 1;
    Ok(())
}
