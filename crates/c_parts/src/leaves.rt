// What `break` and `continue` leave.

ghost use Rattle.std.specs.Prelude.{◌≡◌};
ghost use Rattle.c_plain.specs.Calls.{broken_off, continued};
ghost use Rattle.c_parts.specs.Parts.{machine_of, ComesQuietly};

use crate::calls::resume;
use crate::halt::Halt;
use crate::opened::Open;
use crate::parts::Parts;
use c_store::{Act, Value};
use std::alloc::AllocError;

/// A `break` leaves the blocks in the innermost loop or `switch`, and goes past it; outside of all it leaves the function.
pub fn break_off(parts: &mut Parts) -> Result<(), Halt>
    ensures { ComesQuietly (machine_of parts.old) (machine_of parts.new) result (broken_off (machine_of parts.old).opened (machine_of parts.old)) }
{
    match parts.values.push(Value::Missing) {
        Ok(()) => {}
        Err(AllocError) => return Err(Halt::Memory),
    }
    while let Some(open) = parts.opened.pop() {
        match open {
            Open::Block(block) => {
                parts.store.leave(block.first);
                parts.slots.keep(block.slots);
            }
            Open::Loop(turn) => {
                parts.values.drop_many(1);
                parts.at = turn.past;
                return Ok(());
            }
            Open::Switch(past) => {
                parts.values.drop_many(1);
                parts.at = past;
                return Ok(());
            }
            Open::Call(caller) => {
                resume(parts, caller, Value::Missing);
                return Ok(());
            }
        }
    }
    Err(Halt::Act(Act::HelperLimit))
}

/// A `continue` leaves the blocks in the innermost loop, and goes on with it; it passes over a `switch`.
pub fn continue_on(parts: &mut Parts) -> Result<(), Halt>
    ensures { ComesQuietly (machine_of parts.old) (machine_of parts.new) result (continued (machine_of parts.old).opened (machine_of parts.old)) }
{
    match parts.values.push(Value::Missing) {
        Ok(()) => {}
        Err(AllocError) => return Err(Halt::Memory),
    }
    while let Some(open) = parts.opened.top() {
        match open {
            Open::Loop(turn) => {
                parts.values.drop_many(1);
                parts.at = turn.again;
                return Ok(());
            }
            Open::Block(block) => {
                parts.opened.drop_top();
                parts.store.leave(block.first);
                parts.slots.keep(block.slots);
            }
            Open::Switch(_) => parts.opened.drop_top(),
            Open::Call(caller) => {
                parts.opened.drop_top();
                resume(parts, caller, Value::Missing);
                return Ok(());
            }
        }
    }
    Err(Halt::Act(Act::HelperLimit))
}
