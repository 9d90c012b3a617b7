// Steps with the bytes that are held of the input and for the output, one after the other.
ghost use Rattle.std.specs.Prelude.{◌≡◌, ◌≤◌};
ghost use Rattle.mach_core.specs.Held.{StepsHeld};
ghost use Rattle.eir_core.specs.Acts.{ActsHeld};
ghost use Rattle.eir_core.specs.Registers.{regs_of};
ghost use Rattle.eir_core.specs.Step.{eir_rule};
ghost use Rattle.eir_core.specs.StateInside.{config_at};

use crate::act::{Next, make};
use crate::memory::Pages;
use crate::ops::Op;
use crate::position::Position;
use crate::program::Program;
use crate::registers::{byte_value, set_byte};
use mach_core::{Feed, Put};
use word24::Word;

// Makes an operation of a program of so many blocks, if it needs no memory, the byte that it takes is held, and there is
// room for the one that it writes. Else it says what is left to do.
#[inline(always)]
fn make_held(
    registers: &mut [Word; 6],
    memory: &mut Pages,
    op: Op,
    count: u32,
    feed: &mut Feed,
    put: &mut Put,
) -> Next
    ensures { ActsHeld op count (regs_of registers.old) memory.old (record { held = feed.old; put = put.old }) (regs_of registers.new) memory.new (record { held = feed.new; put = put.new }) result }
{
    let next = make(registers, memory, op, count);
    match next {
        Next::Take(r) if !feed.is_empty() => {
            set_byte(registers, r, feed.pop());
            Next::On
        }
        Next::Write(v) if put.room() > 0 => {
            put.hold_byte(byte_value(registers, v));
            Next::On
        }
        _ => next,
    }
}

/// Makes at most so many steps with what is held, with the position in variables of its own, and says how many. It stops
/// before a step that takes where no byte is held, that writes where there is no room, or that needs memory.
pub fn run_buffered(
    program: &Program,
    position: &mut Position,
    registers: &mut [Word; 6],
    memory: &mut Pages,
    most: u64,
    feed: &mut Feed,
    put: &mut Put,
) -> u64
    ensures few { result ≤ most }
    ensures held { StepsHeld (eir_rule program.now) (config_at position.old registers.old memory.old) (record { held = feed.old; put = put.old }) result
        (config_at position.new registers.new memory.new) (record { held = feed.new; put = put.new }) }
{
    let count = program.block_count();
    let mut block = position.block;
    let mut index = position.index as usize;
    let mut ops = program.ops(block);
    let mut made = 0;
    if index >= ops.len() {
        return 0;
    }
    'steps: while made < most {
        match make_held(registers, memory, ops[index], count, feed, put) {
            Next::On => {
                made += 1;
                index += 1;
                if index < ops.len() {
                    continue 'steps;
                }
                block += 1;
                index = 0;
                ops = program.ops(block);
                if ops.is_empty() {
                    *position = Position { block, index: 0 };
                    return made;
                }
                continue 'steps;
            }
            Next::To(to) => {
                made += 1;
                block = to;
                index = 0;
                ops = program.ops(block);
                if ops.is_empty() {
                    *position = Position { block, index: 0 };
                    return made;
                }
                continue 'steps;
            }
            Next::Take(_) | Next::Write(_) | Next::Store(..) => {
                *position = Position {
                    block,
                    index: index as u32,
                };
                return made;
            }
        }
    }
    *position = Position {
        block,
        index: index as u32,
    };
    made
}
