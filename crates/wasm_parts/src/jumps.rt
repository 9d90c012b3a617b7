// Where the blocks of some code go on.

ghost use Rattle.std.specs.Prelude.{◌≡◌, ◌+◌, ◌<◌, ◌≤◌, ◌^◌, length, drop, IfOk, OnOk};
ghost use Rattle.wasm_parts.specs.Jumps.{IsTable, enclosing};

use crate::stack::{Room, Stack};
use std::alloc::{AllocError, Global};
use wasm_bin::Instr;

/// The places where a block goes on.
#[derive(Clone, Copy)]
pub struct Jump {
    /// Behind its `end`.
    pub past: usize,
    /// Behind its `else`, or at its `end` where it has none.
    pub other: usize,
}

/// From the blocks that enclose what follows an instruction to those that enclose the instruction.
fn enclose(
    blocks: &mut Stack<Jump>,
    instr: &Instr,
    place: usize,
    last: Jump,
) -> Result<(), AllocError>
    requires { place + 1 < 2 ^ 64 }
    ensures { OnOk result (blocks.new ≡ enclosing instr.now place last blocks.old) }
{
    match instr {
        Instr::Block(_) => blocks.drop_top(1),
        Instr::Loop(_) => blocks.drop_top(1),
        Instr::If(_) => blocks.drop_top(1),
        Instr::Else => {
            let past = blocks.get(0).unwrap_or(last).past;
            let other = place + 1;
            blocks.put(Room::Grown, 1, Jump { past, other })?;
        }
        Instr::End => {
            let past = place + 1;
            let other = place;
            blocks.push(Room::Grown, Jump { past, other })?;
        }
        _ => {}
    }
    Ok(())
}

/// The places where the block goes on that begins at each place of the code.
pub fn jumps_of(alloc: Global, code: &[Instr]) -> Result<Vec<Jump>, AllocError>
    ensures table { IfOk result (λ jumps. IsTable code.now jumps.items) }
    ensures len { IfOk result (λ jumps. length jumps.items ≡ length code.now) }
{
    let last = Jump {
        past: code.len(),
        other: code.len(),
    };
    let mut jumps = Vec::new(alloc);
    jumps.resize(code.len(), last)?;
    let mut blocks: Stack<Jump> = Stack::new(alloc);
    for place in (0..code.len()).rev() {
        jumps[place] = blocks.get(0).unwrap_or(last);
        enclose(&mut blocks, &code[place], place, last)?;
    }
    Ok(jumps)
}
