// The program of code and data words, where it isn't too large.

ghost use Rattle.std.specs.Prelude.{◌≡◌, ◌+◌, ◌≤◌, ◌^◌, nat_lt, length, if◌then◌else◌, IfOk};
ghost use Rattle.eir_core.specs.Eir;
ghost use Rattle.c_place.specs.Code.{jumps, IsClosed};
ghost use Rattle.c_place.specs.Code as code;
ghost use Rattle.c_lower_sizes.specs.Sized.{IsSized};

use c_place::{cut_is_program, is_jump, program};
use eir_core::{Op, Program};
use std::alloc::{AllocError, Global};
use word24::Word;

// How many jumps an operation is.
fn jumps_of(op: &Op) -> usize
    ensures { result ≡ (if Eir.is_jump op.now then 1 else 0) }
{
    if is_jump(op) { 1 } else { 0 }
}

// How many jumps there are.
fn jumps_in(ops: &[Op]) -> usize
    ensures jumps { result ≡ jumps ops.now }
    ensures most { result ≤ length ops.now }
{
    let mut count = 0;
    for op in ops {
        count += jumps_of(op);
    }
    count
}

// Whether the jumps, the operations and the words are together more than a room.
fn is_larger(ops: &[Op], words: &[Word], room: usize) -> bool
    requires { room ≤ 2 ^ 21 }
    ensures { result ≡ nat_lt room (jumps ops.now + length ops.now + length words.now) }
{
    if ops.len() > room {
        return true;
    }
    if words.len() > room {
        return true;
    }
    let size = jumps_in(ops) + ops.len() + words.len();
    size > room
}

/// The program of closed code and data words, if its size is at most a room; none if it is larger.
pub fn sized(
    alloc: Global,
    ops: &[Op],
    words: Vec<Word>,
    room: usize,
) -> Result<Option<Program>, AllocError>
    requires closed { IsClosed ops.now }
    requires room { room ≤ 2 ^ 21 }
    ensures { IfOk result (λ p. IsSized room (code.program ops.now words.items) p) }
{
    cut_is_program();
    let larger = is_larger(ops, words.as_slice(), room);
    if larger {
        return Ok(None);
    }
    let made = program(alloc, ops, words)?;
    Ok(Some(made))
}
