// The code of a program on its way to a sink.
ghost use Rattle.std.specs.Prelude.{◌≡◌, ◌+◌, ◌<◌, ◌≤◌, ◌^◌, ◌++◌, ◌∷◌, length};
ghost use Rattle.eir_core.specs.Eir.{size_of};
ghost use Rattle.sim_trait.specs.Digits.{digit_count};
ghost use Rattle.ws_lang.specs.Instruction.{Mark};
ghost use Rattle.ws_back.specs.Code.{block_label, words_code, tree_code, dispatch_code, ops_code, blocks_code, end_code, code_of};
ghost use Rattle.ws_back.specs.Pieces.{IsCodeHanded};

use crate::code::goal;
use crate::command::{Command, Place};
use crate::piece::{Piece, put_piece};
use eir_core::{Op, Program};
use mach_core::{Put, Sink};
use sim_trait::EmitFault;
use std::alloc::Global;
use word24::Word;

// Stores the data words.
fn put_words<O: Sink>(
    alloc: Global,
    words: &[Word],
    put: &mut Put,
    out: &mut O,
) -> Result<(), EmitFault>
    requires { length words.now ≤ 2 ^ 21 }
    ensures handed { IsCodeHanded O.got O.faults out.old out.new put.old put.new (words_code 0 words.now) result }
    ensures later { O.faults out.old ≤ O.faults out.new }
{
    for (a, word) in words.iter().enumerate() {
        put_piece(alloc, 0, Piece::Word(a as u32, *word), put, out)?;
    }
    Ok(())
}

// The number of binary digits of a number, and 0 for 0.
fn digit_count(n: u32) -> u32
    ensures { result ≡ digit_count n }
{
    u32::BITS - n.leading_zeros()
}

// The tree that leads to the wanted block of so many, one of the 2^depth numbers from a number on.
fn put_tree<O: Sink>(
    alloc: Global,
    count: u32,
    depth: u32,
    low: u32,
    put: &mut Put,
    out: &mut O,
) -> Result<(), EmitFault>
    requires count { count ≤ 2 ^ 21 }
    requires depth { depth ≤ 22 }
    requires low { low ≤ count }
    ensures handed { IsCodeHanded O.got O.faults out.old out.new put.old put.new (tree_code count depth low) result }
    ensures later { O.faults out.old ≤ O.faults out.new }
{
    if depth == 0 {
        let jump = Command::Jump(goal(count, low));
        return put_piece(alloc, count, Piece::Command(jump), put, out);
    }
    let middle = low + (1 << (depth - 1));
    if middle > count {
        return put_tree(alloc, count, depth - 1, low, put, out);
    }
    put_piece(alloc, count, Piece::Branch(middle), put, out)?;
    put_tree(alloc, count, depth - 1, middle, put, out)?;
    let mark = Command::Mark(Place::Branch(middle));
    put_piece(alloc, count, Piece::Command(mark), put, out)?;
    put_tree(alloc, count, depth - 1, low, put, out)
}

// The operations of a block, in a program of so many blocks.
fn put_ops<O: Sink>(
    alloc: Global,
    count: u32,
    ops: &[Op],
    put: &mut Put,
    out: &mut O,
) -> Result<(), EmitFault>
    requires { count ≤ 2 ^ 21 }
    ensures handed { IsCodeHanded O.got O.faults out.old out.new put.old put.new (ops_code count ops.now) result }
    ensures later { O.faults out.old ≤ O.faults out.new }
{
    for op in ops {
        put_piece(alloc, count, Piece::Op(*op), put, out)?;
    }
    Ok(())
}

// A block of a program of so many, with its mark.
fn put_block<O: Sink>(
    alloc: Global,
    count: u32,
    k: u32,
    ops: &[Op],
    put: &mut Put,
    out: &mut O,
) -> Result<(), EmitFault>
    requires count { count ≤ 2 ^ 21 }
    requires block { k < count }
    ensures handed { IsCodeHanded O.got O.faults out.old out.new put.old put.new (Mark (block_label k) ∷ ops_code count ops.now) result }
    ensures later { O.faults out.old ≤ O.faults out.new }
{
    let mark = Command::Mark(Place::Block(k));
    put_piece(alloc, count, Piece::Command(mark), put, out)?;
    put_ops(alloc, count, ops, put, out)
}

// The blocks of a program.
fn put_blocks<O: Sink>(
    alloc: Global,
    p: &Program,
    put: &mut Put,
    out: &mut O,
) -> Result<(), EmitFault>
    ensures handed { IsCodeHanded O.got O.faults out.old out.new put.old put.new (blocks_code (length p.now.blocks) 0 p.now.blocks) result }
    ensures later { O.faults out.old ≤ O.faults out.new }
{
    let count = p.block_count();
    for k in 0..count {
        let Some(ops) = p.block(k) else {
            unreachable!()
        };
        put_block(alloc, count, k, ops, put, out)?;
    }
    Ok(())
}

// The dispatch, which leads to the wanted block of so many, or else to the end.
fn put_dispatch<O: Sink>(
    alloc: Global,
    count: u32,
    put: &mut Put,
    out: &mut O,
) -> Result<(), EmitFault>
    requires { count ≤ 2 ^ 21 }
    ensures handed { IsCodeHanded O.got O.faults out.old out.new put.old put.new (dispatch_code count) result }
    ensures later { O.faults out.old ≤ O.faults out.new }
{
    let mark = Command::Mark(Place::Dispatch);
    put_piece(alloc, count, Piece::Command(mark), put, out)?;
    put_tree(alloc, count, digit_count(count), 0, put, out)
}

// The end of the code.
fn put_end<O: Sink>(alloc: Global, count: u32, put: &mut Put, out: &mut O) -> Result<(), EmitFault>
    requires { count ≤ 2 ^ 21 }
    ensures handed { IsCodeHanded O.got O.faults out.old out.new put.old put.new end_code result }
    ensures later { O.faults out.old ≤ O.faults out.new }
{
    let mark = Command::Mark(Place::End);
    put_piece(alloc, count, Piece::Command(mark), put, out)?;
    put_piece(alloc, count, Piece::Command(Command::End), put, out)
}

/// The whole code of a program.
pub fn put_code<O: Sink>(
    alloc: Global,
    p: &Program,
    put: &mut Put,
    out: &mut O,
) -> Result<(), EmitFault>
    ensures handed { IsCodeHanded O.got O.faults out.old out.new put.old put.new (code_of p.now) result }
    ensures later { O.faults out.old ≤ O.faults out.new }
{
    let count = p.block_count();
    put_words(alloc, p.words(), put, out)?;
    let jump = Command::Jump(goal(count, p.start()));
    put_piece(alloc, count, Piece::Command(jump), put, out)?;
    put_dispatch(alloc, count, put, out)?;
    put_blocks(alloc, p, put, out)?;
    put_end(alloc, count, put, out)
}
