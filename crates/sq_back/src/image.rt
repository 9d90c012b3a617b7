// The text of a program on its way to a sink.
ghost use Rattle.std.specs.Prelude.{◌≡◌, ◌+◌, ◌≤◌, ◌^◌, length};
ghost use Rattle.eir_core.specs.Eir.{IsEir, size_of};
ghost use Rattle.sq_back.specs.Code.{ops_cells, ops_lines, blocks_cells, blocks_lines, blocks_start, memory_start, rows_lines, first_lines};
ghost use Rattle.sq_back.specs.Putting.{PutsBytes, PutsLines};
ghost use Rattle.sq_back.specs.Text.{text_of};

use crate::act::{Site, put_op};
use crate::cells::row_place;
use crate::first::{find_lines, head_lines, load_lines, store_lines};
use crate::line::go;
use crate::op::{op_cells, ops_cells, place_after};
use crate::put::{put_groups, put_line, put_words};
use eir_core::{Op, Program};
use mach_core::{Failed, Put, Sink};

// How many cells the blocks have.
fn blocks_cells(p: &Program) -> u32
    requires { size_of p.now ≤ 2 ^ 16 }
    ensures { result ≡ blocks_cells p.now.blocks }
{
    let mut cells = 0;
    for k in 0..p.block_count() {
        let Some(ops) = p.block(k) else {
            unreachable!()
        };
        cells += ops_cells(ops);
    }
    cells
}

// Where the blocks' lines begin.
fn blocks_start(p: &Program) -> u32
    ensures { result ≡ blocks_start p.now }
{
    row_place(p.block_count())
}

// The operations of a block, from an address on, in a program of so many blocks; then comes the block of a number.
fn put_ops<O: Sink>(
    count: u32,
    k: u32,
    at: u32,
    ops: &[Op],
    put: &mut Put,
    out: &mut O,
) -> Result<(), Failed>
    requires block { k ≤ 2 ^ 22 }
    requires room { at + ops_cells ops.now ≤ 2 ^ 22 }
    ensures { PutsLines O.got O.faults out.old out.new put.old put.new (ops_lines count k at ops.now) result }
{
    let mut here = at;
    for (i, op) in ops.iter().enumerate() {
        let behind = here + op_cells(*op);
        let place = place_after(count, k, behind, &ops[i + 1..]);
        let site = Site {
            count,
            own: here,
            place,
        };
        put_op(site, *op, put, out)?;
        here = behind;
    }
    Ok(())
}

// The blocks of a program.
fn put_blocks<O: Sink>(p: &Program, put: &mut Put, out: &mut O) -> Result<(), Failed>
    requires { size_of p.now ≤ 2 ^ 16 }
    ensures { PutsLines O.got O.faults out.old out.new put.old put.new (blocks_lines (length p.now.blocks) 0 (blocks_start p.now) p.now.blocks) result }
{
    let count = p.block_count();
    let mut at = blocks_start(p);
    for k in 0..count {
        let Some(ops) = p.block(k) else {
            unreachable!()
        };
        put_ops(count, k + 1, at, ops, put, out)?;
        at += ops_cells(ops);
    }
    Ok(())
}

// The rows of the blocks: each goes to what the block's first operation does.
fn put_rows<O: Sink>(p: &Program, put: &mut Put, out: &mut O) -> Result<(), Failed>
    requires { size_of p.now ≤ 2 ^ 16 }
    ensures { PutsLines O.got O.faults out.old out.new put.old put.new (rows_lines (blocks_start p.now) p.now.blocks) result }
{
    let mut at = blocks_start(p);
    for k in 0..p.block_count() {
        let Some(ops) = p.block(k) else {
            unreachable!()
        };
        put_line(go(i64::from(at + 3)), put, out)?;
        at += ops_cells(ops);
    }
    Ok(())
}

// What stands at the start.
fn put_first<O: Sink>(p: &Program, put: &mut Put, out: &mut O) -> Result<(), Failed>
    requires sound { IsEir p.now }
    requires size { size_of p.now ≤ 2 ^ 16 }
    ensures { PutsLines O.got O.faults out.old out.new put.old put.new (first_lines p.now) result }
{
    let memory = blocks_start(p) + blocks_cells(p);
    let head = head_lines(p.block_count(), p.start(), memory);
    put_groups(
        &[&head, &load_lines(), &store_lines(), &find_lines()],
        put,
        out,
    )
}

/// The whole text of a program.
pub(crate) fn put_image<O: Sink>(p: &Program, put: &mut Put, out: &mut O) -> Result<(), Failed>
    requires sound { IsEir p.now }
    requires size { size_of p.now ≤ 2 ^ 16 }
    ensures { PutsBytes O.got O.faults out.old out.new put.old put.new (text_of p.now) result }
{
    put_first(p, put, out)?;
    put_rows(p, put, out)?;
    put_blocks(p, put, out)?;
    put_words(p.words(), put, out)
}
