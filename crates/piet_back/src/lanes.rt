// The lanes of a program, one after the other.
#![tactic(auto, using(crate::proofs::Lists::lists))]

ghost use Rattle.std.specs.Prelude.{◌≡◌, ◌+◌, ◌*◌, ◌<◌, ◌≤◌, ◌^◌, ◌++◌, ◌∷◌, [], map, length, OnOk, IfOk, vec_len};
ghost use Rattle.eir_core.specs.Eir.{size_of};
ghost use Rattle.piet_stack.specs.Code.{number_code, op_code, second_code, ensure_code, grow_code};
ghost use Rattle.piet_back.specs.Lanes.{layout_of as layout_by, flat, init_lane as init_lane_of, grow_lane, ensure_lane as ensure_lane_of, op_lane as op_lane_of, ways_at as ways_by, block_lanes, op_lanes, second_lanes, zero_code, init_code, data_code, data_lanes, pair_lanes, lanes_by, lanes as lanes_of};

use crate::layout::{Layout, ensure_lane, init_lane, layout_of, op_lane, ways_at};
use eir_core::{Op, Program};
use piet_lane::Command;
use piet_stack::{block_lane, put_ensure, put_grow, put_number, put_op, put_second};
use std::alloc::{AllocError, Global};
use word24::Word;

// One more lane.
fn put_lane(lanes: &mut Vec<Vec<Command>>, lane: Vec<Command>) -> Result<(), AllocError>
    ensures { OnOk result (map (λ v. v.items) lanes.new.items ≡ map (λ v. v.items) lanes.old.items ++ lane.items ∷ []) }
{
    lanes.push(lane)?;
    Ok(())
}

// A lane that pushes a number.
fn number_lane(alloc: Global, n: u32) -> Result<Vec<Command>, AllocError>
    requires { n < 2 ^ 25 }
    ensures { IfOk result (λ lane. lane.items ≡ number_code n) }
{
    let mut lane = Vec::new(alloc);
    put_number(&mut lane, n)?;
    Ok(lane)
}

// The lanes of blocks.
fn put_block_lanes(
    alloc: Global,
    g: Layout,
    p: &Program,
    lanes: &mut Vec<Vec<Command>>,
) -> Result<(), AllocError>
    requires layout { g ≡ layout_by p.now }
    requires small { size_of p.now ≤ 2 ^ 12 }
    ensures { OnOk result (map (λ v. v.items) lanes.new.items ≡ map (λ v. v.items) lanes.old.items ++ block_lanes g 0 p.now.blocks) }
{
    let mut first = 0;
    for k in 0..g.blocks {
        let Some(ops) = p.block(k) else {
            unreachable!()
        };
        put_lane(lanes, number_lane(alloc, op_lane(g, first))?)?;
        first += ops.len() as u32;
    }
    Ok(())
}

// The operations of all blocks, one after the other.
fn flattened(alloc: Global, p: &Program) -> Result<Vec<Op>, AllocError>
    ensures { IfOk result (λ ops. ops.items ≡ flat p.now.blocks) }
{
    let mut ops = Vec::new(alloc);
    for k in 0..p.block_count() {
        let Some(more) = p.block(k) else {
            unreachable!()
        };
        ops.extend_from_slice(more)?;
    }
    Ok(ops)
}

// The lane of an operation.
fn op_lane_at(alloc: Global, g: Layout, k: u32, op: Op) -> Result<Vec<Command>, AllocError>
    requires few { g.blocks + 2 * g.ops + g.words + 1 < 2 ^ 15 }
    requires below { k < g.ops }
    ensures { IfOk result (λ lane. lane.items ≡ op_code (ways_by g k) op) }
{
    let mut lane = Vec::new(alloc);
    put_op(&mut lane, op, ways_at(g, k))?;
    Ok(lane)
}

// The lanes of operations.
fn put_op_lanes(
    alloc: Global,
    g: Layout,
    ops: &[Op],
    lanes: &mut Vec<Vec<Command>>,
) -> Result<(), AllocError>
    requires few { g.blocks + 2 * g.ops + g.words + 1 < 2 ^ 15 }
    requires count { length ops.now ≡ g.ops }
    ensures { OnOk result (map (λ v. v.items) lanes.new.items ≡ map (λ v. v.items) lanes.old.items ++ op_lanes g 0 ops.now) }
{
    for k in 0..ops.len() {
        put_lane(lanes, op_lane_at(alloc, g, k as u32, ops[k])?)?;
    }
    Ok(())
}

// The second lane of an operation.
fn second_lane_at(alloc: Global, g: Layout, k: u32, op: Op) -> Result<Vec<Command>, AllocError>
    requires few { g.blocks + 2 * g.ops + g.words + 1 < 2 ^ 15 }
    requires below { k < g.ops }
    ensures { IfOk result (λ lane. lane.items ≡ second_code (ways_by g k) op) }
{
    let mut lane = Vec::new(alloc);
    put_second(&mut lane, op, ways_at(g, k))?;
    Ok(lane)
}

// The second lanes of operations.
fn put_second_lanes(
    alloc: Global,
    g: Layout,
    ops: &[Op],
    lanes: &mut Vec<Vec<Command>>,
) -> Result<(), AllocError>
    requires few { g.blocks + 2 * g.ops + g.words + 1 < 2 ^ 15 }
    requires count { length ops.now ≡ g.ops }
    ensures { OnOk result (map (λ v. v.items) lanes.new.items ≡ map (λ v. v.items) lanes.old.items ++ second_lanes g 0 ops.now) }
{
    for k in 0..ops.len() {
        put_lane(lanes, second_lane_at(alloc, g, k as u32, ops[k])?)?;
    }
    Ok(())
}

// Pushes a zero.
fn put_zero(lane: &mut Vec<Command>) -> Result<(), AllocError>
    ensures { OnOk result (lane.new.items ≡ lane.old.items ++ zero_code) }
{
    lane.extend_from_slice(&[Command::Push, Command::Not])
}

// Pushes six zeros.
fn put_registers(lane: &mut Vec<Command>) -> Result<(), AllocError>
    ensures { OnOk result (lane.new.items ≡ lane.old.items ++ (zero_code ++ (zero_code ++ (zero_code ++ (zero_code ++ (zero_code ++ zero_code)))))) }
{
    put_zero(lane)?;
    put_zero(lane)?;
    put_zero(lane)?;
    put_zero(lane)?;
    put_zero(lane)?;
    put_zero(lane)
}

// The lane that lays the registers.
fn init_lane_at(alloc: Global, g: Layout, start: u32) -> Result<Vec<Command>, AllocError>
    requires { g.blocks + 2 * g.ops + g.words + 1 < 2 ^ 15 }
    ensures { IfOk result (λ lane. lane.items ≡ init_code g start) }
{
    let mut lane = Vec::new(alloc);
    put_registers(&mut lane)?;
    put_number(&mut lane, g.words)?;
    put_number(&mut lane, block_lane(g.blocks, start))?;
    Ok(lane)
}

// The lane of a data word.
fn data_lane_at(alloc: Global, g: Layout, k: u32, word: Word) -> Result<Vec<Command>, AllocError>
    requires few { g.blocks + 2 * g.ops + g.words + 1 < 2 ^ 15 }
    requires below { k < g.words }
    ensures { IfOk result (λ lane. lane.items ≡ data_code g k word) }
{
    let mut lane = Vec::new(alloc);
    put_zero(&mut lane)?;
    put_number(&mut lane, word.get())?;
    put_number(&mut lane, init_lane(g) + k)?;
    Ok(lane)
}

// The lanes of data words.
fn put_data_lanes(
    alloc: Global,
    g: Layout,
    words: &[Word],
    lanes: &mut Vec<Vec<Command>>,
) -> Result<(), AllocError>
    requires few { g.blocks + 2 * g.ops + g.words + 1 < 2 ^ 15 }
    requires count { length words.now ≡ g.words }
    ensures { OnOk result (map (λ v. v.items) lanes.new.items ≡ map (λ v. v.items) lanes.old.items ++ data_lanes g 0 words.now) }
{
    for k in 0..words.len() {
        put_lane(lanes, data_lane_at(alloc, g, k as u32, words[k])?)?;
    }
    Ok(())
}

// The lane that sees to the pairs.
fn ensure_lane_at(alloc: Global, g: Layout) -> Result<Vec<Command>, AllocError>
    requires { g.blocks + 2 * g.ops + g.words + 1 < 2 ^ 15 }
    ensures { IfOk result (λ lane. lane.items ≡ ensure_code (grow_lane g)) }
{
    let mut lane = Vec::new(alloc);
    put_ensure(&mut lane, ensure_lane(g) + 1)?;
    Ok(lane)
}

// The lane that adds a pair.
fn grow_lane_at(alloc: Global, g: Layout) -> Result<Vec<Command>, AllocError>
    requires { g.blocks + 2 * g.ops + g.words + 1 < 2 ^ 15 }
    ensures { IfOk result (λ lane. lane.items ≡ grow_code ++ number_code (ensure_lane_of g)) }
{
    let mut lane = Vec::new(alloc);
    put_grow(&mut lane)?;
    put_number(&mut lane, ensure_lane(g))?;
    Ok(lane)
}

// The three lanes that see to the pairs.
fn put_pair_lanes(alloc: Global, g: Layout, lanes: &mut Vec<Vec<Command>>) -> Result<(), AllocError>
    requires { g.blocks + 2 * g.ops + g.words + 1 < 2 ^ 15 }
    ensures { OnOk result (map (λ v. v.items) lanes.new.items ≡ map (λ v. v.items) lanes.old.items ++ pair_lanes g) }
{
    put_lane(lanes, ensure_lane_at(alloc, g)?)?;
    put_lane(lanes, grow_lane_at(alloc, g)?)?;
    put_lane(lanes, Vec::new(alloc))
}

// The lanes of the operations, first and second.
fn put_both_lanes(
    alloc: Global,
    g: Layout,
    p: &Program,
    lanes: &mut Vec<Vec<Command>>,
) -> Result<(), AllocError>
    requires layout { g ≡ layout_by p.now }
    requires few { g.blocks + 2 * g.ops + g.words + 1 < 2 ^ 15 }
    ensures { OnOk result (map (λ v. v.items) lanes.new.items ≡ map (λ v. v.items) lanes.old.items ++ (op_lanes g 0 (flat p.now.blocks) ++ second_lanes g 0 (flat p.now.blocks))) }
{
    let ops = flattened(alloc, p)?;
    put_op_lanes(alloc, g, &ops, lanes)?;
    put_second_lanes(alloc, g, &ops, lanes)
}

/// The lanes of a program that is not too large.
pub fn lanes(alloc: Global, p: &Program) -> Result<Vec<Vec<Command>>, AllocError>
    requires { size_of p.now ≤ 2 ^ 12 }
    ensures { IfOk result (λ all. map (λ v. v.items) all.items ≡ lanes_of p.now) }
{
    let g = layout_of(p);
    let mut all = Vec::new(alloc);
    put_block_lanes(alloc, g, p, &mut all)?;
    put_both_lanes(alloc, g, p, &mut all)?;
    put_lane(&mut all, init_lane_at(alloc, g, p.start())?)?;
    put_data_lanes(alloc, g, p.words(), &mut all)?;
    put_pair_lanes(alloc, g, &mut all)?;
    Ok(all)
}
