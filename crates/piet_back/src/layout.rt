// The numbers of lanes.
#![tactic(auto, using(crate::proofs::Lists::lists))]

ghost use Rattle.std.specs.Prelude.{◌≡◌, ◌+◌, ◌*◌, ◌<◌, ◌≤◌, ◌^◌, length, sum_by};
ghost use Rattle.eir_core.specs.Eir.{size_of};
ghost use Rattle.piet_back.specs.Lanes.{layout_of as layout_by, op_lane as op_lane_of, second_lane as second_lane_of, init_lane as init_lane_of, ensure_lane as ensure_lane_of, on_lane as on_lane_of, ways_at as ways_by};

use eir_core::Program;
use piet_stack::Ways;

// The number of no lane.
const NO_LANE: u32 = 32767;

/// How many blocks, operations and data words a program has. The lanes are those of the blocks, which lead to their first
/// operations, those of the operations, the second ones of the operations, the one that lays the registers, those of the
/// data words, and the three that see to the pairs.
#[derive(Clone, Copy)]
pub struct Layout {
    pub blocks: u32,
    pub ops: u32,
    pub words: u32,
}

/// The layout of a program.
pub fn layout_of(p: &Program) -> Layout
    ensures { result ≡ layout_by p.now }
{
    let blocks = p.block_count();
    let words = p.words().len() as u32;
    Layout {
        blocks,
        ops: p.size() - words - blocks,
        words,
    }
}

/// The lane of an operation.
pub fn op_lane(g: Layout, k: u32) -> u32
    requires { g.blocks + k < 2 ^ 32 }
    ensures { result ≡ op_lane_of g k }
{
    g.blocks + k
}

/// The lane that lays the registers.
pub fn init_lane(g: Layout) -> u32
    requires { g.blocks + 2 * g.ops < 2 ^ 32 }
    ensures { result ≡ init_lane_of g }
{
    g.blocks + 2 * g.ops
}

/// The lane that sees to the pairs.
pub fn ensure_lane(g: Layout) -> u32
    requires { g.blocks + 2 * g.ops + g.words + 1 < 2 ^ 32 }
    ensures { result ≡ ensure_lane_of g }
{
    init_lane(g) + g.words + 1
}

// The lane of what comes behind an operation.
fn on_lane(g: Layout, k: u32) -> u32
    requires blocks { g.blocks + g.ops < 2 ^ 15 }
    requires below { k < g.ops }
    ensures lane { result ≡ on_lane_of g k }
    ensures small { result < 2 ^ 15 }
{
    if k + 1 < g.ops {
        op_lane(g, k + 1)
    } else {
        NO_LANE
    }
}

/// What the lane of an operation has to know.
pub fn ways_at(g: Layout, k: u32) -> Ways
    requires few { g.blocks + 2 * g.ops + g.words + 1 < 2 ^ 15 }
    requires below { k < g.ops }
    ensures ways { result ≡ ways_by g k }
    ensures on { result.on < 2 ^ 15 }
{
    Ways {
        blocks: g.blocks,
        on: on_lane(g, k),
        second: g.blocks + g.ops + k,
        ensure: ensure_lane(g),
    }
}
