// The back end.
#![tactic(auto, using(crate::proofs::Lists::lists))]

ghost use Rattle.std.specs.Prelude.{◌≡◌, ◌+◌, ◌*◌, ◌<◌, ◌≤◌, ◌^◌};
ghost use Rattle.mach_core.specs.Outside.{Rose};
ghost use Rattle.eir_core.specs.Eir.{size_of};
ghost use Rattle.sim_trait.specs.Emit.{EmitAnswers};
ghost use Rattle.piet_back.specs.Laws.{StandsFor};

use crate::lanes::lanes;
use crate::layout::{init_lane, layout_of};
use eir_core::Program;
use mach_core::Sink;
use piet_lane::{Board, WriteFault};
use piet_lang::PietMachine;
use sim_trait::{Backend, EmitFault};
use std::alloc::Global;

// The greatest size of a program that is emitted.
const LIMIT: u32 = 4096;

/// Emits programs as images of Piet.
pub struct Piet;

// Writes the board of a program's lanes.
fn emit_board<O: Sink>(alloc: Global, p: &Program, out: &mut O) -> Result<(), EmitFault>
    ensures answers { EmitAnswers (size_of p.now) (2 ^ 12) (Rose (O.faults out.old) (O.faults out.new))
        (StandsFor p.now) (O.got out.old) (O.got out.new) result }
    ensures later { O.faults out.old ≤ O.faults out.new }
{
    let size = p.size();
    if size > LIMIT {
        return Err(EmitFault::TooLarge { size });
    }
    let Ok(all) = lanes(alloc, p) else {
        return Err(EmitFault::Memory);
    };
    let g = layout_of(p);
    let board = Board::new(all, init_lane(g) + g.words);
    match board.write(alloc, out) {
        Ok(()) => Ok(()),
        Err(WriteFault::Write) => Err(EmitFault::Write),
        Err(WriteFault::Memory) => Err(EmitFault::Memory),
    }
}

impl Backend for Piet {
    ghost use Rattle.std.specs.Prelude.{◌^◌, true};
    ghost use Rattle.piet_back.specs.Related.{Related, spells_image};

    type Target = PietMachine;

    const LIMIT: u32 = LIMIT;

    const FACTOR: u64 = 65536;

    const BY_REACH: bool = true;

    ghost LIMIT = { 2 ^ 12 };

    ghost FACTOR = { 2 ^ 16 };

    ghost BY_REACH = { true };

    ghost spells = { spells_image };

    ghost related = { Related };

    fn emit<O: Sink>(alloc: Global, p: &Program, out: &mut O) -> Result<(), EmitFault> {
        emit_board(alloc, p, out)
    }
}
