// The run of a typed text.

ghost use Rattle.std.specs.Prelude.{◌≡◌, ◌≤◌, true, false};
ghost use Rattle.c_types.specs.Limits.{is_small};
ghost use Rattle.c_types.specs.Typed.{plain_of};
ghost use Rattle.c_fitting.specs.Blocks.{UnitDeclaresInBlocks};
ghost use Rattle.c_run.specs.Runs.{Answers};

use crate::whole::compile;
use c_run::{CEnd, CFault, run_plain};
use c_types::Typed;
use mach_core::{Sink, Source};
use std::alloc::{AllocError, Global};

/// Runs a typed text within the limits, in which declarations stand in blocks, with so much fuel on an input: the run is
/// what the text means.
pub fn run_c<I: Source, O: Sink>(
    alloc: Global,
    typed: &Typed,
    fuel: u64,
    input: &mut I,
    out: &mut O,
) -> Result<CEnd, CFault>
    requires open { I.over input.old ≡ false }
    requires small { is_small (plain_of typed.now) ≡ true }
    requires blocks { UnitDeclaresInBlocks (plain_of typed.now) }
    ensures answers { Answers (plain_of typed.now) fuel result
        (record { faults = I.faults input.old; faults_after = I.faults input.new; left = I.left input.old; left_after = I.left input.new })
        (record { faults = O.faults out.old; faults_after = O.faults out.new; got = O.got out.old; got_after = O.got out.new }) }
    ensures later_in { I.faults input.old ≤ I.faults input.new }
    ensures later_out { O.faults out.old ≤ O.faults out.new }
{
    match compile(alloc, typed) {
        Ok(plain) => run_plain(alloc, &plain, fuel, input, out),
        Err(AllocError) => Err(CFault::Memory),
    }
}
