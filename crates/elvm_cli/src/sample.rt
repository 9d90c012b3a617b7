// The sample.
ghost use Rattle.std.specs.Prelude.{◌≤◌};
ghost use Rattle.elvm_cli.specs.Seen.{on_sink};
ghost use Rattle.elvm_cli.specs.Shows.{SampleShows};

use crate::outcome::Outcome;
use elvm_sample::{SampleFault, put_sample};
use mach_core::Sink;
use std::alloc::Global;

/// Puts out the line of the sample of so many blocks.
pub fn tell_sample<O: Sink>(alloc: Global, blocks: u32, out: &mut O) -> Outcome
    requires { blocks ≤ 20000 }
    ensures { SampleShows blocks (on_sink (O.faults out.old) (O.faults out.new) (O.got out.old) (O.got out.new)) result }
{
    match put_sample(alloc, blocks, out) {
        Ok(()) => Outcome::Done,
        Err(SampleFault::Write) => Outcome::NoOutput,
        Err(SampleFault::Memory) => Outcome::NoMemory,
    }
}
