// The run of a text by its plain code.

ghost use Rattle.std.specs.Prelude.{◌≡◌, ◌≤◌, false, List, ℕ};
ghost use Rattle.c_syntax.specs.Plain.{CUnit};
ghost use Rattle.c_plain.specs.Program.{program_of};
ghost use Rattle.c_plain.specs.Rule.{plain_rule, plain_start};
ghost use Rattle.c_tracks.specs.Starts.{IsOfText};
ghost use Rattle.c_run.specs.Ends.{c_end};
ghost use Rattle.c_run.specs.Machine.{MachineAnswers};
ghost use Rattle.c_run.specs.Runs.{Answers};

use c_machine::CMachine;
use c_plain::Plain;
use mach_core::{Machine, RunEnd, RunFault, Sink, Source, run_machine};
use std::alloc::{AllocError, Global};
use thiserror::Error;

/// How the run of a text ends.
#[derive(Clone, Copy)]
pub enum CEnd {
    /// The program has ended.
    Ended,
    /// A unit of fuel is wanted, and none is left.
    Going,
    /// At an act whose effect C doesn't define, which has this number.
    Undefined(u8),
}

/// Why a run was broken off.
#[derive(Clone, Copy, Debug, PartialEq, Eq, Error)]
pub enum CFault {
    #[error("the input can't be read")]
    Read,
    #[error("the output can't be written")]
    Write,
    #[error("out of memory")]
    Memory,
}

// How the run of a text ends whose machine ended so, unless the machine could go on.
fn end_of(end: RunEnd) -> Option<CEnd>
    ensures { result ≡ c_end end }
{
    match end {
        RunEnd::Ended => Some(CEnd::Ended),
        RunEnd::Fault(code) => {
            if code == 0 {
                Some(CEnd::Going)
            } else {
                Some(CEnd::Undefined(code))
            }
        }
        RunEnd::Limit => None,
    }
}

// Runs a machine to where it stands still, and says how the run of a text ends whose machine it is.
fn run<M: Machine, I: Source, O: Sink>(
    machine: &mut M,
    input: &mut I,
    out: &mut O,
) -> Result<CEnd, CFault>
    requires { I.over input.old ≡ false }
    ensures answers { MachineAnswers (M.rule (M.code machine.old)) (M.config machine.old) result
        (record { faults = I.faults input.old; faults_after = I.faults input.new; left = I.left input.old; left_after = I.left input.new })
        (record { faults = O.faults out.old; faults_after = O.faults out.new; got = O.got out.old; got_after = O.got out.new }) }
    ensures later_in { I.faults input.old ≤ I.faults input.new }
    ensures later_out { O.faults out.old ≤ O.faults out.new }
{
    match run_machine(machine, u64::MAX, input, out) {
        Ok(end) => match end_of(end) {
            Some(end) => Ok(end),
            None => Err(CFault::Memory),
        },
        Err(RunFault::Read) => Err(CFault::Read),
        Err(RunFault::Write) => Err(CFault::Write),
        Err(RunFault::Memory) => Err(CFault::Memory),
    }
}

/// Runs plain code with so much fuel on an input, by the rule of plain code. Of each text that the code is of, the run is what the text means.
///
/// The source is read only where the run wants a byte and none is held, by pieces of at most 4096 bytes. An error comes
/// from the source (`Read`), from out (`Write`), or says that no memory was found.
pub fn run_plain<I: Source, O: Sink>(
    alloc: Global,
    plain: &Plain,
    fuel: u64,
    input: &mut I,
    out: &mut O,
) -> Result<CEnd, CFault>
    requires { I.over input.old ≡ false }
    ensures ruled { MachineAnswers (plain_rule plain.now) (plain_start plain.now fuel) result
        (record { faults = I.faults input.old; faults_after = I.faults input.new; left = I.left input.old; left_after = I.left input.new })
        (record { faults = O.faults out.old; faults_after = O.faults out.new; got = O.got out.old; got_after = O.got out.new }) }
    ensures answers { (names : List (List ℕ)) (u : CUnit) → IsOfText names (program_of plain.now) u → Answers u fuel result
        (record { faults = I.faults input.old; faults_after = I.faults input.new; left = I.left input.old; left_after = I.left input.new })
        (record { faults = O.faults out.old; faults_after = O.faults out.new; got = O.got out.old; got_after = O.got out.new }) }
    ensures later_in { I.faults input.old ≤ I.faults input.new }
    ensures later_out { O.faults out.old ≤ O.faults out.new }
{
    match CMachine::new(alloc, plain, fuel) {
        Ok(mut machine) => run(&mut machine, input, out),
        Err(AllocError) => Err(CFault::Memory),
    }
}
