// Runs of C texts.
ghost use Rattle.std.specs.Prelude.{◌≡◌, ◌≤◌, ◌^◌, length, true, false};
ghost use Rattle.c_types.specs.Limits.{is_small};
ghost use Rattle.c_types.specs.Typed.{plain_of};
ghost use Rattle.c_fitting.specs.Blocks.{UnitDeclaresInBlocks};
ghost use Rattle.elvm_cli.specs.Seen.{AreUntouched, on_sink, on_source};
ghost use Rattle.elvm_cli.specs.Shows.{FueledShows, TextShows};
ghost use Rattle.elvm_cli.specs.Sources.{CRefused, CSpells, c_runs, outcome_of};
ghost use Rattle.elvm_cli.specs.Answer.{IsEarly};

use crate::outcome::Outcome;
use crate::refusal::Refusal;
use c_fitting::units_declare_in_blocks;
use c_flat::run_c;
use c_run::{CEnd, CFault};
use c_source::read_c;
use c_types::{Typed, answers_are_of_typed_texts};
use mach_core::{Sink, Source};
use std::alloc::Global;

// How the run of a C text comes out.
fn outcome_of(answer: Result<CEnd, CFault>) -> Outcome
    ensures { result ≡ outcome_of answer }
{
    match answer {
        Ok(CEnd::Ended) => Outcome::Done,
        Ok(CEnd::Going) => Outcome::Limit,
        Ok(CEnd::Undefined(act)) => Outcome::Fault { code: act },
        Err(CFault::Read) => Outcome::NoInput,
        Err(CFault::Write) => Outcome::NoOutput,
        Err(CFault::Memory) => Outcome::NoMemory,
    }
}

// Runs a typed tree with at most so many units of fuel.
fn evaluate<I: Source, O: Sink>(
    alloc: Global,
    typed: &Typed,
    fuel: u64,
    input: &mut I,
    out: &mut O,
) -> Outcome
    requires open { I.over input.old ≡ false }
    requires small { is_small (plain_of typed.now) ≡ true }
    requires blocks { UnitDeclaresInBlocks (plain_of typed.now) }
    ensures { FueledShows (c_runs (plain_of typed.now)) fuel
        (on_source (I.faults input.old) (I.faults input.new) (I.left input.old) (I.left input.new))
        (on_sink (O.faults out.old) (O.faults out.new) (O.got out.old) (O.got out.new)) result }
{
    let answer = run_c(alloc, typed, fuel, input, out);
    outcome_of(answer)
}

/// Runs the program of a C text.
pub fn evaluate_text<I: Source, O: Sink>(
    alloc: Global,
    text: &[u8],
    fuel: u64,
    input: &mut I,
    out: &mut O,
) -> Outcome
    requires short { length text.now ≤ 2 ^ 29 }
    requires open { I.over input.old ≡ false }
    ensures shows { TextShows CSpells CRefused (λ u. FueledShows (c_runs u) fuel
        (on_source (I.faults input.old) (I.faults input.new) (I.left input.old) (I.left input.new))
        (on_sink (O.faults out.old) (O.faults out.new) (O.got out.old) (O.got out.new)))
        (AreUntouched (on_source (I.faults input.old) (I.faults input.new) (I.left input.old) (I.left input.new))
        (on_sink (O.faults out.old) (O.faults out.new) (O.got out.old) (O.got out.new))) text.now result }
    ensures early { IsEarly result → input.new ≡ input.old }
{
    units_declare_in_blocks();
    answers_are_of_typed_texts();
    match read_c(alloc, text) {
        Ok(typed) => evaluate(alloc, &typed, fuel, input, out),
        Err(fault) => fault.outcome(),
    }
}
