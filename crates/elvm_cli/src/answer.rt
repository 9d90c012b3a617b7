// What the words ask for is done.
ghost use Rattle.std.specs.Prelude.{◌≡◌, ◌≤◌, ◌^◌, Some, length, false, true, map, string_bytes};
ghost use Rattle.elvm_words.specs.Invocation.{IsWithinLimits, invocation_in, invocation_of};
ghost use Rattle.elvm_cli.specs.Seen.{on_shelf, on_sink, on_source};
ghost use Rattle.elvm_cli.specs.Line.{line_of};
ghost use Rattle.elvm_cli.specs.Answer.{CallShows, DeedShows, IsEarly, file_of, reads_file, takes_input};
ghost use Rattle.elvm_cli.specs.declared.outcome.Outcome.TheVariants.{Usage};

use crate::compile::compile_text;
use crate::evaluate::evaluate_text;
use crate::optimise::optimise_text;
use crate::outcome::Outcome;
use crate::read::{are_bytes, file_text};
use crate::run::run_eir_text;
use crate::sample::tell_sample;
use crate::targets::{build_in, emit_in, run_in};
use elvm_words::{Request, WordFault, read_words};
use mach_core::{Shelf, Sink, Source};
use std::alloc::Global;

// The name of the file that is asked for.
fn file_name<'a>(request: Request<'a>) -> &'a str
    ensures { result.now ≡ file_of (Some (invocation_of request.entry)) }
{
    match request {
        Request::Compile { file } => file,
        Request::Eir { file, .. } => file,
        Request::Emit { file, .. } => file,
        Request::Build { file, .. } => file,
        Request::Run { file, .. } => file,
        Request::Opt { file } => file,
        Request::C { file, .. } => file,
        Request::Sample { .. } => "",
    }
}

// Does what is asked for with a text.
fn answer_text<I: Source, O: Sink>(
    alloc: Global,
    request: Request,
    text: &[u8],
    input: &mut I,
    out: &mut O,
) -> Outcome
    requires file { reads_file (Some (invocation_of request)) ≡ true }
    requires limits { IsWithinLimits request }
    requires short { length text.now ≤ 2 ^ 29 }
    requires open { I.over input.old ≡ false }
    ensures shows { DeedShows (invocation_of request.entry)
        (on_source (I.faults input.old) (I.faults input.new) (I.left input.old) (I.left input.new))
        (on_sink (O.faults out.old) (O.faults out.new) (O.got out.old) (O.got out.new)) text.now result }
    ensures unfed { takes_input (Some (invocation_of request.entry)) ≡ false → input.new ≡ input.old }
    ensures early { IsEarly result → input.new ≡ input.old }
{
    match request {
        Request::Eir { steps, .. } => run_eir_text(alloc, text, steps, input, out),
        Request::Emit { target, .. } => emit_in(alloc, target, text, out),
        Request::Run {
            target,
            steps,
            codel,
            ..
        } => run_in(alloc, target, codel, text, steps, input, out),
        Request::Opt { .. } => optimise_text(alloc, text, out),
        Request::C { fuel, .. } => evaluate_text(alloc, text, fuel, input, out),
        Request::Compile { .. } => compile_text(alloc, text, out),
        Request::Build { target, .. } => build_in(alloc, target, text, out),
        Request::Sample { .. } => unreachable!(),
    }
}

// Does what is asked for with a file.
fn answer_file<F: Shelf, I: Source, O: Sink>(
    alloc: Global,
    request: Request,
    shelf: &mut F,
    input: &mut I,
    out: &mut O,
) -> Outcome
    requires file { reads_file (Some (invocation_of request)) ≡ true }
    requires limits { IsWithinLimits request }
    requires open { I.over input.old ≡ false }
    ensures shows { CallShows (Some (invocation_of request.entry))
        (on_shelf (F.faults shelf.old) (F.faults shelf.new) (F.texts shelf.old) (F.texts shelf.new)
        (F.lookups shelf.old) (F.lookups shelf.new) (F.chosen shelf.new) (F.left shelf.new))
        (on_source (I.faults input.old) (I.faults input.new) (I.left input.old) (I.left input.new))
        (on_sink (O.faults out.old) (O.faults out.new) (O.got out.old) (O.got out.new)) result }
    ensures unfed { takes_input (Some (invocation_of request.entry)) ≡ false → input.new ≡ input.old }
    ensures early { IsEarly result → input.new ≡ input.old }
    ensures deed { result ≡ Usage → ⊥ }
{
    match file_text(alloc, file_name(request), shelf) {
        Ok(text) => {
            let bytes = text.as_slice();
            are_bytes(bytes);
            answer_text(alloc, request, bytes, input, out)
        }
        Err(outcome) => outcome,
    }
}

// Does what is asked for.
fn answer_request<F: Shelf, I: Source, O: Sink>(
    alloc: Global,
    request: Request,
    shelf: &mut F,
    input: &mut I,
    out: &mut O,
) -> Outcome
    requires limits { IsWithinLimits request }
    requires open { I.over input.old ≡ false }
    ensures shows { CallShows (Some (invocation_of request.entry))
        (on_shelf (F.faults shelf.old) (F.faults shelf.new) (F.texts shelf.old) (F.texts shelf.new)
        (F.lookups shelf.old) (F.lookups shelf.new) (F.chosen shelf.new) (F.left shelf.new))
        (on_source (I.faults input.old) (I.faults input.new) (I.left input.old) (I.left input.new))
        (on_sink (O.faults out.old) (O.faults out.new) (O.got out.old) (O.got out.new)) result }
    ensures unfed { takes_input (Some (invocation_of request.entry)) ≡ false → input.new ≡ input.old }
    ensures early { IsEarly result → input.new ≡ input.old }
    ensures unshelved { reads_file (Some (invocation_of request.entry)) ≡ false → shelf.new ≡ shelf.old }
    ensures usage { result ≡ Usage → (shelf.new ≡ shelf.old) × (out.new ≡ out.old) }
{
    match request {
        Request::Sample { blocks } => tell_sample(alloc, blocks, out),
        Request::Compile { .. }
        | Request::Eir { .. }
        | Request::Emit { .. }
        | Request::Build { .. }
        | Request::Run { .. }
        | Request::Opt { .. }
        | Request::C { .. } => answer_file(alloc, request, shelf, input, out),
    }
}

/// An outcome, and the name of the file that was asked for.
#[derive(Clone, Copy)]
pub struct Answer<'a> {
    pub outcome: Outcome,
    pub file: &'a str,
}

/// Does what the words ask for.
pub fn answer_words<'a, F: Shelf, I: Source, O: Sink>(
    alloc: Global,
    words: &'a [String],
    shelf: &mut F,
    input: &mut I,
    out: &mut O,
) -> Answer<'a>
    requires { I.over input.old ≡ false }
    ensures shows { CallShows (invocation_in (map string_bytes words.now))
        (on_shelf (F.faults shelf.old) (F.faults shelf.new) (F.texts shelf.old) (F.texts shelf.new)
        (F.lookups shelf.old) (F.lookups shelf.new) (F.chosen shelf.new) (F.left shelf.new))
        (on_source (I.faults input.old) (I.faults input.new) (I.left input.old) (I.left input.new))
        (on_sink (O.faults out.old) (O.faults out.new) (O.got out.old) (O.got out.new)) result.outcome }
    ensures line { line_of result.file.now result.outcome ≡ line_of (file_of (invocation_in (map string_bytes words.now))) result.outcome }
    ensures unfed { takes_input (invocation_in (map string_bytes words.now)) ≡ false → input.new ≡ input.old }
    ensures early { IsEarly result.outcome → input.new ≡ input.old }
    ensures unshelved { reads_file (invocation_in (map string_bytes words.now)) ≡ false → shelf.new ≡ shelf.old }
    ensures usage { result.outcome ≡ Usage → (shelf.new ≡ shelf.old) × (out.new ≡ out.old) }
{
    let request = match read_words(alloc, words) {
        Ok(request) => request,
        Err(WordFault::Usage) => {
            return Answer {
                outcome: Outcome::Usage,
                file: "",
            };
        }
        Err(WordFault::Memory) => {
            return Answer {
                outcome: Outcome::NoMemory,
                file: "",
            };
        }
    };
    let file = file_name(request);
    let outcome = answer_request(alloc, request, shelf, input, out);
    Answer { outcome, file }
}
