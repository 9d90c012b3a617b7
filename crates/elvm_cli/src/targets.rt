// The targets: each by its back end and its machine.
ghost use Rattle.std.specs.Prelude.{◌≡◌, ◌≤◌, ◌^◌, ℕ, List, length, false};
ghost use Rattle.elvm_words.specs.Invocation.{build, emit, run};
ghost use Rattle.elvm_cli.specs.Seen.{OnSource, on_sink, on_source};
ghost use Rattle.elvm_cli.specs.Answer.{DeedShows, IsEarly};

use crate::compile::{build_text, build_text_sharply};
use crate::emit::{emit_text, emit_text_sharply};
use crate::outcome::Outcome;
use crate::run::run_text;
use bf_back::Brainfuck;
use bf_lang::BfMachine;
use elvm_words::Target;
use mach_core::{Sink, Source};
use piet_back::Piet;
use piet_lang::PietMachine;
use sq_back::Subleq;
use sq_lang::SqMachine;
use std::alloc::Global;
use wasm_back::WebAssembly;
use wasm_run::WasmMachine;
use ws_back::Whitespace;
use ws_lang::WsMachine;

/// Emits the program of an EIR text to a target.
pub fn emit_in<O: Sink>(alloc: Global, target: Target, text: &[u8], out: &mut O) -> Outcome
    requires short { length text.now ≤ 2 ^ 29 }
    ensures { (file : List ℕ) (input : OnSource) → DeedShows (emit target file) input
        (on_sink (O.faults out.old) (O.faults out.new) (O.got out.old) (O.got out.new)) text.now result }
{
    match target {
        Target::Brainfuck => emit_text::<Brainfuck, O>(alloc, text, out),
        Target::Whitespace => emit_text_sharply::<Whitespace, O>(alloc, text, out),
        Target::Subleq => emit_text_sharply::<Subleq, O>(alloc, text, out),
        Target::Piet => emit_text::<Piet, O>(alloc, text, out),
        Target::Wasm => emit_text::<WebAssembly, O>(alloc, text, out),
    }
}

/// Emits the program to which a C text is compiled to a target.
pub fn build_in<O: Sink>(alloc: Global, target: Target, text: &[u8], out: &mut O) -> Outcome
    requires short { length text.now ≤ 2 ^ 29 }
    ensures { (file : List ℕ) (input : OnSource) → DeedShows (build target file) input
        (on_sink (O.faults out.old) (O.faults out.new) (O.got out.old) (O.got out.new)) text.now result }
{
    match target {
        Target::Brainfuck => build_text::<Brainfuck, O>(alloc, text, out),
        Target::Whitespace => build_text_sharply::<Whitespace, O>(alloc, text, out),
        Target::Subleq => build_text_sharply::<Subleq, O>(alloc, text, out),
        Target::Piet => build_text::<Piet, O>(alloc, text, out),
        Target::Wasm => build_text::<WebAssembly, O>(alloc, text, out),
    }
}

/// Runs the program of a target's text.
pub fn run_in<I: Source, O: Sink>(
    alloc: Global,
    target: Target,
    codel: u32,
    text: &[u8],
    steps: u64,
    input: &mut I,
    out: &mut O,
) -> Outcome
    requires short { length text.now ≤ 2 ^ 29 }
    requires some { 1 ≤ codel }
    requires open { I.over input.old ≡ false }
    ensures shows { (file : List ℕ) → DeedShows (run target file steps codel)
        (on_source (I.faults input.old) (I.faults input.new) (I.left input.old) (I.left input.new))
        (on_sink (O.faults out.old) (O.faults out.new) (O.got out.old) (O.got out.new)) text.now result }
    ensures early { IsEarly result → input.new ≡ input.old }
{
    match target {
        Target::Brainfuck => run_text::<BfMachine, I, O>(alloc, codel, text, steps, input, out),
        Target::Whitespace => run_text::<WsMachine, I, O>(alloc, codel, text, steps, input, out),
        Target::Subleq => run_text::<SqMachine, I, O>(alloc, codel, text, steps, input, out),
        Target::Wasm => run_text::<WasmMachine, I, O>(alloc, codel, text, steps, input, out),
        Target::Piet => run_text::<PietMachine, I, O>(alloc, codel, text, steps, input, out),
    }
}
