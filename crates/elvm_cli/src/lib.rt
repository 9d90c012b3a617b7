//! The top call: what the words ask for is done, with an exit status and a line for what went wrong.
//!
//! `compile FILE` writes the EIR text of a C text, `build --target T FILE` writes a C text as a program of a target, `eir FILE` runs an EIR file, `emit --target T FILE` writes an EIR file's program as one of a target,
//! `run --target T FILE` runs a Brainfuck, Whitespace, SUBLEQ, Piet or WebAssembly file, `opt FILE` writes the EIR text of what a
//! program is folded and trimmed to, `c FILE` runs a C text, and `sample N` makes a program of N blocks, emits it
//! as Whitespace, runs both and writes one line about them.
//!
//! The exit statuses stand in `specs/Answer.antt`, with what each shows.
#![tactic(auto)]

mod answer;
mod compile;
mod emit;
mod evaluate;
mod language;
mod laws;
mod line;
mod optimise;
mod outcome;
mod read;
mod refusal;
mod run;
mod sample;
mod targets;
mod top;

pub use laws::{built_texts_run_in_time, compiled_programs_fit_their_room, one_status_is_allowed};
pub use line::out_of_memory;
pub use top::elvm;
