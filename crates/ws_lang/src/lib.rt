//! Whitespace: its programs, the reader of their texts, and a machine that executes them.
#![tactic(auto)]

mod arithmetic;
mod buffered;
mod command;
mod cursor;
mod decide;
mod effect;
mod fault;
mod heap;
mod instruction;
mod labels;
mod laws;
mod listing;
mod machine;
mod number;
mod program;
mod progress;
mod read;
mod reading;
mod resolved;
mod sign;
mod slots;
mod stack;
mod state;

pub use fault::WsFault;
pub use laws::{
    faults_are_quiet, labels_have_one_place, numbers_are_stored, texts_are_spelled_or_refused,
    texts_have_one_answer, texts_spell_one_program, values_stay_in_range,
};
pub use machine::WsMachine;
pub use program::{WsProgram, read_ws};
