//! EIR text, printed.
#![tactic(auto)]

mod laws;
mod line;
mod print;
mod words;

pub use laws::{printed_texts_are_short, printed_texts_spell};
pub use print::print_eir;
