//! Arithmetic of 24-bit words on the cells of a Brainfuck tape.
//!
//! A word is three neighbouring cells, lowest byte first, named by its first cell; a counter is a word with seven cells behind
//! it that are 0. One less in a counter is a constant list of commands: a byte that is 0 borrows from the next one. One word
//! is added to another, or taken from it, by counting it down byte by byte on a counter, with 1, 256 or 65536 a turn.
//!
//! The cells 110 to 173 are to work in, and are 0 before and after each call of `word`.
#![tactic(auto)]

mod carry;
mod constant;
mod counter;
mod joining;
mod laws;
mod steps;
mod word;

pub use carry::{clear_word, drain_word, dup_word, move_word};
pub use constant::equals;
pub use counter::{lift_by, lift_once, lower_by, lower_once};
pub use joining::{append, aside};
pub use laws::words_are_set;
pub use word::{add, dec, equal, flip, less, set, sub};
