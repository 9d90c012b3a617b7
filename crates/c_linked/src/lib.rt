//! Code that was emitted, with its tables, as a program: each function's name has the entry of its code. Where the
//! code of a function of C begins and ends: its owner, the slots of its parameters, and its entry.
#![tactic(auto)]

mod entries;
mod frame;
mod program;
mod slots;

pub use entries::entry;
pub use frame::{begin_function, end_function};
pub use program::{Compiled, link};
pub use slots::parameter_slots;
