//! What each instruction of plain code does to the parts of a machine: its values, slots, what is open, and its memory.
//!
//! Each function's contract says that it comes to the step of the rule in `c_plain`, unless it wants memory and has then
//! done nothing.
#![tactic(auto)]

pub mod assign;
pub mod blocks;
pub mod calls;
pub mod fill;
mod halt;
pub mod hex;
pub mod leaves;
mod opened;
mod operate;
pub mod output;
mod parts;
mod slots;
mod values;
mod words;

pub use halt::Halt;
pub use opened::{Block, Caller, Open, Opened, Turn};
pub use parts::Parts;
pub use slots::Slots;
pub use values::Values;
