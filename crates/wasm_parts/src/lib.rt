//! The parts of a machine for WebAssembly 1.0: its memory, its stacks, the frames of its calls, where blocks lead, and
//! what an instruction does.
#![tactic(auto)]

pub mod decide;
pub mod frame;
pub mod jumps;
pub mod memory;
pub mod number;
pub mod stack;
