//! WebAssembly 1.0 modules with 32-bit integers: their parts, and their binary form.
#![tactic(auto)]

mod decode;
mod entry;
mod func;
mod laws;
mod module;
mod opcode;
mod read;
mod section;

pub use laws::{
    faults_lie_within, modules_are_spelled, modules_are_spelled_in_one_way,
    modules_have_one_answer, modules_keep_limits,
};
pub use module::{
    Body, Export, FuncType, GlobalVar, Import, Instr, Limits, MemArg, Module, Segment,
};
pub use read::read_module;
