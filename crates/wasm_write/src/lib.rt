//! Modules of WebAssembly 1.0 in their binary form, in as few bytes as it takes.
#![tactic(auto)]

mod code;
mod encode;
mod entry;
mod laws;
mod number;
mod section;
mod write;

pub use laws::{written_modules_are_read, written_modules_are_short, written_modules_are_shortest};
pub use write::write_module;
