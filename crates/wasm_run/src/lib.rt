//! A machine for WebAssembly 1.0 modules with 32-bit integers, which goes by the step rule of `wasm_rule`.
#![tactic(auto)]

mod buffered;
mod link;
mod linked;
mod machine;
mod state;

pub use machine::WasmMachine;
