//! WebAssembly 1.0 modules with 32-bit integers: the rule of what they do, step by step, and what holds of it.
#![tactic(auto)]

mod act;
mod config;
mod fault;
mod laws;

pub use act::Act;
pub use config::WasmConfig;
pub use fault::LinkFault;
pub use laws::{
    blocks_end_where_they_close, faults_are_silent, modules_are_linked_or_refused,
    one_main_is_shown, runs_stay_small, stored_words_are_read, valid_modules_are_ready,
};
