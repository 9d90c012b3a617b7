//! The compiler of typed texts of C to plain code: first values, statements, functions and file scope; and the run of a text
//! by its plain code.
#![tactic(auto)]

mod functions;
mod items;
mod labels;
mod locals;
mod pieces;
mod run;
mod simple;
mod statements;
mod switches;
mod values;
mod whole;

pub use functions::define;
pub use run::run_c;
pub use whole::compile;
