//! The preprocessor of C: macros without parameters, conditional lines and the headers of the library.
#![tactic(auto)]

mod conditional;
mod context;
mod directive;
mod expand;
mod fault;
mod laws;
mod lines;
mod output;
mod same;
mod table;
mod whole;
mod word;

pub use fault::PrepFault;
pub use laws::{agrees_with_lex, depth_is_enough, hidden_names_stay, kept_names_are_replaced};
pub use whole::prepare;
