//! The tree of C text.
#![tactic(auto)]

pub mod fault;
mod machine;
mod parser;

pub use fault::ParseFault;
pub use parser::parse;
