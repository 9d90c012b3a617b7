//! Texts of C as typed trees: prepared, parsed and checked.
#![tactic(auto)]

mod fault;
mod laws;
mod read;

pub use fault::SourceFault;
pub use laws::texts_are_decided;
pub use read::read_c;
