//! What a production of C makes of its parts, and the tree of a whole text.
#![tactic(auto)]

mod expressions;
mod productions;

pub use productions::{made, unit};
