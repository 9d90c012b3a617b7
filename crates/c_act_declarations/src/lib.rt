//! What a production of a declaration or an external of C, and a piece of a production, makes of its parts.
#![tactic(auto)]

pub mod externals;
pub mod pieces;
pub mod types;
