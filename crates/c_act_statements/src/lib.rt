//! What a production of a statement of C makes of its parts.
#![tactic(auto)]

pub mod statements;
