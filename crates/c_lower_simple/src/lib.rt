//! The code to which parts of statements that are expressions are lowered.
#![tactic(auto)]

mod simple;

pub use simple::{effect, jump_out, maybe_effect, maybe_unless, returns, unless, where_true};
