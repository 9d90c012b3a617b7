//! Statements of C: whether they keep the rules of their types, and the names in scope behind them.
#![tactic(auto)]

mod blocks;
mod locals;
mod statements;

pub use statements::{state, state_all};
