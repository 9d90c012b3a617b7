//! The productions of C that are open while its tokens are read, with what is counted at each.
#![tactic(auto)]

pub mod frame;
pub mod stack;
