//! The helper functions of C with fewer operators, as trees.
#![tactic(auto)]

mod externals;
mod tables;

pub use externals::add_fixed;
pub use tables::Helper;
