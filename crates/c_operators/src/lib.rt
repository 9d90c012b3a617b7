//! Laws: the routines leave the words that C's operators give.
#![tactic(auto)]

mod laws;

pub use laws::operators_are_computed;
