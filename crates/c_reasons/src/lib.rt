//! Why texts of C are refused: the reason lies in the text, and is never want of memory.
#![tactic(auto)]

mod laws;

pub use laws::typed_units_have_reasons;
