//! The code to which first values of C's local objects are lowered: each value goes to its words of the frame, and what is
//! missing becomes 0.
#![tactic(auto)]

mod pieces;
mod values;

pub use pieces::slot_type;
pub use values::first_value;
