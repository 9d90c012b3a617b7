//! Division of signed numbers of 64 bits that rounds down, as the machines with such cells have it.
#![tactic(auto)]

mod division;
mod laws;

pub use division::{quotient, remainder};
pub use laws::quotients_are_floored;
