//! How much the functions of a text with fewer operators cost, and how many operations units of fuel pay for in its program.
#![tactic(auto)]

mod laws;

pub use laws::{frames_fit_charges, rates_fit, units_pay};
