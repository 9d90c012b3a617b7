//! Piet: what its images do as programs.
#![tactic(auto)]

mod act;
mod change;
mod chart;
mod exits;
mod fill;
mod find;
mod laws;
mod machine;
mod number;
mod quiet;
mod slide;
mod slots;
mod stack;
mod state;

pub use act::{Act, Departure};
pub use chart::Chart;
pub use machine::PietMachine;
pub use number::Seen;
pub use state::PietState;
