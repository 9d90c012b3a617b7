//! What a back end shows step by step, and what follows from it for runs of every length.
#![tactic(auto)]

mod backend;
mod laws;
mod sharp;

pub use backend::{Backend, EmitFault, emit_to};
pub use laws::{numbers_have_their_digits, what_follows_runs_alike};
pub use sharp::{Sharp, emit_sharp};
