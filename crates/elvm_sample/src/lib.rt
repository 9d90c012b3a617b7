//! The sample: a large EIR program for a number of blocks, its Whitespace text, a run of both, and one line about them.
#![tactic(auto)]

mod call;
mod laws;
mod line;
mod outside;
mod program;
mod runs;

pub use call::{SampleFault, put_sample};
pub use laws::{samples_are_programs, samples_end, samples_have_their_size, samples_write};
pub use program::sample_program;
