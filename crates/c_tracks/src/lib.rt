//! Laws: a machine of plain code goes along with the machine of C's code, step by step.
#![tactic(auto)]

mod laws;

pub use laws::{plain_runs_track_code, plain_starts_as_text, plain_steps_track_code};
