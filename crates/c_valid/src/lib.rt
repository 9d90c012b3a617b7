//! What holds of all values of a run of C: words are below 2^24, and offsets within what an object can have.
#![tactic(auto)]

mod laws;

pub use laws::runs_stay_valid;
