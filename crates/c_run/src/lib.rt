//! Runs C texts: a machine on plain code, whose run is what the text means.
#![tactic(auto)]

mod run;

pub use run::{CEnd, CFault, run_plain};
