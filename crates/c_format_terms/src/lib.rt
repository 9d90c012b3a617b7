//! The functions of formats, and all helper functions that a text may call.
#![tactic(auto)]

mod conversions;
mod effects;
mod formats;
mod parameters;
mod pieces;

pub use formats::{add_helpers_for, print_format};
