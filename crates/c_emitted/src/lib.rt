//! Plain code while it is emitted: instructions one behind the other, and the tables that they name entries of.
#![tactic(auto)]

mod code;
mod emit;
mod emitter;
mod number;
mod tables;

pub use code::Code;
pub use emitter::{Emitter, File};
pub use number::number_of;
