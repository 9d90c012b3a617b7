//! From EIR to SUBLEQ: one image for each EIR program, which follows it step by step.
#![tactic(auto)]

mod act;
mod back;
mod cells;
mod first;
mod image;
mod laws;
mod line;
mod op;
mod parts;
mod put;

pub use back::Subleq;
pub use laws::{few_steps_follow, image_simulates};
pub use line::Line;
