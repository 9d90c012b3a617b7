//! Names of C in scope: what each stands for, block by block.
#![tactic(auto)]

mod entity;
mod names;
mod stack;

pub use entity::Entity;
pub use names::Names;
