//! How a program's run follows a run of C, and how the objects of C lie in a program's memory: definitions, and laws of both.
#![tactic(auto)]

mod laws;

pub use laws::{blocks_come_and_go, runs_compose, stores_lie, uses_cost};
