//! The kinds of the cells of C's objects: those of structs, by the numbers of their tags, those of types, and those that a
//! braced list leaves.
#![tactic(auto)]

mod kinds;
mod left;
mod structs;

pub use kinds::add_kinds;
pub use left::add_left;
pub use structs::StructKinds;
