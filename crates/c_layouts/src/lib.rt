//! The members of the tags of C, and how many words types take.
#![tactic(auto)]

mod layout;
mod size;

pub use layout::Layout;
pub use size::{array_parts, is_object_type, tag_of, words};
