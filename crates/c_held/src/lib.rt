//! What a parser of C holds of the parts that it has read, and what its parts say.
#![tactic(auto)]

pub mod parts;
pub mod value;
