//! Declarations of C: objects with their first values, and tags with their members.
#![tactic(auto)]

mod members;
mod objects;
mod tags;
mod types;
mod values;

pub use objects::declare_object;
pub use tags::declare_tag;
pub use types::declared_type;
pub use values::{Site, fit};
