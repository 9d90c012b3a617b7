//! The objects of file scope of a text of C, with their first values; and what is declared behind each external of a typed
//! text, whose bodies aren't looked at again.
#![tactic(auto)]

mod externals;
mod files;
mod objects;
mod walk;

pub use externals::{declare_function, declare_struct};
pub use walk::file_objects;
