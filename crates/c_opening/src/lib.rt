//! What is declared before the first external of a text of C: the functions that are always known, the tags by number,
//! and the functions that the whole text defines.
#![tactic(auto)]

mod built_ins;
mod named;
mod opening;

pub use named::has_main;
pub use opening::{NamedOpening, Opening, open, open_named};
