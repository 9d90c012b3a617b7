//! Blocks of C while their statements get plain code: the names and slots that come and go with them, their objects, and
//! the objects that are declared in them.
#![tactic(auto)]

mod blocks;
mod counts;
mod locals;
mod objects;

pub use blocks::{Marks, enter, leave};
pub use counts::{local_count, local_part_count};
pub use locals::{Local, declare_local};
pub use objects::{Block, end_block, enter_objects};
