//! Blocks of C while their statements are lowered: the names and numbers that come and go with them, and the places of
//! their objects in the frame.
#![tactic(auto)]

mod blocks;
mod locals;
mod places;

pub use blocks::{Begun, Block, Marks, begin_anew, begin_block, enter, leave};
pub use locals::{Local, declare_local, number_behind};
pub use places::{object_type, place_statement};
