//! A conditional jump asks, and one text of a turn decides for all of them.
//!
//! A jump poses its comparison: two words in the last cells of C's counter and of B's, the cell 48 raised, 47 where they are
//! compared by equality, and in 49 whether the answer is the negation. Whether a register is a constant near 0 is told where
//! the register stands, without a copy. The goal of the jump is noted: the digits of a number in cells behind the words of BP,
//! SP and D, a block's register by the first cell behind its word. What follows the jump is aimed at as ever. Behind the choice
//! of an operation one text tells the answer: then the noted goal takes the place of what was aimed at, or is dropped, and all
//! those cells are 0 again.
#![tactic(auto)]

mod deciding;
mod goal;
mod laws;
mod noting;
mod posing;
mod telling;

pub use deciding::decide;
pub use goal::{Goal, note_goal};
pub use laws::{comparisons_are_posed, jumps_are_short, notes_are_taken};
pub use posing::pose;
