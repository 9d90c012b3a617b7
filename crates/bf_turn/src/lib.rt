//! One step of a program of EIR as one turn of a Brainfuck loop.
//!
//! The operations are numbered from 1 on through all blocks, and the number of the next one stands in the digits of
//! `bf_choice`; 0 stands for the end. A turn chooses among the operations by that number, performs the chosen one, and
//! aims at the one that follows. The cell 0 is 1 between turns, and the end makes it 0.
//!
//! A conditional jump asks (`bf_jump`), and so do a load and a store (`bf_ops`); behind the choice stands, in a program that
//! has any, one text that decides for all jumps, and one that serves all loads and stores.
//!
//! A jump to the block that a register names copies the register to the cells from 114 on and raises the cell 44. The
//! same turn then counts that word down, block by block, and aims at the first operation of the block at which it is 0.
//! The cell 43 is to spare for the decision on a conditional jump. Both cells are 0 between turns.
#![tactic(auto)]

mod arm;
mod arms;
mod goal;
mod lookup;
mod number;
mod step;

pub use bf_jump::Goal;
pub use number::{digit_count, first_numbers, first_of};
pub use step::{op_count, turn};
