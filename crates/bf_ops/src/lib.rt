//! The operations of EIR as pieces of Brainfuck on the cells of a frame.
//!
//! Each register is a counter of ten cells: A at 100, B at 90, C at 80, D at 70, SP at 60 and BP at 50. The cell 49 is for an
//! answer; the cells 110 to 173 are to work in. All of these but the registers' words are 0 between operations. A load and a
//! store only ask: they put an address and a word into cells behind registers, raise a register's flag there, and the cell 46
//! or 47. One text serves them all, after which those cells are 0 again. The memory stands to the right of the frame (`bf_memory`). The cells below 46 are left to what chooses the
//! next operation.
#![tactic(auto)]

mod arithmetic;
mod laws;
mod operation;
mod place;
mod service;
mod telling;
mod transfer;

pub use arithmetic::{add, mov, sub};
pub use laws::{
    comparisons_are_judged, operations_are_eirs, operations_are_short, set_words_are_kept,
};
pub use operation::perform;
pub use place::cell_of;
pub use service::serve;
pub use telling::{Told, is_negated, set_if};
pub use transfer::{getc, load, putc, store};
