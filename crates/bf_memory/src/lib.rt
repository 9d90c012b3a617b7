//! A memory of 2^24 words on a Brainfuck tape, read and written by address.
//!
//! Memory is a row of records of 22 cells to the right of the frame, from cell 158 on. Record k keeps the words k and
//! 2^24 - 1 - k in its last six cells; its first 16 cells are 0 between accesses:
//!
//! ```text
//!            0 .. 2     3 .. 9    10 .. 12   13     14   15     16 .. 18   19 .. 21
//!          +----------+---------+----------+------+----+------+----------+----------+
//!  record  | address  | 0       | value    | side | go | mark | word k   | partner  |
//!          +----------+---------+----------+------+----+------+----------+----------+
//! ```
//!
//! There is no way to name a cell that far away. So an access walks: it counts how near the address is to an end of the
//! range down, one for each record, and carries the count, the value and the side along. Each record to which it comes gets
//! a mark. Where the count is used up, the word of the side is read or written. The way home follows the marks and takes
//! them away, so nothing else has changed afterwards.
#![tactic(auto)]

mod access;
mod laws;
mod memory;
mod seat;

pub use laws::stored_words_are_held;
pub use memory::{load, store};
