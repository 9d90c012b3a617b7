//! The columns of Brainfuck's registers: a word is twelve digits of base 4, one in each column, and an operation is a text that
//! runs at all columns.
//!
//! A column has ten cells: six registers' digits, a guide that is always 1, and three lanes to work in. So a loop along the
//! guides does one short text at each column, and a sum costs the units of its digits and no more.
#![tactic(auto)]

mod bytes;
mod laws;
mod noted;
mod operation;
mod sweep;

pub use bytes::{put_getc, put_putc, put_split};
pub use laws::{
    bytes_are_dealt, bytes_are_read, bytes_are_written, calculations_hold, clears_are_done,
    columns_are_done, columns_are_done_back, columns_are_worked, copies_are_done,
    differences_are_done, equals_are_told, forks_choose, guides_lead_home,
    lane_differences_are_done, lane_equals_are_told, lane_less_are_told, lane_more_are_told,
    lane_sums_are_done, less_are_told, more_are_told, near_is_found, number_equals_are_told,
    number_less_are_told, number_more_are_told, numbers_are_added, numbers_are_moved,
    numbers_are_put, numbers_are_taken, registers_go_to_x, registers_go_to_y,
    split_divides_by_four, sums_are_done, units_give, words_act_at_rest,
};
pub use operation::{
    put_add_number, put_mov_number, put_number, put_question, put_sub_number, put_sweep,
};
pub use sweep::{Question, Sweep};
